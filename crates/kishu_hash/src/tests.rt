// The hashes of numbers.
use crate::NearHash;
use std::hash::{BuildHasher, Hasher};

/// A table looks at 29 bits at most for a place.
const PLACES: u64 = 1 << 29;

#[test]
fn eight_in_a_row_come_to_one_place_and_differ(rt: HostRuntime) {
    let near = NearHash::new();
    for number in 0..64_u32 {
        let hash = near.hash_one(number);
        let first = near.hash_one(number / 8 * 8);
        assert_eq!(rt; hash % PLACES, first % PLACES, "at {number}");
        assert_eq!(rt; hash / PLACES, u64::from(number % 8), "at {number}");
    }
}

// The least number of all, the first two of another place, and the largest.
#[test]
fn hashes_are_as_worked_out_by_hand(rt: HostRuntime) {
    let near = NearHash::new();
    for (number, want) in [
        (0_u32, 0),
        (8, 331_804_471),
        (9, 868_675_383),
        (u32::MAX, 4_063_640_249),
    ] {
        assert_eq!(rt; near.hash_one(number), want, "of {number}");
    }
}

// A key of other bytes than four.
#[test]
fn first_four_bytes_count(rt: HostRuntime) {
    let mut long = NearHash::new();
    long.write(&[9, 0, 0, 0, 7]);
    assert_eq!(rt; long.finish(), NearHash::new().hash_one(9_u32));
    let mut short = long;
    short.write(&[9]);
    assert_eq!(rt; short.finish(), long.finish());
}
