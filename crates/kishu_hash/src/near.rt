// The hash of a number.
ghost use Rattle.std.specs.Prelude.{◌≡◌, slice_index};
ghost use Rattle.kishu_hash.specs.Near.{initial};

use std::hash::{BuildHasher, Hasher};

/// What spreads blocks of numbers over a table.
const SPREAD: u64 = 0x9e37_79b9_7f4a_7c15;

/// The hash of a `u32`. Eight numbers in a row, from a multiple of eight on, come to one place of a table of
/// up to 2^29 places, and other numbers anywhere. The three highest of 32 bits tell the eight apart.
///
/// Of other keys only the first four bytes of the last write count.
#[derive(Clone, Copy, Debug, Drop)]
pub struct NearHash {
    number: u32,
}

impl NearHash {
    /// Of 0.
    pub fn new() -> NearHash
        ensures { result ≡ initial }
    {
        NearHash { number: 0 }
    }
}

impl Hasher for NearHash {
    ghost use Rattle.kishu_hash.specs.Near.{after, hash_of};

    ghost write = { after };

    ghost finish = { hash_of };

    #[inline(always)]
    fn finish(&self) -> u64 {
        let spread = u64::from(self.number / 8).wrapping_mul(SPREAD);
        (spread >> 35) + u64::from(self.number % 8) * (1 << 29)
    }

    fn write(&mut self, bytes: &[u8]) {
        self.number = u32::from_le_bytes([
            byte_at(bytes, 0),
            byte_at(bytes, 1),
            byte_at(bytes, 2),
            byte_at(bytes, 3),
        ]);
    }

    #[inline(always)]
    fn write_u32(&mut self, number: u32) {
        self.number = number;
    }
}

impl BuildHasher for NearHash {
    type Hasher = NearHash;

    ghost build_hasher = { λ near. near };

    #[inline(always)]
    fn build_hasher(&self) -> NearHash {
        *self
    }
}

/// The byte at a place, 0 where there is none.
fn byte_at(bytes: &[u8], place: usize) -> u8
    ensures { result ≡ slice_index bytes.now place }
{
    match bytes.get(place) {
        Some(byte) => *byte,
        None => 0,
    }
}
