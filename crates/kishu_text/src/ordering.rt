// The order of texts.
ghost use Rattle.std.specs.Prelude.{◌≡◌};
ghost use Rattle.std.specs.Cmp.Lexicographic.{slice_cmp};
ghost use Rattle.std.specs.Ordering.{nat_cmp};
ghost use Rattle.std.specs.Str.{chars};

use crate::cursor::first_char;
use std::cmp::Ordering;

/// The order of two texts by their code points: that of the first two that differ, else the shorter
/// text comes first (Python Language Reference 3, "Value comparisons").
pub fn order(a: &str, b: &str) -> Ordering
    ensures { result ≡ slice_cmp nat_cmp (chars a.now) (chars b.now) }
{
    let mut left = a;
    let mut right = b;
    while let Some((x, behind_left)) = first_char(left) {
        let Some((y, behind_right)) = first_char(right) else {
            return Ordering::Greater;
        };
        if x != y {
            return x.cmp(&y);
        }
        left = behind_left;
        right = behind_right;
    }
    match first_char(right) {
        Some(_) => Ordering::Less,
        None => Ordering::Equal,
    }
}
