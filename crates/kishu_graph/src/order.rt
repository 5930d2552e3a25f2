// Whether names stand in order, each once.
ghost use Rattle.std.specs.Prelude.{◌≡◌, true, false, map};
ghost use Rattle.std.specs.Cmp.Lexicographic.{slice_cmp};
ghost use Rattle.std.specs.Ordering.{nat_cmp, is_lt};
ghost use Rattle.std.specs.Rc.{rc_str_bytes};
ghost use Rattle.kishu_store.specs.Groups.{Rise};

use std::rc::RcStr;

/// Whether a name stands before another, by their bytes.
fn is_before(a: &str, b: &str) -> bool
    ensures { result ≡ is_lt (slice_cmp nat_cmp a.now b.now) }
{
    a.cmp(b).is_lt()
}

/// Whether names rise.
pub(crate) fn names_rise(names: &[RcStr]) -> bool
    ensures yes { result ≡ true → Rise (map rc_str_bytes names.now) }
    ensures no { result ≡ false → Rise (map rc_str_bytes names.now) → ⊥ }
{
    for i in 1..names.len() {
        if !is_before(names[i - 1].as_str(), names[i].as_str()) {
            return false;
        }
    }
    true
}
