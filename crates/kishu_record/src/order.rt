// Whether names and groups stand in order, each once.
ghost use Rattle.std.specs.Prelude.{◌≡◌, true, false, map, length, get_or, IsTrue};
ghost use Rattle.std.specs.Cmp.Lexicographic.{slice_cmp};
ghost use Rattle.std.specs.Ordering.{nat_cmp, is_lt};
ghost use Rattle.std.specs.Rc.{rc_str_bytes};
ghost use Rattle.kishu_store.specs.Groups.{Rise, first_name};
ghost use Rattle.kishu_record.specs.Entries.{first_of, first_stored};

use std::rc::RcStr;

/// Whether a name stands before another, by their bytes.
fn is_before(a: &str, b: &str) -> bool
    ensures { result ≡ is_lt (slice_cmp nat_cmp a.now b.now) }
{
    a.cmp(b).is_lt()
}

/// A group's first name.
fn first_name(group: &[RcStr]) -> &str
    ensures { result.now ≡ first_name (map rc_str_bytes group.now) }
{
    match group.first() {
        Some(name) => name.as_str(),
        None => "",
    }
}

/// Whether names rise.
pub(crate) fn names_rise(names: &[RcStr]) -> bool
    ensures yes { result ≡ true → Rise (map rc_str_bytes names.now) }
    ensures no { result ≡ false → Rise (map rc_str_bytes names.now) → ⊥ }
{
    for i in 1..names.len() {
        if !is_before(names[i - 1].as_str(), names[i].as_str()) {
            return false;
        }
    }
    true
}

/// Whether groups rise by their first names.
pub(crate) fn groups_rise(groups: &[Vec<RcStr>]) -> bool
    ensures yes { result ≡ true → Rise (map first_of groups.now) }
    ensures no { result ≡ false → Rise (map first_of groups.now) → ⊥ }
{
    for i in 1..groups.len() {
        if !is_before(first_name(&groups[i - 1]), first_name(&groups[i])) {
            return false;
        }
    }
    true
}

/// Whether stored groups rise by their first names.
pub(crate) fn stored_rise(stored: &[(Vec<RcStr>, u64)]) -> bool
    ensures yes { result ≡ true → Rise (map first_stored stored.now) }
    ensures no { result ≡ false → Rise (map first_stored stored.now) → ⊥ }
{
    for i in 1..stored.len() {
        if !is_before(first_name(&stored[i - 1].0), first_name(&stored[i].0)) {
            return false;
        }
    }
    true
}
