// The names of each class.
ghost use Rattle.std.specs.Prelude.{◌≡◌, ◌<◌, IfOk, OnOk, length, map, slice_get};
ghost use Rattle.std.specs.Rc.{rc_str_bytes};
ghost use Rattle.kishu_groups.specs.Gathering.{AreFirsts, Placed, by_class, grown};
ghost use Rattle.kishu_groups.specs.Held.{groups_of};

use crate::classes::Classes;
use std::alloc::{AllocError, Global};
use std::rc::RcStr;

/// The place of the group of a first name: the one where it was put, or that of a new group.
fn place_of(
    alloc: Global,
    groups: &mut Vec<Vec<RcStr>>,
    places: &[usize],
    first: usize,
) -> Result<usize, AllocError>
    ensures { IfOk result (Placed (slice_get places.now first)
        (groups_of groups.old) (groups_of groups.new)) }
{
    if let Some(place) = places.get(first) {
        return Ok(*place);
    }
    let place = groups.len();
    groups.push(Vec::new(alloc))?;
    Ok(place)
}

/// Puts a name behind those of a group.
fn put(groups: &mut Vec<Vec<RcStr>>, place: usize, name: &RcStr) -> Result<(), AllocError>
    requires { place < length groups.old.items }
    ensures { OnOk result (
        groups_of groups.new ≡ grown (groups_of groups.old) place (rc_str_bytes name.now)) }
{
    let name = name.clone()?;
    groups[place].push(name)?;
    Ok(())
}

/// The names of each class, in their order; the classes in the order of their first names.
pub(crate) fn gathered(
    alloc: Global,
    of: &[RcStr],
    classes: &mut Classes,
) -> Result<Vec<Vec<RcStr>>, AllocError>
    requires many { length classes.old ≡ length of.now }
    requires firsts { AreFirsts classes.old }
    ensures { IfOk result (λ v.
        groups_of v ≡ by_class classes.old (map rc_str_bytes of.now) (length of.now)) }
{
    let mut groups = Vec::new(alloc);
    let mut places = Vec::new(alloc);
    for i in 0..of.len() {
        let first = classes.first(i);
        let place = place_of(alloc, &mut groups, &places, first)?;
        put(&mut groups, place, &of[i])?;
        places.push(place)?;
    }
    Ok(groups)
}
