// Two lists of groups, each in the order of first names, as one.
ghost use Rattle.std.specs.Prelude.{◌≡◌, List, ℕ, IfOk, OnOk, map, option_map};
ghost use Rattle.kishu_names.specs.Record.{texts_of};
ghost use Rattle.kishu_store.specs.Groups.{first_name};
ghost use Rattle.kishu_delta.specs.Compared.{group_in, picture_in, with_pictures};
ghost use Rattle.kishu_delta.specs.Deltas.{all_groups};
ghost use Rattle.kishu_delta.specs.Found.{group_of};
ghost use Rattle.kishu_delta.specs.Merged.{comes_before, merged, Moves, Pops};

use crate::delta::StoredGroup;
use std::alloc::{AllocError, Global};
use std::collections::VecDeque;
use std::rc::RcStr;

/// The first of these names, and the empty text of none.
fn first_name(names: &[RcStr]) -> &str
    ensures { result.now ≡ first_name (texts_of names.now) }
{
    match names.first() {
        Some(name) => name.as_str(),
        None => "",
    }
}

/// Whether the first name of a group comes before another's.
fn comes_before(a: &[RcStr], b: &[RcStr]) -> bool
    ensures { result ≡ comes_before (texts_of a.now) (texts_of b.now) }
{
    first_name(a).cmp(first_name(b)).is_lt()
}

// ---- groups

/// Takes off the first of these, where it comes before a group.
fn pop_group(rest: &mut VecDeque<Vec<RcStr>>, names: &[RcStr]) -> Option<Vec<RcStr>>
    ensures { Pops (λ g. g) (texts_of names.now) (map group_of rest.old.items)
        (option_map group_of result) (map group_of rest.new.items) }
{
    match rest.front() {
        Some(group) if comes_before(group, names) => rest.pop_front(),
        _ => None,
    }
}

/// Puts those at the front of the rest that come before a group behind the others.
fn move_groups(
    all: &mut Vec<Vec<RcStr>>,
    rest: &mut VecDeque<Vec<RcStr>>,
    names: &[RcStr],
) -> Result<(), AllocError>
    ensures { OnOk result (Moves (λ g. g) (texts_of names.now)
        (map group_of all.old.items) (map group_of rest.old.items)
        (map group_of all.new.items) (map group_of rest.new.items)) }
{
    while let Some(group) = pop_group(rest, names) {
        all.push(group)?;
    }
    Ok(())
}

/// Groups of two lists, each in the order of first names, in this order.
pub(crate) fn merged_groups(
    alloc: Global,
    groups: Vec<Vec<RcStr>>,
    others: Vec<Vec<RcStr>>,
) -> Result<Vec<Vec<RcStr>>, AllocError>
    ensures { IfOk result (λ v. all_groups v ≡ merged (λ g. g) (all_groups groups) (all_groups others)) }
{
    let mut all = Vec::new(alloc);
    let mut rest = VecDeque::from_vec(others);
    for group in groups {
        move_groups(&mut all, &mut rest, &group)?;
        all.push(group)?;
    }
    while let Some(group) = rest.pop_front() {
        all.push(group)?;
    }
    Ok(all)
}

// ---- groups with their pictures

/// Takes off the first of these, where it comes before a group.
fn pop_stored(rest: &mut VecDeque<StoredGroup>, names: &[RcStr]) -> Option<StoredGroup>
    ensures { Pops group_in (texts_of names.now) (with_pictures rest.old.items)
        (option_map picture_in result) (with_pictures rest.new.items) }
{
    match rest.front() {
        Some(group) if comes_before(&group.names, names) => rest.pop_front(),
        _ => None,
    }
}

/// Puts those at the front of the rest that come before a group behind the others.
fn move_stored(
    all: &mut Vec<StoredGroup>,
    rest: &mut VecDeque<StoredGroup>,
    names: &[RcStr],
) -> Result<(), AllocError>
    ensures { OnOk result ((bytes : List ℕ) → Moves group_in (texts_of names.now, bytes)
        (with_pictures all.old.items) (with_pictures rest.old.items)
        (with_pictures all.new.items) (with_pictures rest.new.items)) }
{
    while let Some(group) = pop_stored(rest, names) {
        all.push(group)?;
    }
    Ok(())
}

/// Groups of two lists, each in the order of first names, in this order.
pub(crate) fn merged_stored(
    alloc: Global,
    groups: Vec<StoredGroup>,
    others: Vec<StoredGroup>,
) -> Result<Vec<StoredGroup>, AllocError>
    ensures { IfOk result (λ v. with_pictures v.items
        ≡ merged group_in (with_pictures groups.items) (with_pictures others.items)) }
{
    let mut all = Vec::new(alloc);
    let mut rest = VecDeque::from_vec(others);
    for group in groups {
        move_stored(&mut all, &mut rest, &group.names)?;
        all.push(group)?;
    }
    while let Some(group) = rest.pop_front() {
        all.push(group)?;
    }
    Ok(all)
}
