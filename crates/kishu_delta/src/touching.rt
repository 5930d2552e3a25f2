// The names that a cell touched.
ghost use Rattle.std.specs.List.{list_any};
ghost use Rattle.std.specs.Prelude.{◌≡◌, ℕ, ◌||◌, List, [], IsTrue, IfOk, OnOk, filter, length};
ghost use Rattle.kishu_language.specs.tokens.Names.{is_among};
ghost use Rattle.kishu_meaning.specs.values.Sound.{are_sound_names};
ghost use Rattle.kishu_groups.specs.Held.{ReadsNodes};
ghost use Rattle.kishu_names.specs.Record.{texts_of};
ghost use Rattle.kishu_history.specs.Touched.{holds_any, touched, classes};
ghost use Rattle.kishu_objects.specs.Lists.{In, Rise};
ghost use Rattle.kishu_objects.specs.Picture.{listed};
ghost use Rattle.kishu_objects.specs.Sound.{IsSound};
ghost use Rattle.kishu_picture.specs.Held.{held, AreBound};
ghost use Rattle.kishu_store.specs.Groups.{Group};
ghost use Rattle.kishu_delta.specs.Deltas.{all_groups, table_groups};
ghost use Rattle.kishu_delta.specs.Near.{AreNear, lent};

use crate::sets::NameSet;
use kishu_graph::Table;
use kishu_groups::groups;
use kishu_heap::Heap;
use kishu_meaning::Steps;
use kishu_names::Names;
use std::alloc::{AllocError, Global};
use std::rc::RcStr;
use std::sync::ledger::Ledger;

/// Whether a group holds one of these names.
pub(crate) fn holds_any(accessed: &NameSet, group: &[RcStr]) -> bool
    ensures { result ≡ holds_any accessed.now (texts_of group.now) }
{
    for name in group {
        if accessed.has(name.as_str()) {
            return true;
        }
    }
    false
}

/// The names that were accessed.
pub(crate) fn accessed_names(alloc: Global, names: &Names) -> Result<NameSet, AllocError>
    ensures { IfOk result (λ set. (x : List ℕ) → is_among x set ≡ is_among x names.now.accessed) }
{
    let mut accessed = NameSet::new(alloc);
    accessed.put(names.accessed())?;
    Ok(accessed)
}

/// The groups of the table that hold one of these names.
pub(crate) fn groups_near<'a>(
    alloc: Global,
    table: &'a Table,
    accessed: &NameSet,
) -> Result<Vec<&'a [RcStr]>, AllocError>
    ensures { IfOk result (λ v. AreNear v.items (table_groups table.now) accessed.now) }
{
    let mut near = Vec::new(alloc);
    for row in &table.rows {
        if holds_any(accessed, &row.group.names) {
            near.push(row.group.names.as_slice())?;
        }
    }
    Ok(near)
}

/// The names that were accessed, and those of these groups.
fn names_near(alloc: Global, near: &[&[RcStr]], names: &Names) -> Result<NameSet, AllocError>
    ensures { IfOk result (λ set. (x : List ℕ) → is_among x set
        ≡ (is_among x names.now.accessed || list_any (is_among x) (lent near.now))) }
{
    let mut all = NameSet::new(alloc);
    all.put(names.accessed())?;
    for group in near {
        all.put(group)?;
    }
    Ok(all)
}

/// Those of these names that are bound, in byte order.
fn bound_among(alloc: Global, names: &Names, among: &NameSet) -> Result<Vec<RcStr>, AllocError>
    ensures names { IfOk result
        (λ v. texts_of v.items ≡ filter (λ x. is_among x among.now) (listed (held [] names.now))) }
    ensures rise { Rise (listed (held [] names.now)) }
{
    let mut bound = Vec::new(alloc);
    for name in names.names()? {
        if among.has(name.as_str()) {
            bound.push(name)?;
        }
    }
    Ok(bound)
}

/// The classes of the touched names, where these groups are those of the table that hold an accessed name.
pub(crate) fn classes_touched<L: Ledger>(
    alloc: Global,
    near: &[&[RcStr]],
    heap: &Heap,
    names: &Names,
    steps: &mut Steps<L>,
) -> Result<Vec<Vec<RcStr>>, AllocError>
    requires sound { IsTrue (are_sound_names (length heap.now) names.now.bound) }
    ensures classes { IfOk result (λ v. (gs : List Group) → AreNear near.now gs names.now.accessed
        → all_groups v ≡ classes gs names.now.accessed (held heap.now names.now)) }
    ensures bound { IfOk result (λ v. (g : Group) → In g (all_groups v) → AreBound names.now.bound g) }
    ensures sound { OnOk result (IsSound (held heap.now names.now)) }
    ensures rise { OnOk result (Rise (listed (held heap.now names.now))) }
    ensures reads { (gs : List Group) → AreNear near.now gs names.now.accessed
        → ReadsNodes (held heap.now names.now) (touched gs names.now.accessed (held heap.now names.now))
        steps.old steps.new }
{
    // By its length a heap also tells that its nodes lead to nodes.
    let _nodes = heap.len();
    let all = names_near(alloc, near, names)?;
    let touched = bound_among(alloc, names, &all)?;
    groups(alloc, heap, names, &touched, steps)
}
