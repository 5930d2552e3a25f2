// The items of a list node, read and changed.
ghost use Rattle.std.specs.Prelude.{◌≡◌, ◌+◌, ◌++◌, ◌<◌, ◌≤◌, IsTrue, IfOk, OnOk, length, map, reverse, slice_index_or};
ghost use Rattle.std.specs.List.{insert};
ghost use Rattle.kishu_meaning.specs.calls.Methods.{without_place};
ghost use Rattle.kishu_meaning.specs.values.Nodes.{changed, on_list};
ghost use Rattle.kishu_meaning.specs.values.Sound.{is_sound, are_sound};
ghost use Rattle.kishu_meaning.specs.values.Values.{value_of, none};
ghost use Rattle.kishu_heap.specs.Costs.{Reads};
ghost use Rattle.kishu_methods.specs.Contents.{items_at, IsList};

use kishu_heap::{Heap, Node};
use kishu_items::copied_all;
use kishu_meaning::{NodeId, Steps, Value};
use std::alloc::{AllocError, Global};
use std::sync::ledger::Ledger;

/// The items of a list.
pub(crate) fn list_items<'a, L: Ledger>(
    heap: &'a Heap,
    id: NodeId,
    steps: &mut Steps<L>,
) -> &'a [Value]
    requires id { id.0 < length heap.now }
    requires list { IsList heap.now id.0 }
    ensures items { map value_of result.now ≡ items_at heap.now id.0 }
    ensures sound { IsTrue (are_sound (length heap.now) (items_at heap.now id.0)) }
    ensures reads { Reads 1 steps.old steps.new }
{
    match heap.node(id, steps).list() {
        Some(items) => items,
        None => unreachable!(),
    }
}

/// How many items a list has.
pub(crate) fn list_len<L: Ledger>(heap: &Heap, id: NodeId, steps: &mut Steps<L>) -> usize
    requires id { id.0 < length heap.now }
    requires list { IsList heap.now id.0 }
    ensures len { result ≡ length (items_at heap.now id.0) }
    ensures reads { Reads 1 steps.old steps.new }
{
    list_items(heap, id, steps).len()
}

/// The items of a list once more.
pub(crate) fn copied_list<L: Ledger>(
    alloc: Global,
    heap: &Heap,
    id: NodeId,
    steps: &mut Steps<L>,
) -> Result<Vec<Value>, AllocError>
    requires id { id.0 < length heap.now }
    requires list { IsList heap.now id.0 }
    ensures items { IfOk result (λ v. map value_of v.items ≡ items_at heap.now id.0) }
    ensures sound { IsTrue (are_sound (length heap.now) (items_at heap.now id.0)) }
    ensures reads { Reads 1 steps.old steps.new }
{
    let items = copied_all(alloc, list_items(heap, id, steps))?;
    Ok(items)
}

/// Takes the item at a place out of a list.
pub(crate) fn without_place<L: Ledger>(
    alloc: Global,
    id: NodeId,
    place: usize,
    heap: &mut Heap,
    steps: &mut Steps<L>,
) -> Result<Value, AllocError>
    requires id { id.0 < length heap.old }
    requires list { IsList heap.old id.0 }
    requires place { place < length (items_at heap.old id.0) }
    ensures value { IfOk result (λ v. value_of v ≡ slice_index_or (items_at heap.old id.0) place none) }
    ensures nodes { OnOk result (heap.new ≡ changed (without_place place) id.0 heap.old) }
    ensures reads { Reads 1 steps.old steps.new }
    ensures long { length heap.new ≡ length heap.old }
{
    let mut items = copied_list(alloc, heap, id, steps)?;
    let taken = items.remove(place);
    heap.replace_list(id, items);
    Ok(taken)
}

/// Puts a value into a list, in front of what stands at a place.
pub(crate) fn with_place<L: Ledger>(
    alloc: Global,
    id: NodeId,
    place: usize,
    value: &Value,
    heap: &mut Heap,
    steps: &mut Steps<L>,
) -> Result<(), AllocError>
    requires id { id.0 < length heap.old }
    requires list { IsList heap.old id.0 }
    requires place { place ≤ length (items_at heap.old id.0) }
    requires sound { IsTrue (is_sound (length heap.old) (value_of value.now)) }
    ensures nodes { OnOk result (heap.new ≡ changed (on_list (λ items. insert items place (value_of value.now))) id.0 heap.old) }
    ensures reads { Reads 1 steps.old steps.new }
    ensures long { length heap.new ≡ length heap.old }
{
    let mut items = copied_list(alloc, heap, id, steps)?;
    items.insert(place, value.copied()?)?;
    heap.replace_list(id, items);
    Ok(())
}

/// Turns a list round.
pub(crate) fn reverse<L: Ledger>(
    alloc: Global,
    id: NodeId,
    heap: &mut Heap,
    steps: &mut Steps<L>,
) -> Result<(), AllocError>
    requires id { id.0 < length heap.old }
    requires list { IsList heap.old id.0 }
    ensures nodes { OnOk result (heap.new ≡ changed (on_list reverse) id.0 heap.old) }
    ensures reads { Reads 1 steps.old steps.new }
    ensures long { length heap.new ≡ length heap.old }
{
    let mut items = copied_list(alloc, heap, id, steps)?;
    items.reverse();
    heap.replace_list(id, items);
    Ok(())
}
