// Stores into items, and deletions of them (Python Language Reference 3, "Assignment statements" and "The del statement").
ghost use Rattle.std.specs.Prelude.{IfOk, IsTrue, OnOk, Some, is_some, length, map, option_and_then, slice_get, ◌-◌, ◌<◌, ◌≡◌};
ghost use Rattle.kishu_meaning.specs.values.Keys.{key_of};
ghost use Rattle.kishu_meaning.specs.values.Kinds.{no_key};
ghost use Rattle.kishu_meaning.specs.moments.Moment.{change, node_at, node_now, ◌>>=◌ as ◌⊳◌};
ghost use Rattle.kishu_meaning.specs.values.Nodes.{changed, on_list, remove, value_under};
ghost use Rattle.kishu_meaning.specs.calls.Operators.{list_from};
ghost use Rattle.kishu_meaning.specs.values.Sound.{are_sound};
ghost use Rattle.kishu_meaning.specs.items.Subscripts.{delete_in_node, delete_item, item, position, store_in_node, store_item, where_found, without_place};
ghost use Rattle.kishu_meaning.specs.values.Values.{node, value_of};
ghost use Rattle.kishu_meaning.specs.items.Walks.{or_none_there};
ghost use Rattle.kishu_access.specs.Access.{container_of};
ghost use Rattle.kishu_machine.specs.Machine.{Gives, moment_of, Costs};
ghost use Rattle.kishu_machine.specs.Clauses.{IsSoundIn, SoundEnd};
ghost use Rattle.kishu_heap.specs.Costs.{Reads};

use crate::subscripts::{found, position};
use kishu_heap::{Heap, Node};
use kishu_machine::{Fault, Machine, key_of, list_at, no_key, node_at, not_subscriptable};
use kishu_meaning::{Key, NodeId, Steps, Value};
use std::alloc::{AllocError, Global};
use std::sync::ledger::Ledger;

// ---- what a container is

/// How a container is stored into: a list of so many items, a dict, or neither.
#[derive(Clone, Copy)]
pub(crate) enum Container {
    List(usize),
    Dict,
    Other,
}

fn container_at<L: Ledger>(heap: &Heap, id: NodeId, steps: &mut Steps<L>) -> Container
    ensures container { result ≡ container_of (slice_get heap.now id.0) }
    ensures reads { Reads 1 steps.old steps.new }
{
    match node_at(heap, &Value::Node(id), steps) {
        Some(Node::List(items)) => Container::List(items.len()),
        Some(Node::Dict(_)) => Container::Dict,
        Some(Node::Tuple(_)) => Container::Other,
        Some(Node::Object(_)) => Container::Other,
        Some(Node::Function(_)) => Container::Other,
        Some(Node::Exception(..)) => Container::Other,
        None => Container::Other,
    }
}

// ---- stores

fn store_in_node<L: Ledger>(
    machine: &mut Machine,
    id: NodeId,
    index: &Value,
    value: Value,
    steps: &mut Steps<L>,
) -> Result<(), Fault>
    requires id { id.0 < length machine.old.heap }
    requires sound_index { IsSoundIn machine.old.heap index.now }
    requires sound_value { IsSoundIn machine.old.heap value }
    ensures gives { Gives (λ u. u) result (moment_of machine.new) ((node_now (node id.0) ⊳ store_in_node id.0 (value_of index.now) (value_of value)) (moment_of machine.old)) }
    ensures sound { SoundEnd machine.new.heap result }
    ensures costs { Costs 0 5 machine.old steps.old machine.new steps.new }
{
    match container_at(&machine.heap, id, steps) {
        Container::List(len) => {
            let place = position(machine, len, index, steps)?;
            machine.heap.set_item(id, place, value);
            Ok(())
        }
        Container::Dict => {
            let key = key_of(machine, index, steps)?;
            machine.heap.insert(id, key, value)?;
            Ok(())
        }
        Container::Other => not_subscriptable(machine, &Value::Node(id), steps),
    }
}

/// `container[index] = value`.
pub(crate) fn store_item<L: Ledger>(
    machine: &mut Machine,
    container: &Value,
    index: &Value,
    value: Value,
    steps: &mut Steps<L>,
) -> Result<(), Fault>
    requires sound_container { IsSoundIn machine.old.heap container.now }
    requires sound_index { IsSoundIn machine.old.heap index.now }
    requires sound_value { IsSoundIn machine.old.heap value }
    ensures gives { Gives (λ u. u) result (moment_of machine.new) (store_item (value_of container.now) (value_of index.now) (value_of value) (moment_of machine.old)) }
    ensures sound { SoundEnd machine.new.heap result }
    ensures costs { Costs 0 5 machine.old steps.old machine.new steps.new }
{
    if let Value::Node(id) = container {
        return store_in_node(machine, *id, index, value, steps);
    }
    not_subscriptable(machine, container, steps)
}

// ---- `del`

// The items of a list once more.
fn copied_list<L: Ledger>(
    alloc: Global,
    heap: &Heap,
    id: NodeId,
    steps: &mut Steps<L>,
) -> Result<Vec<Value>, AllocError>
    ensures items { IfOk result (λ v. map value_of v.items ≡ or_none_there (list_from (slice_get heap.now id.0))) }
    ensures sound { IsTrue (are_sound (length heap.now) (or_none_there (list_from (slice_get heap.now id.0)))) }
    ensures reads { Reads 1 steps.old steps.new }
{
    match list_at(heap, &Value::Node(id), steps) {
        Some(items) => kishu_items::copied_all(alloc, items),
        None => Ok(Vec::new(alloc)),
    }
}

// A list without the item at a place.
fn remove_place<L: Ledger>(
    alloc: Global,
    heap: &mut Heap,
    id: NodeId,
    place: usize,
    steps: &mut Steps<L>,
) -> Result<(), AllocError>
    requires id { id.0 < length heap.old }
    requires place { place < length (or_none_there (list_from (slice_get heap.old id.0))) }
    ensures heap { OnOk result (heap.new ≡ changed (on_list (without_place place)) id.0 heap.old) }
    ensures long { length heap.new ≡ length heap.old }
    ensures reads { Reads 1 steps.old steps.new }
{
    let mut items = copied_list(alloc, heap, id, steps)?;
    items.remove(place);
    heap.replace_list(id, items);
    Ok(())
}

fn has_key<L: Ledger>(heap: &Heap, dict: &Value, key: &Key, steps: &mut Steps<L>) -> bool
    ensures is { result ≡ is_some (option_and_then (value_under (key_of key.now)) (node_at heap.now (value_of dict.now))) }
    ensures reads { Reads 1 steps.old steps.new }
{
    let Some(node) = node_at(heap, dict, steps) else {
        return false;
    };
    match node.dict() {
        Some(entries) => found(entries, key).is_some(),
        None => false,
    }
}

// A dict without the entry of a key, which an index says.
fn remove_entry<L: Ledger>(
    machine: &mut Machine,
    id: NodeId,
    key: &Key,
    index: &Value,
    steps: &mut Steps<L>,
) -> Result<(), Fault>
    requires id { id.0 < length machine.old.heap }
    requires sound_index { IsSoundIn machine.old.heap index.now }
    ensures gives { Gives (λ u. u) result (moment_of machine.new) (where_found (no_key (value_of index.now)) (option_and_then (value_under (key_of key.now)) (slice_get machine.old.heap id.0)) (change id.0 (remove (key_of key.now))) (moment_of machine.old)) }
    ensures sound { SoundEnd machine.new.heap result }
    ensures costs { Costs 0 1 machine.old steps.old machine.new steps.new }
{
    if has_key(&machine.heap, &Value::Node(id), key, steps) {
        let _gone = machine.heap.remove(id, key);
        return Ok(());
    }
    no_key(index)
}

fn delete_in_node<L: Ledger>(
    machine: &mut Machine,
    id: NodeId,
    index: &Value,
    steps: &mut Steps<L>,
) -> Result<(), Fault>
    requires id { id.0 < length machine.old.heap }
    requires sound_index { IsSoundIn machine.old.heap index.now }
    ensures gives { Gives (λ u. u) result (moment_of machine.new) ((node_now (node id.0) ⊳ delete_in_node id.0 (value_of index.now)) (moment_of machine.old)) }
    ensures sound { SoundEnd machine.new.heap result }
    ensures costs { Costs 0 6 machine.old steps.old machine.new steps.new }
{
    match container_at(&machine.heap, id, steps) {
        Container::List(len) => {
            let place = position(machine, len, index, steps)?;
            Ok(remove_place(machine.alloc, &mut machine.heap, id, place, steps)?)
        }
        Container::Dict => {
            let key = key_of(machine, index, steps)?;
            remove_entry(machine, id, &key, index, steps)
        }
        Container::Other => not_subscriptable(machine, &Value::Node(id), steps),
    }
}

/// `del container[index]`.
pub(crate) fn delete_item<L: Ledger>(
    machine: &mut Machine,
    container: &Value,
    index: &Value,
    steps: &mut Steps<L>,
) -> Result<(), Fault>
    requires sound_container { IsSoundIn machine.old.heap container.now }
    requires sound_index { IsSoundIn machine.old.heap index.now }
    ensures gives { Gives (λ u. u) result (moment_of machine.new) (delete_item (value_of container.now) (value_of index.now) (moment_of machine.old)) }
    ensures sound { SoundEnd machine.new.heap result }
    ensures costs { Costs 0 6 machine.old steps.old machine.new steps.new }
{
    if let Value::Node(id) = container {
        return delete_in_node(machine, *id, index, steps);
    }
    not_subscriptable(machine, container, steps)
}
