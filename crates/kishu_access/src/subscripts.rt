// Items that are read (Python Language Reference 3, "Subscriptions").
ghost use Rattle.std.specs.Prelude.{IfOk, IfSome, IsTrue, Some, [], is_some, length, map, option_and_then, option_map, slice_get, true, ℕ, ◌<◌, ◌∷◌, ◌≡◌};
ghost use Rattle.std.specs.Str.{chars};
ghost use Rattle.kishu_meaning.specs.comparing.Equal.{range_length};
ghost use Rattle.kishu_meaning.specs.items.Indexes.{index_of, place_in, place_of};
ghost use Rattle.kishu_meaning.specs.values.Keys.{is_one, key_of};
ghost use Rattle.kishu_meaning.specs.values.Kinds.{no_key};
ghost use Rattle.kishu_meaning.specs.moments.Moment.{Moment, node_at, node_now, ◌>>=◌ as ◌⊳◌};
ghost use Rattle.kishu_meaning.specs.values.Nodes.{value_at, value_under};
ghost use Rattle.kishu_meaning.specs.calls.Operators.{list_from};
ghost use Rattle.kishu_meaning.specs.items.Subscripts.{item, node_item, position, taken};
ghost use Rattle.kishu_meaning.specs.values.Values.{node, value_of};
ghost use Rattle.kishu_access.specs.Forms.{is_dict, items_from};
ghost use Rattle.kishu_heap.specs.Cells.{entries_of};
ghost use Rattle.kishu_machine.specs.Machine.{Gives, IsSound, moment_of, Costs};
ghost use Rattle.kishu_machine.specs.Clauses.{AreSoundIn, IsSoundIn, SoundEnd, SoundValue};
ghost use Rattle.kishu_heap.specs.Costs.{Reads};
ghost use Rattle.kishu_meaning.specs.values.Values as model;

use indexmap::IndexMap;
use kishu_heap::{Heap, Node, range_length};
use kishu_items::{character_text, number_at};
use kishu_machine::{
    Fault, Machine, key_of, list_at, no_key, node_at, not_subscriptable, out_of_range, passed,
};
use kishu_meaning::{Key, Steps, Value};
use std::alloc::{AllocError, Global};
use std::sync::ledger::Ledger;

// The whole number that an index is.
pub(crate) fn index_of<L: Ledger>(
    machine: &Machine,
    index: &Value,
    steps: &mut Steps<L>,
) -> Result<i128, Fault>
    requires sound { IsSoundIn machine.now.heap index.now }
    ensures gives { Gives (λ z. z) result (moment_of machine.now) (index_of (value_of index.now) (moment_of machine.now)) }
    ensures sound { SoundEnd machine.now.heap result }
    ensures reads { Reads 1 steps.old steps.new }
{
    let number = kishu_items::index_of(machine.alloc, index, &machine.heap, steps);
    passed(number)
}

// The place among so many that a number says.
fn place_of(alloc: Global, len: usize, number: i128) -> Result<usize, Fault>
    ensures gives { (s : Moment) → Gives (λ k. k) result s (place_of len number s) }
    ensures sound { (n : ℕ) → IsSound (λ _. true) n result }
    ensures within { IfOk result (λ k. k < len) }
{
    let place = kishu_items::place_of(alloc, len, number);
    passed(place)
}

// The place among so many that an index says.
pub(crate) fn position<L: Ledger>(
    machine: &Machine,
    len: usize,
    index: &Value,
    steps: &mut Steps<L>,
) -> Result<usize, Fault>
    requires sound { IsSoundIn machine.now.heap index.now }
    ensures gives { Gives (λ k. k) result (moment_of machine.now) (position len (value_of index.now) (moment_of machine.now)) }
    ensures sound { SoundEnd machine.now.heap result }
    ensures within { IfOk result (λ k. k < len) }
    ensures reads { Reads 1 steps.old steps.new }
{
    let number = index_of(machine, index, steps)?;
    place_of(machine.alloc, len, number)
}

// The item at an index.
fn taken<L: Ledger>(
    machine: &Machine,
    items: &[Value],
    index: &Value,
    steps: &mut Steps<L>,
) -> Result<Value, Fault>
    requires sound_items { AreSoundIn machine.now.heap items.now }
    requires sound_index { IsSoundIn machine.now.heap index.now }
    ensures gives { Gives value_of result (moment_of machine.now) (taken (map value_of items.now) (value_of index.now) (moment_of machine.now)) }
    ensures sound { SoundValue machine.now.heap result }
    ensures reads { Reads 1 steps.old steps.new }
{
    let place = position(machine, items.len(), index, steps)?;
    let item = items[place].copied()?;
    Ok(item)
}

fn character(alloc: Global, text: &str, place: usize) -> Result<Value, AllocError>
    requires { place < length (chars text.now) }
    ensures { IfOk result (λ v. Some (value_of v) ≡ option_map (λ c. model.text (c ∷ [])) (slice_get (chars text.now) place)) }
{
    let Some(c) = kishu_text::at(text, place) else {
        unreachable!()
    };
    character_text(alloc, c)
}

fn text_item<L: Ledger>(
    machine: &Machine,
    text: &str,
    index: &Value,
    steps: &mut Steps<L>,
) -> Result<Value, Fault>
    requires sound { IsSoundIn machine.now.heap index.now }
    ensures gives { Gives value_of result (moment_of machine.now) (item (model.text (chars text.now)) (value_of index.now) (moment_of machine.now)) }
    ensures sound { SoundValue machine.now.heap result }
    ensures reads { Reads 1 steps.old steps.new }
{
    let place = position(machine, kishu_text::count(text), index, steps)?;
    let item = character(machine.alloc, text, place)?;
    Ok(item)
}

// The place among so many numbers that an index says.
fn range_place(len: u128, index: i128) -> Option<u128>
    ensures { result ≡ place_in len index }
{
    if index >= 0 {
        let place = index.unsigned_abs();
        if place < len { Some(place) } else { None }
    } else {
        let back = index.unsigned_abs();
        if back <= len { Some(len - back) } else { None }
    }
}

fn range_item<L: Ledger>(
    machine: &Machine,
    start: i128,
    stop: i128,
    step: i128,
    index: &Value,
    steps: &mut Steps<L>,
) -> Result<Value, Fault>
    requires sound { IsSoundIn machine.now.heap index.now }
    ensures gives { Gives value_of result (moment_of machine.now) (item (model.range start stop step) (value_of index.now) (moment_of machine.now)) }
    ensures sound { SoundValue machine.now.heap result }
    ensures reads { Reads 1 steps.old steps.new }
{
    let number = index_of(machine, index, steps)?;
    match range_place(range_length(start, stop, step), number) {
        Some(place) => Ok(Value::Int(number_at(start, stop, step, place))),
        None => out_of_range(machine.alloc),
    }
}

// The items of a list or a tuple.
pub(crate) fn items_at<'a, L: Ledger>(
    heap: &'a Heap,
    value: &Value,
    steps: &mut Steps<L>,
) -> Option<&'a [Value]>
    ensures items { option_map (λ s. map value_of s.now) result ≡ items_from (node_at heap.now (value_of value.now)) }
    ensures sound { IfSome result (λ s. AreSoundIn heap.now s.now) }
    ensures reads { Reads 1 steps.old steps.new }
{
    match node_at(heap, value, steps)? {
        Node::List(items) => Some(items.as_slice()),
        Node::Tuple(items) => Some(items.as_slice()),
        Node::Dict(_) => None,
        Node::Object(_) => None,
        Node::Function(_) => None,
        Node::Exception(..) => None,
    }
}

fn is_dict<L: Ledger>(heap: &Heap, value: &Value, steps: &mut Steps<L>) -> bool
    ensures is { result ≡ is_dict (node_at heap.now (value_of value.now)) }
    ensures reads { Reads 1 steps.old steps.new }
{
    match node_at(heap, value, steps) {
        Some(Node::Dict(_)) => true,
        Some(Node::List(_)) => false,
        Some(Node::Tuple(_)) => false,
        Some(Node::Object(_)) => false,
        Some(Node::Function(_)) => false,
        Some(Node::Exception(..)) => false,
        None => false,
    }
}

pub(crate) fn is_list<L: Ledger>(heap: &Heap, value: &Value, steps: &mut Steps<L>) -> bool
    ensures is { result ≡ is_some (list_from (node_at heap.now (value_of value.now))) }
    ensures reads { Reads 1 steps.old steps.new }
{
    list_at(heap, value, steps).is_some()
}

pub(crate) fn found<'a>(entries: &'a IndexMap<Key, Value>, key: &Key) -> Option<&'a Value>
    ensures { option_map (λ v. value_of v.now) result ≡ value_at is_one (key_of key.now) (entries_of entries.now.entries) }
{
    entries.get(key)
}

fn value_in(entries: &IndexMap<Key, Value>, key: &Key) -> Result<Option<Value>, AllocError>
    ensures { IfOk result (λ o. option_map value_of o ≡ value_at is_one (key_of key.now) (entries_of entries.now.entries)) }
{
    match found(entries, key) {
        Some(value) => Ok(Some(value.copied()?)),
        None => Ok(None),
    }
}

// The value that a dict has under a key.
fn value_under<L: Ledger>(
    heap: &Heap,
    dict: &Value,
    key: &Key,
    steps: &mut Steps<L>,
) -> Result<Option<Value>, AllocError>
    ensures value { IfOk result (λ o. option_map value_of o ≡ option_and_then (value_under (key_of key.now)) (node_at heap.now (value_of dict.now))) }
    ensures sound { IfOk result (λ o. IfSome o (λ v. IsSoundIn heap.now v)) }
    ensures reads { Reads 1 steps.old steps.new }
{
    let Some(node) = node_at(heap, dict, steps) else {
        return Ok(None);
    };
    match node.dict() {
        Some(entries) => value_in(entries, key),
        None => Ok(None),
    }
}

fn dict_item<L: Ledger>(
    machine: &mut Machine,
    value: &Value,
    index: &Value,
    steps: &mut Steps<L>,
) -> Result<Value, Fault>
    requires dict { IsTrue (is_dict (node_at machine.old.heap (value_of value.now))) }
    requires sound_index { IsSoundIn machine.old.heap index.now }
    ensures gives { Gives value_of result (moment_of machine.new) ((node_now (value_of value.now) ⊳ node_item (value_of value.now) (value_of index.now)) (moment_of machine.old)) }
    ensures sound { SoundValue machine.new.heap result }
    ensures costs { Costs 0 5 machine.old steps.old machine.new steps.new }
    ensures heap { machine.new.heap ≡ machine.old.heap }
{
    let key = key_of(machine, index, steps)?;
    let found = value_under(&machine.heap, value, &key, steps)?;
    match found {
        Some(item) => Ok(item),
        None => no_key(index),
    }
}

fn node_item<L: Ledger>(
    machine: &mut Machine,
    value: &Value,
    index: &Value,
    steps: &mut Steps<L>,
) -> Result<Value, Fault>
    requires sound_value { IsSoundIn machine.old.heap value.now }
    requires sound_index { IsSoundIn machine.old.heap index.now }
    ensures gives { Gives value_of result (moment_of machine.new) ((node_now (value_of value.now) ⊳ node_item (value_of value.now) (value_of index.now)) (moment_of machine.old)) }
    ensures sound { SoundValue machine.new.heap result }
    ensures costs { Costs 0 7 machine.old steps.old machine.new steps.new }
    ensures heap { machine.new.heap ≡ machine.old.heap }
{
    if let Some(items) = items_at(&machine.heap, value, steps) {
        return taken(machine, items, index, steps);
    }
    if is_dict(&machine.heap, value, steps) {
        return dict_item(machine, value, index, steps);
    }
    not_subscriptable(machine, value, steps)
}

/// `value[index]`.
#[inline(never)]
pub fn item<L: Ledger>(
    machine: &mut Machine,
    value: &Value,
    index: &Value,
    steps: &mut Steps<L>,
) -> Result<Value, Fault>
    requires sound_value { IsSoundIn machine.old.heap value.now }
    requires sound_index { IsSoundIn machine.old.heap index.now }
    ensures gives { Gives value_of result (moment_of machine.new) (item (value_of value.now) (value_of index.now) (moment_of machine.old)) }
    ensures sound { SoundValue machine.new.heap result }
    ensures costs { Costs 0 16 machine.old steps.old machine.new steps.new }
    ensures heap { machine.new.heap ≡ machine.old.heap }
{
    match value {
        Value::Text(text) => text_item(machine, text.as_str(), index, steps),
        Value::Range(start, stop, step) => {
            range_item(machine, *start, *stop, *step, index, steps)
        }
        Value::Node(_) => node_item(machine, value, index, steps),
        _ => not_subscriptable(machine, value, steps),
    }
}
