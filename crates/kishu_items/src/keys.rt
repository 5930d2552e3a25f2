// A value as a key of a dict, and a key as a value.
ghost use Rattle.std.specs.Prelude.{◌≡◌, ℕ, ◌+◌, ◌*◌, ◌<◌, ◌≤◌, ◌^◌, ◌++◌, List, IsTrue, IfOk, OnOk, Some, map, option_map, length};
ghost use Rattle.kishu_meaning.specs.declared.budget.Budget.{Budget};
ghost use Rattle.kishu_meaning.specs.values.Keys as keys;
ghost use Rattle.kishu_meaning.specs.values.Keys.{key_of, part_of};
ghost use Rattle.kishu_meaning.specs.items.KeyOf.{part_in, parts_of, tuple_key, key_of_value, value_of_part, value_of_key, values_of_keys};
ghost use Rattle.kishu_meaning.specs.values.Kinds.{unhashable};
ghost use Rattle.kishu_meaning.specs.moments.Moment.{Moment, or_else};
ghost use Rattle.kishu_meaning.specs.values.Nodes.{tuple_in};
ghost use Rattle.kishu_meaning.specs.values.Sound.{is_sound, are_sound};
ghost use Rattle.kishu_meaning.specs.values.Values as model;
ghost use Rattle.kishu_meaning.specs.values.Values.{value_of, node};
ghost use Rattle.kishu_heap.specs.Cells.{entries_of};
ghost use Rattle.kishu_heap.specs.Costs.{Reads, Spends};
ghost use Rattle.kishu_items.specs.Called.{moment_of, Gives};
ghost use Rattle.kishu_items.specs.Contents.{IsGrown};

use crate::faults::{raise, unhashable_text};
use crate::spending::spend;
use indexmap::IndexMap;
use kishu_heap::{CallFault, Heap, Node};
use kishu_meaning::{Budget, ClassId, Key, KeyPart, NodeId, Steps, Value};
use std::alloc::{AllocError, Global};
use std::sync::ledger::Ledger;

// The part of a key that a value is, where it is one.
fn part_in(value: &Value) -> Result<Option<KeyPart>, AllocError>
    ensures { IfOk result (λ o. option_map part_of o ≡ part_in (value_of value.now)) }
{
    match value {
        Value::None => Ok(Some(KeyPart::None)),
        Value::Bool(holds) => Ok(Some(KeyPart::Bool(*holds))),
        Value::Int(number) => Ok(Some(KeyPart::Int(*number))),
        Value::Text(text) => Ok(Some(KeyPart::Text(text.clone()?))),
        Value::Range(..) | Value::Builtin(_) | Value::Class(_) | Value::Node(_) => Ok(None),
    }
}

// A part of a key that a value is, or a TypeError.
fn part_of<L: Ledger>(
    alloc: Global,
    value: &Value,
    heap: &Heap,
    steps: &mut Steps<L>,
) -> Result<KeyPart, CallFault>
    requires sound { IsTrue (is_sound (length heap.now) (value_of value.now)) }
    ensures gives { (b : Budget) → Gives part_of result (moment_of heap.now b) (or_else (unhashable (value_of value.now)) (part_in (value_of value.now)) (moment_of heap.now b)) }
    ensures reads { Reads 1 steps.old steps.new }
    ensures unread { OnOk result (steps.new ≤ steps.old) }
{
    match part_in(value)? {
        Some(part) => Ok(part),
        None => raise(
            ClassId::TYPE_ERROR,
            unhashable_text(alloc, value, heap, steps)?,
        ),
    }
}

// The parts that values are.
fn parts_of<L: Ledger>(
    alloc: Global,
    values: &[Value],
    heap: &Heap,
    steps: &mut Steps<L>,
) -> Result<Vec<KeyPart>, CallFault>
    requires sound { IsTrue (are_sound (length heap.now) (map value_of values.now)) }
    ensures gives { (b : Budget) → Gives (λ v. map part_of v.items) result (moment_of heap.now b) (parts_of (map value_of values.now) (moment_of heap.now b)) }
    ensures reads { Reads (length values.now) steps.old steps.new }
{
    let mut parts = Vec::new(alloc);
    for i in 0..values.len() {
        parts.push(part_of(alloc, &values[i], heap, steps)?)?;
    }
    Ok(parts)
}

// The key that a tuple is. It takes its length.
fn tuple_key<L: Ledger>(
    alloc: Global,
    values: &[Value],
    heap: &Heap,
    budget: &mut Budget,
    steps: &mut Steps<L>,
) -> Result<Key, CallFault>
    requires sound { IsTrue (are_sound (length heap.now) (map value_of values.now)) }
    ensures gives { (v : model.Value) → Gives key_of result (moment_of heap.now budget.new) (tuple_key v (Some (map value_of values.now)) (moment_of heap.now budget.old)) }
    ensures spends { Spends 0 budget.old steps.old budget.new steps.new }
{
    spend(values.len() as u128, budget, steps)?;
    Ok(Key::Tuple(parts_of(alloc, values, heap, steps)?))
}

fn unhashable<L: Ledger>(
    alloc: Global,
    value: &Value,
    heap: &Heap,
    steps: &mut Steps<L>,
) -> Result<Key, CallFault>
    requires sound { IsTrue (is_sound (length heap.now) (value_of value.now)) }
    ensures gives { (b : Budget) → Gives key_of result (moment_of heap.now b) (unhashable (value_of value.now) (moment_of heap.now b)) }
    ensures reads { Reads 1 steps.old steps.new }
{
    raise(
        ClassId::TYPE_ERROR,
        unhashable_text(alloc, value, heap, steps)?,
    )
}

// The key that a node is: it must be a tuple.
fn node_key<L: Ledger>(
    alloc: Global,
    id: NodeId,
    heap: &Heap,
    budget: &mut Budget,
    steps: &mut Steps<L>,
) -> Result<Key, CallFault>
    requires id { id.0 < length heap.now }
    ensures gives { Gives key_of result (moment_of heap.now budget.new) (key_of_value (node id.0) (moment_of heap.now budget.old)) }
    ensures spends { Spends 2 budget.old steps.old budget.new steps.new }
{
    match heap.node(id, steps) {
        Node::Tuple(items) => tuple_key(alloc, items.as_slice(), heap, budget, steps),
        Node::List(_) | Node::Dict(_) | Node::Object(_) | Node::Function(_) | Node::Exception(..) =>
            unhashable(alloc, &Value::Node(id), heap, steps),
    }
}

/// The key that a value is, or a TypeError. A tuple takes its length in steps, before its items are
/// looked at.
pub fn key_of<L: Ledger>(
    alloc: Global,
    value: &Value,
    heap: &Heap,
    budget: &mut Budget,
    steps: &mut Steps<L>,
) -> Result<Key, CallFault>
    requires sound { IsTrue (is_sound (length heap.now) (value_of value.now)) }
    ensures gives { Gives key_of result (moment_of heap.now budget.new) (key_of_value (value_of value.now) (moment_of heap.now budget.old)) }
    ensures spends { Spends 2 budget.old steps.old budget.new steps.new }
{
    match value {
        Value::None => Ok(Key::None),
        Value::Bool(holds) => Ok(Key::Bool(*holds)),
        Value::Int(number) => Ok(Key::Int(*number)),
        Value::Text(text) => Ok(Key::Text(text.clone()?)),
        Value::Node(id) => node_key(alloc, *id, heap, budget, steps),
        Value::Range(..) => unhashable(alloc, value, heap, steps),
        Value::Builtin(_) => unhashable(alloc, value, heap, steps),
        Value::Class(_) => unhashable(alloc, value, heap, steps),
    }
}

fn copied_part(part: &KeyPart) -> Result<KeyPart, AllocError>
    ensures { IfOk result (λ p. part_of p ≡ part_of part.now) }
{
    match part {
        KeyPart::None => Ok(KeyPart::None),
        KeyPart::Bool(holds) => Ok(KeyPart::Bool(*holds)),
        KeyPart::Int(number) => Ok(KeyPart::Int(*number)),
        KeyPart::Text(text) => Ok(KeyPart::Text(text.clone()?)),
    }
}

fn copied_parts(alloc: Global, parts: &[KeyPart]) -> Result<Vec<KeyPart>, AllocError>
    ensures { IfOk result (λ v. map part_of v.items ≡ map part_of parts.now) }
{
    let mut copies = Vec::new(alloc);
    for part in parts {
        copies.push(copied_part(part)?)?;
    }
    Ok(copies)
}

/// The same key once more.
pub fn copied_key(alloc: Global, key: &Key) -> Result<Key, AllocError>
    ensures { IfOk result (λ k. key_of k ≡ key_of key.now) }
{
    match key {
        Key::None => Ok(Key::None),
        Key::Bool(holds) => Ok(Key::Bool(*holds)),
        Key::Int(number) => Ok(Key::Int(*number)),
        Key::Text(text) => Ok(Key::Text(text.clone()?)),
        Key::Tuple(parts) => Ok(Key::Tuple(copied_parts(alloc, parts.as_slice())?)),
    }
}

/// The keys of a dict once more, in order.
pub fn copied_keys(alloc: Global, entries: &IndexMap<Key, Value>) -> Result<Vec<Key>, AllocError>
    ensures { IfOk result (λ v. map key_of v.items ≡ map (λ e. e.0) (entries_of entries.now.entries)) }
{
    let mut keys = Vec::new(alloc);
    for i in 0..entries.len() {
        let Some((key, _)) = entries.get_index(i) else {
            unreachable!()
        };
        keys.push(copied_key(alloc, key)?)?;
    }
    Ok(keys)
}

fn value_of_part(part: &KeyPart) -> Result<Value, AllocError>
    ensures { IfOk result (λ v. value_of v ≡ value_of_part (part_of part.now)) }
{
    match part {
        KeyPart::None => Ok(Value::None),
        KeyPart::Bool(holds) => Ok(Value::Bool(*holds)),
        KeyPart::Int(number) => Ok(Value::Int(*number)),
        KeyPart::Text(text) => Ok(Value::Text(text.clone()?)),
    }
}

fn values_of_parts(alloc: Global, parts: &[KeyPart]) -> Result<Vec<Value>, AllocError>
    ensures { IfOk result (λ v. map value_of v.items ≡ map value_of_part (map part_of parts.now)) }
{
    let mut values = Vec::new(alloc);
    for part in parts {
        values.push(value_of_part(part)?)?;
    }
    Ok(values)
}

/// The value that a key is. A tuple is a new node, and takes its length in steps.
pub fn value_of_key<L: Ledger>(
    alloc: Global,
    key: &Key,
    heap: &mut Heap,
    budget: &mut Budget,
    steps: &mut Steps<L>,
) -> Result<Value, CallFault>
    requires room { length heap.old + 1 < 2 ^ 32 }
    ensures gives { Gives value_of result (moment_of heap.new budget.new) (value_of_key (key_of key.now) (moment_of heap.old budget.old)) }
    ensures sound { IfOk result (λ v. IsTrue (is_sound (length heap.new) (value_of v))) }
    ensures more { IsGrown 1 heap.old heap.new }
    ensures spends { Spends 0 budget.old steps.old budget.new steps.new }
{
    match key {
        Key::None => Ok(Value::None),
        Key::Bool(holds) => Ok(Value::Bool(*holds)),
        Key::Int(number) => Ok(Value::Int(*number)),
        Key::Text(text) => Ok(Value::Text(text.clone()?)),
        Key::Tuple(parts) => new_tuple(alloc, parts.as_slice(), heap, budget, steps),
    }
}

// A new tuple of the values that parts of a key are.
fn new_tuple<L: Ledger>(
    alloc: Global,
    parts: &[KeyPart],
    heap: &mut Heap,
    budget: &mut Budget,
    steps: &mut Steps<L>,
) -> Result<Value, CallFault>
    requires room { length heap.old + 1 < 2 ^ 32 }
    ensures gives { Gives value_of result (moment_of heap.new budget.new) (value_of_key (keys.tuple (map part_of parts.now)) (moment_of heap.old budget.old)) }
    ensures sound { IfOk result (λ v. IsTrue (is_sound (length heap.new) (value_of v))) }
    ensures more { IsGrown 1 heap.old heap.new }
    ensures spends { Spends 0 budget.old steps.old budget.new steps.new }
{
    spend(parts.len() as u128, budget, steps)?;
    let values = values_of_parts(alloc, parts)?;
    Ok(Value::Node(heap.make(Node::Tuple(values))?))
}

/// The values that keys are, in order. Each tuple is a new node, and takes its length in steps.
pub fn values_of_keys<L: Ledger>(
    alloc: Global,
    keys: &[Key],
    heap: &mut Heap,
    budget: &mut Budget,
    steps: &mut Steps<L>,
) -> Result<Vec<Value>, CallFault>
    requires room { length heap.old + length keys.now < 2 ^ 32 }
    ensures gives { Gives (λ v. map value_of v.items) result (moment_of heap.new budget.new) (values_of_keys (map key_of keys.now) (moment_of heap.old budget.old)) }
    ensures sound { IfOk result (λ v. IsTrue (are_sound (length heap.new) (map value_of v.items))) }
    ensures more { IsGrown (length keys.now) heap.old heap.new }
    ensures spends { Spends 0 budget.old steps.old budget.new steps.new }
{
    let mut values = Vec::new(alloc);
    for i in 0..keys.len() {
        values.push(value_of_key(alloc, &keys[i], heap, budget, steps)?)?;
    }
    Ok(values)
}

/// The same map once more.
pub fn copied_map(
    alloc: Global,
    entries: &IndexMap<Key, Value>,
) -> Result<IndexMap<Key, Value>, AllocError>
    ensures { IfOk result (λ m. entries_of m.entries ≡ entries_of entries.now.entries) }
{
    let mut copies = IndexMap::new(alloc);
    for i in 0..entries.len() {
        let Some((key, value)) = entries.get_index(i) else {
            unreachable!()
        };
        copies.insert(copied_key(alloc, key)?, value.copied()?)?;
    }
    Ok(copies)
}
