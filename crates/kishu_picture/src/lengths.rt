// The length of a picture. Sums stay at 2^64-1.
ghost use Rattle.std.specs.Prelude.{◌≡◌, ◌*◌, ◌<◌, ℕ, IsTrue, IfOk, [], length, map};
ghost use Rattle.kishu_meaning.specs.values.Keys.{part_of, key_of};
ghost use Rattle.kishu_meaning.specs.values.Sound.{are_sound_names};
ghost use Rattle.kishu_meaning.specs.values.Values.{value_of};
ghost use Rattle.kishu_heap.specs.Cells.{node_of, entries_of, attributes_of};
ghost use Rattle.kishu_heap.specs.Costs.{Reads};
ghost use Rattle.kishu_names.specs.Record.{texts_of};
ghost use Rattle.kishu_objects.specs.Bytes.{long, short, many, value_bytes, part_bytes, key_bytes, entry_bytes, name_bytes, row_bytes};
ghost use Rattle.kishu_objects.specs.Lists.{In};
ghost use Rattle.kishu_objects.specs.Picture.{bound};
ghost use Rattle.kishu_objects.specs.Shape.{node_at};
ghost use Rattle.kishu_picture.specs.Held.{held, order_of, bytes_of};
ghost use Rattle.kishu_picture.specs.Lengths.{capped};

use crate::meeting::met;
use indexmap::{IndexMap, IndexSet};
use kishu_hash::NearHash;
use kishu_heap::{FunctionNode, Heap, Node};
use kishu_meaning::{Key, KeyPart, NodeId, Steps, Value};
use kishu_names::Names;
use std::alloc::{AllocError, Global};
use std::rc::RcStr;
use std::sync::ledger::Ledger;

/// The length of a text behind its length in four bytes.
fn text_len(text: &str) -> u64
    ensures { result ≡ capped (length (long text.now)) }
{
    (text.len() as u64).saturating_add(4)
}

/// The length of a name behind its length in one byte.
fn name_len(name: &str) -> u64
    ensures { result ≡ capped (length (short name.now)) }
{
    (name.len() as u64).saturating_add(1)
}

fn value_len(value: &Value) -> u64
    ensures { result ≡ capped (length (value_bytes (value_of value.now))) }
{
    match value {
        Value::None => 1,
        Value::Bool(_) => 1,
        Value::Int(_) => 17,
        Value::Text(text) => text_len(text.as_str()).saturating_add(1),
        Value::Range(..) => 49,
        Value::Builtin(_) => 2,
        Value::Class(_) => 2,
        Value::Node(_) => 5,
    }
}

fn part_len(part: &KeyPart) -> u64
    ensures { result ≡ capped (length (part_bytes (part_of part.now))) }
{
    match part {
        KeyPart::None => 1,
        KeyPart::Bool(_) => 1,
        KeyPart::Int(_) => 17,
        KeyPart::Text(text) => text_len(text.as_str()).saturating_add(1),
    }
}

fn parts_len(parts: &[KeyPart]) -> u64
    ensures { result ≡ capped (length (many part_bytes (map part_of parts.now))) }
{
    let mut len: u64 = 4;
    for part in parts {
        len = len.saturating_add(part_len(part));
    }
    len
}

fn key_len(key: &Key) -> u64
    ensures { result ≡ capped (length (key_bytes (key_of key.now))) }
{
    match key {
        Key::None => 1,
        Key::Bool(_) => 1,
        Key::Int(_) => 17,
        Key::Text(text) => text_len(text.as_str()).saturating_add(1),
        Key::Tuple(parts) => parts_len(parts.as_slice()).saturating_add(1),
    }
}

fn values_len(values: &[Value]) -> u64
    ensures { result ≡ capped (length (many value_bytes (map value_of values.now))) }
{
    let mut len: u64 = 4;
    for value in values {
        len = len.saturating_add(value_len(value));
    }
    len
}

fn entries_len(entries: &IndexMap<Key, Value>) -> u64
    ensures { result ≡ capped (length (many entry_bytes (entries_of entries.now.entries))) }
{
    let mut len: u64 = 4;
    for i in 0..entries.len() {
        let Some((key, value)) = entries.get_index(i) else {
            unreachable!()
        };
        len = len
            .saturating_add(key_len(key))
            .saturating_add(value_len(value));
    }
    len
}

fn attributes_len(attributes: &IndexMap<RcStr, Value>) -> u64
    ensures { result ≡ capped (length (many name_bytes (attributes_of attributes.now.entries))) }
{
    let mut len: u64 = 4;
    for i in 0..attributes.len() {
        let Some((name, value)) = attributes.get_index(i) else {
            unreachable!()
        };
        len = len
            .saturating_add(name_len(name.as_str()))
            .saturating_add(value_len(value));
    }
    len
}

fn row_len(node: &Node) -> u64
    ensures { result ≡ capped (length (row_bytes (node_of node.now))) }
{
    match node {
        Node::List(items) => values_len(items.as_slice()).saturating_add(1),
        Node::Tuple(items) => values_len(items.as_slice()).saturating_add(1),
        Node::Dict(entries) => entries_len(entries).saturating_add(1),
        Node::Object(attributes) => attributes_len(attributes).saturating_add(1),
        Node::Function(function) => text_len(function.code.as_str())
            .saturating_add(values_len(function.defaults.as_slice()))
            .saturating_add(2),
        Node::Exception(_, arguments) => values_len(arguments.as_slice()).saturating_add(2),
    }
}

fn names_len(names: &Names, group: &[RcStr]) -> u64
    ensures { result ≡ capped (length (many name_bytes (bound (held [] names.now) (texts_of group.now)))) }
{
    let mut len: u64 = 4;
    for name in group {
        if let Some(value) = names.peek(name.as_str()) {
            len = len
                .saturating_add(name_len(name.as_str()))
                .saturating_add(value_len(value));
        }
    }
    len
}

/// The length of the nodes that were found. Each takes one step of the counter.
fn rows_len<L: Ledger>(heap: &Heap, found: &IndexSet<u32, NearHash>, steps: &mut Steps<L>) -> u64
    requires low { (i : ℕ) → In i found.now.keys → i < length heap.now }
    ensures len { result ≡ capped (length (many row_bytes (map (node_at heap.now) found.now.keys))) }
    ensures reads { Reads (length found.now.keys) steps.old steps.new }
{
    let mut len: u64 = 4;
    for i in 0..found.len() {
        let Some(id) = found.get_index(i) else {
            unreachable!()
        };
        let node = heap.node(NodeId(*id), steps);
        len = len.saturating_add(row_len(node));
    }
    len
}

/// The number of bytes of `picture` for these names, and 2^64-1 where there are more. Each node that
/// the names reach takes two steps of the counter at most, and no other is looked at. An error says
/// that no memory is left.
pub fn picture_len<L: Ledger>(
    alloc: Global,
    heap: &Heap,
    names: &Names,
    group: &[RcStr],
    steps: &mut Steps<L>,
) -> Result<u64, AllocError>
    requires sound { IsTrue (are_sound_names (length heap.now) names.now.bound) }
    ensures len { IfOk result (λ n. n ≡ capped (length (bytes_of heap.now names.now group.now))) }
    ensures reads { Reads (2 * length (order_of heap.now names.now group.now)) steps.old steps.new }
{
    let found = met(alloc, heap, names, group, steps)?;
    let rows = rows_len(heap, &found, steps);
    Ok(names_len(names, group).saturating_add(rows))
}
