// The order of first meeting.
ghost use Rattle.std.specs.Prelude.{◌≡◌, [], IsTrue, IfOk, OnOk, length, map};
ghost use Rattle.kishu_meaning.specs.values.Values.{value_of};
ghost use Rattle.kishu_meaning.specs.values.Sound.{are_sound_names};
ghost use Rattle.kishu_heap.specs.Cells.{node_of, entries_of, attributes_of};
ghost use Rattle.kishu_heap.specs.Costs.{Reads};
ghost use Rattle.kishu_names.specs.Record.{texts_of};
ghost use Rattle.kishu_objects.specs.Shape.{children};
ghost use Rattle.kishu_objects.specs.Picture.{number, numbers, roots};
ghost use Rattle.kishu_objects_laws.specs.WalkLaws.{noted_all};
ghost use Rattle.kishu_picture.specs.Held.{held, order_of};
ghost use Rattle.kishu_picture.specs.Rows.{IsMet, values_in};

use indexmap::{IndexMap, IndexSet};
use kishu_hash::NearHash;
use kishu_heap::{Heap, Node};
use kishu_meaning::{Key, NodeId, Steps, Value};
use kishu_names::Names;
use std::alloc::{AllocError, Global};
use std::rc::RcStr;
use std::sync::ledger::Ledger;

/// Notes the node that a value is, where it is one.
fn note(found: &mut IndexSet<u32, NearHash>, value: &Value) -> Result<(), AllocError>
    ensures { OnOk result (found.new.keys ≡ noted_all found.old.keys (number (value_of value.now))) }
{
    match value {
        Value::Node(id) => {
            found.insert(id.0)?;
            Ok(())
        }
        Value::None
        | Value::Bool(_)
        | Value::Int(_)
        | Value::Text(_)
        | Value::Range(..)
        | Value::Builtin(_)
        | Value::Class(_) => Ok(()),
    }
}

fn note_values(found: &mut IndexSet<u32, NearHash>, values: &[Value]) -> Result<(), AllocError>
    ensures { OnOk result (found.new.keys ≡ noted_all found.old.keys (numbers (map value_of values.now))) }
{
    for value in values {
        note(found, value)?;
    }
    Ok(())
}

fn note_entries(
    found: &mut IndexSet<u32, NearHash>,
    entries: &IndexMap<Key, Value>,
) -> Result<(), AllocError>
    ensures { OnOk result
        (found.new.keys ≡ noted_all found.old.keys (numbers (values_in (entries_of entries.now.entries)))) }
{
    for i in 0..entries.len() {
        let Some((_, value)) = entries.get_index(i) else {
            unreachable!()
        };
        note(found, value)?;
    }
    Ok(())
}

fn note_attributes(
    found: &mut IndexSet<u32, NearHash>,
    attributes: &IndexMap<RcStr, Value>,
) -> Result<(), AllocError>
    ensures { OnOk result
        (found.new.keys
        ≡ noted_all found.old.keys (numbers (values_in (attributes_of attributes.now.entries)))) }
{
    for i in 0..attributes.len() {
        let Some((_, value)) = attributes.get_index(i) else {
            unreachable!()
        };
        note(found, value)?;
    }
    Ok(())
}

/// Notes the nodes to which a node leads.
fn note_children(found: &mut IndexSet<u32, NearHash>, node: &Node) -> Result<(), AllocError>
    ensures { OnOk result
        (found.new.keys ≡ noted_all found.old.keys (numbers (children (node_of node.now)))) }
{
    match node {
        Node::List(items) => note_values(found, items.as_slice()),
        Node::Tuple(items) => note_values(found, items.as_slice()),
        Node::Dict(entries) => note_entries(found, entries),
        Node::Object(attributes) => note_attributes(found, attributes),
        Node::Function(function) => note_values(found, function.defaults.as_slice()),
        Node::Exception(_, arguments) => note_values(found, arguments.as_slice()),
    }
}

/// Notes the nodes that the values of names are.
fn note_names(
    found: &mut IndexSet<u32, NearHash>,
    names: &Names,
    group: &[RcStr],
) -> Result<(), AllocError>
    ensures { OnOk result
        (found.new.keys ≡ noted_all found.old.keys (roots (held [] names.now) (texts_of group.now))) }
{
    for name in group {
        if let Some(value) = names.peek(name.as_str()) {
            note(found, value)?;
        }
    }
    Ok(())
}

/// The nodes that names reach, in the order of first meeting. Each takes one step of the counter.
pub(crate) fn met<L: Ledger>(
    alloc: Global,
    heap: &Heap,
    names: &Names,
    group: &[RcStr],
    steps: &mut Steps<L>,
) -> Result<IndexSet<u32, NearHash>, AllocError>
    requires sound { IsTrue (are_sound_names (length heap.now) names.now.bound) }
    ensures order { IfOk result (λ found. IsMet heap.now names.now group.now found.keys) }
    ensures reads { Reads (length (order_of heap.now names.now group.now)) steps.old steps.new }
{
    let mut found = IndexSet::with_hasher(alloc, NearHash::new());
    note_names(&mut found, names, group)?;
    for i in 0..heap.len() {
        let Some(id) = found.get_index(i as usize) else {
            return Ok(found);
        };
        let node = heap.node(NodeId(*id), steps);
        note_children(&mut found, node)?;
    }
    Ok(found)
}

/// The nodes that names reach, in the order of first meeting: first those that the values of the
/// names are, and then, node after node, those to which each leads. Each takes one step of the
/// counter, and no other is looked at. An error says that no memory is left.
pub fn order<L: Ledger>(
    alloc: Global,
    heap: &Heap,
    names: &Names,
    group: &[RcStr],
    steps: &mut Steps<L>,
) -> Result<Vec<NodeId>, AllocError>
    requires sound { IsTrue (are_sound_names (length heap.now) names.now.bound) }
    ensures order { IfOk result (λ v. map (λ id. id.0) v.items ≡ order_of heap.now names.now group.now) }
    ensures reads { Reads (length (order_of heap.now names.now group.now)) steps.old steps.new }
{
    let found = met(alloc, heap, names, group, steps)?;
    numbered(alloc, &found)
}

fn numbered(alloc: Global, found: &IndexSet<u32, NearHash>) -> Result<Vec<NodeId>, AllocError>
    ensures { IfOk result (λ v. map (λ id. id.0) v.items ≡ found.now.keys) }
{
    let mut ids = Vec::new(alloc);
    for i in 0..found.len() {
        let Some(id) = found.get_index(i) else {
            unreachable!()
        };
        ids.push(NodeId(*id))?;
    }
    Ok(ids)
}
