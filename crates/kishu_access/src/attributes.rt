// Attributes: read, stored and deleted (Python Language Reference 3, "Attribute references").
ghost use Rattle.std.specs.Prelude.{IfOk, IfSome, IsTrue, None, is_some, length, map, option_and_then, option_map, ◌<◌, ◌≡◌};
ghost use Rattle.std.specs.Rc.{rc_str_bytes};
ghost use Rattle.std.specs.Str.{bytes_eq};
ghost use Rattle.kishu_meaning.specs.moments.Moment.{node_at, node_now, ◌>>=◌ as ◌⊳◌};
ghost use Rattle.kishu_language.specs.tokens.Names.{is_name};
ghost use Rattle.kishu_meaning.specs.values.Nodes.{value_at};
ghost use Rattle.kishu_meaning.specs.items.Subscripts.{attribute, delete_attribute, delete_on_node, store_attribute, store_on_node};
ghost use Rattle.kishu_meaning.specs.values.Values.{node, value_of};
ghost use Rattle.kishu_access.specs.Forms.{arguments_at, arguments_in, is_object};
ghost use Rattle.kishu_heap.specs.Cells.{attributes_of, node_of};
ghost use Rattle.kishu_machine.specs.Lists.{items_in};
ghost use Rattle.kishu_machine.specs.Machine.{Gives, HasRoomBy, moment_of, Costs};
ghost use Rattle.kishu_machine.specs.Clauses.{AreSoundIn, IsSoundIn, SoundEnd, SoundValue};
ghost use Rattle.kishu_heap.specs.Costs.{Reads};
ghost use Rattle.kishu_meaning.specs.values.Nodes as nodes;

use indexmap::IndexMap;
use kishu_heap::{Heap, Node};
use kishu_machine::{Fault, Machine, is_same_text, new_tuple, no_attribute, node_at};
use kishu_meaning::{NodeId, Steps, Value};
use std::alloc::{AllocError, Global};
use std::rc::RcStr;
use std::sync::ledger::Ledger;

fn found<'a>(attributes: &'a IndexMap<RcStr, Value>, name: &str) -> Option<&'a Value>
    ensures { option_map (λ v. value_of v.now) result ≡ value_at bytes_eq name.now (attributes_of attributes.now.entries) }
{
    attributes.get(name)
}

fn attribute_at(
    attributes: &IndexMap<RcStr, Value>,
    name: &str,
) -> Result<Option<Value>, AllocError>
    ensures { IfOk result (λ o. option_map value_of o ≡ value_at bytes_eq name.now (attributes_of attributes.now.entries)) }
{
    match found(attributes, name) {
        Some(value) => Ok(Some(value.copied()?)),
        None => Ok(None),
    }
}

// The attribute of an object, where the value is one that has it.
fn object_attribute<L: Ledger>(
    heap: &Heap,
    value: &Value,
    name: &str,
    steps: &mut Steps<L>,
) -> Result<Option<Value>, AllocError>
    ensures found { IfOk result (λ o. option_map value_of o ≡ option_and_then (nodes.attribute name.now) (node_at heap.now (value_of value.now))) }
    ensures sound { IfOk result (λ o. IfSome o (λ v. IsSoundIn heap.now v)) }
    ensures reads { Reads 1 steps.old steps.new }
{
    let Some(node) = node_at(heap, value, steps) else {
        return Ok(None);
    };
    match node.object() {
        Some(attributes) => attribute_at(attributes, name),
        None => Ok(None),
    }
}

// The arguments of an exception.
fn arguments_in(node: &Node) -> Option<&[Value]>
    ensures { option_map (λ s. map value_of s.now) result ≡ arguments_in (node_of node.now) }
{
    match node {
        Node::Exception(_, arguments) => Some(arguments.as_slice()),
        Node::List(_) | Node::Tuple(_) | Node::Dict(_) | Node::Object(_) | Node::Function(_) =>
            None,
    }
}

// The arguments of an exception, where the value is one, and the name is theirs.
fn exception_arguments<L: Ledger>(
    alloc: Global,
    heap: &Heap,
    value: &Value,
    name: &str,
    steps: &mut Steps<L>,
) -> Result<Option<Vec<Value>>, AllocError>
    ensures found { IfOk result (λ o. items_in o ≡ arguments_at name.now (node_at heap.now (value_of value.now))) }
    ensures sound { IfOk result (λ o. IfSome o (λ v. AreSoundIn heap.now v.items)) }
    ensures reads { Reads 1 steps.old steps.new }
{
    if !is_same_text(name, "args") {
        return Ok(None);
    }
    let Some(node) = node_at(heap, value, steps) else {
        return Ok(None);
    };
    match arguments_in(node) {
        Some(arguments) => Ok(Some(kishu_items::copied_all(alloc, arguments)?)),
        None => Ok(None),
    }
}

// The arguments of an exception as its attribute, where the value is no object with that name.
fn other_attribute<L: Ledger>(
    machine: &mut Machine,
    value: &Value,
    name: &str,
    steps: &mut Steps<L>,
) -> Result<Value, Fault>
    requires room { HasRoomBy 1 machine.old }
    requires sound_value { IsSoundIn machine.old.heap value.now }
    requires none { None ≡ option_and_then (nodes.attribute name.now) (node_at machine.old.heap (value_of value.now)) }
    ensures gives { Gives value_of result (moment_of machine.new) (attribute (value_of value.now) name.now (moment_of machine.old)) }
    ensures sound { SoundValue machine.new.heap result }
    ensures costs { Costs 1 3 machine.old steps.old machine.new steps.new }
{
    let items = exception_arguments(machine.alloc, &machine.heap, value, name, steps)?;
    match items {
        Some(items) => new_tuple(machine, items),
        None => no_attribute(machine, value, name, steps),
    }
}

/// `value.name`.
pub fn attribute<L: Ledger>(
    machine: &mut Machine,
    value: &Value,
    name: &str,
    steps: &mut Steps<L>,
) -> Result<Value, Fault>
    requires room { HasRoomBy 1 machine.old }
    requires sound_value { IsSoundIn machine.old.heap value.now }
    ensures gives { Gives value_of result (moment_of machine.new) (attribute (value_of value.now) name.now (moment_of machine.old)) }
    ensures sound { SoundValue machine.new.heap result }
    ensures costs { Costs 1 8 machine.old steps.old machine.new steps.new }
{
    let found = object_attribute(&machine.heap, value, name, steps)?;
    match found {
        Some(found) => Ok(found),
        None => other_attribute(machine, value, name, steps),
    }
}

/// Whether a value is an object.
pub fn is_object<L: Ledger>(heap: &Heap, value: &Value, steps: &mut Steps<L>) -> bool
    ensures is { result ≡ is_object (node_at heap.now (value_of value.now)) }
    ensures reads { Reads 2 steps.old steps.new }
{
    match node_at(heap, value, steps) {
        Some(Node::Object(_)) => true,
        Some(Node::List(_)) => false,
        Some(Node::Tuple(_)) => false,
        Some(Node::Dict(_)) => false,
        Some(Node::Function(_)) => false,
        Some(Node::Exception(..)) => false,
        None => false,
    }
}

fn store_on_node<L: Ledger>(
    machine: &mut Machine,
    id: NodeId,
    name: &RcStr,
    value: Value,
    steps: &mut Steps<L>,
) -> Result<(), Fault>
    requires id { id.0 < length machine.old.heap }
    requires name { IsTrue (is_name (rc_str_bytes name.now)) }
    requires sound_value { IsSoundIn machine.old.heap value }
    ensures gives { Gives (λ u. u) result (moment_of machine.new) ((node_now (node id.0) ⊳ store_on_node id.0 (rc_str_bytes name.now) (value_of value)) (moment_of machine.old)) }
    ensures sound { SoundEnd machine.new.heap result }
    ensures costs { Costs 0 4 machine.old steps.old machine.new steps.new }
{
    let object = Value::Node(id);
    if is_object(&machine.heap, &object, steps) {
        machine.heap.set_attr(id, name.clone()?, value)?;
        return Ok(());
    }
    no_attribute(machine, &object, name.as_str(), steps)
}

/// `object.name = value`.
pub(crate) fn store_attribute<L: Ledger>(
    machine: &mut Machine,
    object: &Value,
    name: &RcStr,
    value: Value,
    steps: &mut Steps<L>,
) -> Result<(), Fault>
    requires sound_object { IsSoundIn machine.old.heap object.now }
    requires name { IsTrue (is_name (rc_str_bytes name.now)) }
    requires sound_value { IsSoundIn machine.old.heap value }
    ensures gives { Gives (λ u. u) result (moment_of machine.new) (store_attribute (value_of object.now) (rc_str_bytes name.now) (value_of value) (moment_of machine.old)) }
    ensures sound { SoundEnd machine.new.heap result }
    ensures costs { Costs 0 4 machine.old steps.old machine.new steps.new }
{
    if let Value::Node(id) = object {
        return store_on_node(machine, *id, name, value, steps);
    }
    no_attribute(machine, object, name.as_str(), steps)
}

fn has_attribute<L: Ledger>(heap: &Heap, value: &Value, name: &str, steps: &mut Steps<L>) -> bool
    ensures is { result ≡ is_some (option_and_then (nodes.attribute name.now) (node_at heap.now (value_of value.now))) }
    ensures reads { Reads 1 steps.old steps.new }
{
    let Some(node) = node_at(heap, value, steps) else {
        return false;
    };
    match node.object() {
        Some(attributes) => found(attributes, name).is_some(),
        None => false,
    }
}

fn delete_on_node<L: Ledger>(
    machine: &mut Machine,
    id: NodeId,
    name: &str,
    steps: &mut Steps<L>,
) -> Result<(), Fault>
    requires id { id.0 < length machine.old.heap }
    ensures gives { Gives (λ u. u) result (moment_of machine.new) ((node_now (node id.0) ⊳ delete_on_node id.0 name.now) (moment_of machine.old)) }
    ensures sound { SoundEnd machine.new.heap result }
    ensures costs { Costs 0 3 machine.old steps.old machine.new steps.new }
{
    let object = Value::Node(id);
    if has_attribute(&machine.heap, &object, name, steps) {
        let _gone = machine.heap.remove_attr(id, name);
        return Ok(());
    }
    no_attribute(machine, &object, name, steps)
}

/// `del object.name`.
pub(crate) fn delete_attribute<L: Ledger>(
    machine: &mut Machine,
    object: &Value,
    name: &str,
    steps: &mut Steps<L>,
) -> Result<(), Fault>
    requires sound_object { IsSoundIn machine.old.heap object.now }
    ensures gives { Gives (λ u. u) result (moment_of machine.new) (delete_attribute (value_of object.now) name.now (moment_of machine.old)) }
    ensures sound { SoundEnd machine.new.heap result }
    ensures costs { Costs 0 3 machine.old steps.old machine.new steps.new }
{
    if let Value::Node(id) = object {
        return delete_on_node(machine, *id, name, steps);
    }
    no_attribute(machine, object, name, steps)
}
