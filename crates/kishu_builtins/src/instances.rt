// `isinstance`.
ghost use Rattle.std.specs.Prelude.{◌≡◌, ◌+◌, ◌<◌, ◌≤◌, Some, IsTrue, is_some, length, map, option_map};
ghost use Rattle.std.specs.List.{list_all, list_any};
ghost use Rattle.kishu_meaning.specs.declared.budget.Budget.{Budget};
ghost use Rattle.kishu_meaning.specs.calls.Builtins.{is_instance, is_of, is_of_class, is_of_one, node_is_of, class_in};
ghost use Rattle.kishu_meaning.specs.moments.Moment.{node_at};
ghost use Rattle.kishu_meaning.specs.values.Sound.{is_sound};
ghost use Rattle.kishu_meaning.specs.values.Values as model;
ghost use Rattle.kishu_meaning.specs.values.Values.{value_of, node};
ghost use Rattle.kishu_heap.specs.Cells.{node_of};
ghost use Rattle.kishu_heap.specs.Costs.{Reads};
ghost use Rattle.kishu_builtins.specs.Called.{moment_of, Gives};

use kishu_heap::{CallFault, Heap, Node};
use kishu_items::{bad_arguments, is_within};
use kishu_meaning::{ClassId, NodeId, Steps, Value};
use std::alloc::Global;
use std::sync::ledger::Ledger;

fn node_is_of(node: &Node, class: ClassId) -> bool
    ensures { result ≡ node_is_of class.0 (Some (node_of node.now)) }
{
    match node {
        Node::Dict(_) => class == ClassId::DICT,
        Node::List(_) => class == ClassId::LIST,
        Node::Object(_) => class == ClassId::SIMPLE_NAMESPACE,
        Node::Tuple(_) => class == ClassId::TUPLE,
        Node::Exception(kind, _) => is_within(*kind, class),
        Node::Function(_) => false,
    }
}

// The node that a value is.
fn node_in<'a, L: Ledger>(value: &Value, heap: &'a Heap, steps: &mut Steps<L>) -> Option<&'a Node>
    requires sound { IsTrue (is_sound (length heap.now) (value_of value.now)) }
    ensures node { option_map (λ n. node_of n.now) result ≡ node_at heap.now (value_of value.now) }
    ensures reads { Reads 1 steps.old steps.new }
{
    match value {
        Value::Node(id) => Some(heap.node(*id, steps)),
        Value::None => None,
        Value::Bool(_) => None,
        Value::Int(_) => None,
        Value::Text(_) => None,
        Value::Range(..) => None,
        Value::Builtin(_) => None,
        Value::Class(_) => None,
    }
}

fn found_is_of(found: Option<&Node>, class: ClassId) -> bool
    ensures { result ≡ node_is_of class.0 (option_map (λ n. node_of n.now) found.entry) }
{
    match found {
        Some(node) => node_is_of(node, class),
        None => false,
    }
}

// Whether a value, or the node that it is, is of a class.
fn is_of(value: &Value, found: Option<&Node>, class: ClassId) -> bool
    ensures { result ≡ is_of (value_of value.now) (option_map (λ n. node_of n.now) found.entry) class.0 }
{
    match value {
        Value::Bool(_) => class == ClassId::BOOL || class == ClassId::INT,
        Value::Int(_) => class == ClassId::INT,
        Value::Range(..) => class == ClassId::RANGE,
        Value::Text(_) => class == ClassId::STR,
        Value::Node(_) => found_is_of(found, class),
        Value::None => false,
        Value::Builtin(_) => false,
        Value::Class(_) => false,
    }
}

fn is_class(value: &Value) -> bool
    ensures { result ≡ is_some (class_in (value_of value.now)) }
{
    match value {
        Value::Class(_) => true,
        Value::None => false,
        Value::Bool(_) => false,
        Value::Int(_) => false,
        Value::Text(_) => false,
        Value::Range(..) => false,
        Value::Builtin(_) => false,
        Value::Node(_) => false,
    }
}

fn are_classes(values: &[Value]) -> bool
    ensures { result ≡ list_all (λ c. is_some (class_in (value_of c))) values.now }
{
    values.iter().all(|value| is_class(value))
}

// Whether a value is of a class that another value is.
fn is_of_class(value: &Value, found: Option<&Node>, class: &Value) -> bool
    ensures { result ≡ is_of_class (value_of value.now) (option_map (λ n. node_of n.now) found.entry) (value_of class.now) }
{
    match class {
        Value::Class(class) => is_of(value, found, *class),
        Value::None => false,
        Value::Bool(_) => false,
        Value::Int(_) => false,
        Value::Text(_) => false,
        Value::Range(..) => false,
        Value::Builtin(_) => false,
        Value::Node(_) => false,
    }
}

// Whether a value is of any of these classes.
fn is_of_any(value: &Value, found: Option<&Node>, classes: &[Value]) -> bool
    ensures { result ≡ list_any (λ c. is_of_class (value_of value.now) (option_map (λ n. node_of n.now) found.entry) (value_of c)) classes.now }
{
    for class in classes {
        if is_of_class(value, found, class) {
            return true;
        }
    }
    false
}

// All must be classes.
fn is_of_one<L: Ledger>(
    alloc: Global,
    value: &Value,
    classes: &[Value],
    heap: &Heap,
    steps: &mut Steps<L>,
) -> Result<Value, CallFault>
    requires sound { IsTrue (is_sound (length heap.now) (value_of value.now)) }
    ensures gives { (b : Budget) → Gives value_of result (moment_of heap.now b) (is_of_one (value_of value.now) (map value_of classes.now) (moment_of heap.now b)) }
    ensures reads { Reads 1 steps.old steps.new }
{
    if are_classes(classes) {
        let found = node_in(value, heap, steps);
        Ok(Value::Bool(is_of_any(value, found, classes)))
    } else {
        bad_arguments(alloc, "isinstance")
    }
}

// A tuple of classes.
fn is_of_tuple<L: Ledger>(
    alloc: Global,
    value: &Value,
    id: NodeId,
    heap: &Heap,
    steps: &mut Steps<L>,
) -> Result<Value, CallFault>
    requires sound { IsTrue (is_sound (length heap.now) (value_of value.now)) }
    requires id { id.0 < length heap.now }
    ensures gives { (b : Budget) → Gives value_of result (moment_of heap.now b) (is_instance (value_of value.now) (node id.0) (moment_of heap.now b)) }
    ensures reads { Reads 2 steps.old steps.new }
{
    match heap.node(id, steps) {
        Node::Tuple(classes) => is_of_one(alloc, value, classes.as_slice(), heap, steps),
        Node::List(_) => bad_arguments(alloc, "isinstance"),
        Node::Dict(_) => bad_arguments(alloc, "isinstance"),
        Node::Object(_) => bad_arguments(alloc, "isinstance"),
        Node::Function(_) => bad_arguments(alloc, "isinstance"),
        Node::Exception(..) => bad_arguments(alloc, "isinstance"),
    }
}

fn is_of_single<L: Ledger>(
    value: &Value,
    class: ClassId,
    heap: &Heap,
    steps: &mut Steps<L>,
) -> Result<Value, CallFault>
    requires sound { IsTrue (is_sound (length heap.now) (value_of value.now)) }
    ensures gives { (b : Budget) → Gives value_of result (moment_of heap.now b) (is_instance (value_of value.now) (model.class class.0) (moment_of heap.now b)) }
    ensures reads { Reads 1 steps.old steps.new }
{
    let found = node_in(value, heap, steps);
    Ok(Value::Bool(is_of(value, found, class)))
}

/// Whether a value is of a class, or of one of a tuple of classes.
pub(crate) fn is_instance<L: Ledger>(
    alloc: Global,
    value: &Value,
    class: &Value,
    heap: &Heap,
    steps: &mut Steps<L>,
) -> Result<Value, CallFault>
    requires sound { IsTrue (is_sound (length heap.now) (value_of value.now)) }
    requires class { IsTrue (is_sound (length heap.now) (value_of class.now)) }
    ensures gives { (b : Budget) → Gives value_of result (moment_of heap.now b) (is_instance (value_of value.now) (value_of class.now) (moment_of heap.now b)) }
    ensures reads { Reads 2 steps.old steps.new }
{
    match class {
        Value::Class(class) => is_of_single(value, *class, heap, steps),
        Value::Node(id) => is_of_tuple(alloc, value, *id, heap, steps),
        Value::None => bad_arguments(alloc, "isinstance"),
        Value::Bool(_) => bad_arguments(alloc, "isinstance"),
        Value::Int(_) => bad_arguments(alloc, "isinstance"),
        Value::Text(_) => bad_arguments(alloc, "isinstance"),
        Value::Range(..) => bad_arguments(alloc, "isinstance"),
        Value::Builtin(_) => bad_arguments(alloc, "isinstance"),
    }
}
