// Calls of methods.
ghost use Rattle.std.specs.Prelude.{◌≡◌, ◌+◌, ◌-◌, ◌*◌, ◌<◌, ◌≤◌, ◌^◌, IsTrue, is_some, map, length};
ghost use Rattle.std.specs.Str.{chars};
ghost use Rattle.kishu_meaning.specs.values.Values as model;
ghost use Rattle.kishu_meaning.specs.values.Values.{value_of, node};
ghost use Rattle.kishu_meaning.specs.calls.Methods.{has_method, node_methods, method_named, text_methods, call_method};
ghost use Rattle.kishu_meaning.specs.values.Sound.{is_sound, are_sound};
ghost use Rattle.kishu_heap.specs.Cells.{node_of};
ghost use Rattle.kishu_heap.specs.Costs.{GrowsPaid, Reads, Spends};
ghost use Rattle.kishu_methods.specs.Called.{moment_of, Gives};

use crate::dicts::dict_method;
use crate::lists::list_method;
use crate::method::{DictMethod, ListMethod, TextMethod, TupleMethod};
use crate::texts::text_method;
use crate::tuples::tuple_method;
use kishu_heap::{CallFault, Heap, Node};
use kishu_meaning::{Budget, NodeId, Steps, Value};
use std::alloc::Global;
use std::sync::ledger::Ledger;

fn node_has_method(node: &Node, name: &str) -> bool
    ensures { result ≡ is_some (method_named name.now (node_methods (node_of node.now))) }
{
    match node {
        Node::List(_) => ListMethod::named(name).is_some(),
        Node::Tuple(_) => TupleMethod::named(name).is_some(),
        Node::Dict(_) => DictMethod::named(name).is_some(),
        Node::Object(_) | Node::Function(_) | Node::Exception(..) => false,
    }
}

fn text_has_method(name: &str) -> bool
    ensures { result ≡ is_some (method_named name.now text_methods) }
{
    TextMethod::named(name).is_some()
}

/// Whether a value has a method of this name.
pub fn has_method<L: Ledger>(
    receiver: &Value,
    name: &str,
    heap: &Heap,
    steps: &mut Steps<L>,
) -> bool
    requires sound { IsTrue (is_sound (length heap.now) (value_of receiver.now)) }
    ensures has { result ≡ has_method heap.now (value_of receiver.now) name.now }
    ensures reads { Reads 1 steps.old steps.new }
{
    match receiver {
        Value::Text(_) => text_has_method(name),
        Value::Node(id) => node_has_method(heap.node(*id, steps), name),
        Value::None
        | Value::Bool(_)
        | Value::Int(_)
        | Value::Range(..)
        | Value::Builtin(_)
        | Value::Class(_) => false,
    }
}

// A method of a text, which there is.
fn call_on_text<L: Ledger>(
    alloc: Global,
    text: &str,
    name: &str,
    args: &[Value],
    heap: &mut Heap,
    budget: &mut Budget,
    steps: &mut Steps<L>,
) -> Result<Value, CallFault>
    requires sound { IsTrue (are_sound (length heap.old) (map value_of args.now)) }
    requires room { length heap.old + budget.old.left < 2 ^ 32 - 16 }
    requires has { IsTrue (has_method heap.old (model.text (chars text.now)) name.now) }
    ensures gives { Gives value_of result (moment_of heap.new budget.new) (call_method (model.text (chars text.now)) name.now (map value_of args.now) (moment_of heap.old budget.old)) }
    ensures grows { GrowsPaid 1 heap.old budget.old heap.new budget.new }
    ensures spends { Spends 2 budget.old steps.old budget.new steps.new }
{
    let Some(method) = TextMethod::named(name) else {
        unreachable!()
    };
    text_method(alloc, method, text, args, heap, budget, steps)
}

// A method of a list, a tuple or a dict, which there is.
fn call_on_node<L: Ledger>(
    alloc: Global,
    id: NodeId,
    name: &str,
    args: &[Value],
    heap: &mut Heap,
    budget: &mut Budget,
    steps: &mut Steps<L>,
) -> Result<Value, CallFault>
    requires id { id.0 < length heap.old }
    requires sound { IsTrue (are_sound (length heap.old) (map value_of args.now)) }
    requires room { length heap.old + budget.old.left < 2 ^ 32 - 16 }
    requires has { IsTrue (has_method heap.old (node id.0) name.now) }
    ensures gives { Gives value_of result (moment_of heap.new budget.new) (call_method (node id.0) name.now (map value_of args.now) (moment_of heap.old budget.old)) }
    ensures grows { GrowsPaid 1 heap.old budget.old heap.new budget.new }
    ensures spends { Spends 4 budget.old steps.old budget.new steps.new }
{
    match heap.node(id, steps) {
        Node::List(_) => match ListMethod::named(name) {
            Some(method) => list_method(alloc, method, id, args, heap, budget, steps),
            None => unreachable!(),
        },
        Node::Tuple(items) => match TupleMethod::named(name) {
            Some(method) => {
                tuple_method(alloc, method, items.as_slice(), args, heap, budget, steps)
            }
            None => unreachable!(),
        },
        Node::Dict(_) => match DictMethod::named(name) {
            Some(method) => dict_method(alloc, method, id, args, heap, budget, steps),
            None => unreachable!(),
        },
        Node::Object(_) | Node::Function(_) | Node::Exception(..) => unreachable!(),
    }
}

/// What a method of a value gives (Library Reference, "Built-in Types"); the value must have a
/// method of this name. `Raise` and `RaiseWith` are the exception's class and its text or value,
/// `Spent` says that the budget's steps are taken. After these three the nodes that were there are
/// as before; `NoMemory` says nothing of them.
pub fn call_method<L: Ledger>(
    alloc: Global,
    receiver: &Value,
    name: &str,
    args: &[Value],
    heap: &mut Heap,
    budget: &mut Budget,
    steps: &mut Steps<L>,
) -> Result<Value, CallFault>
    requires sound { IsTrue (is_sound (length heap.old) (value_of receiver.now)) }
    requires sound_args { IsTrue (are_sound (length heap.old) (map value_of args.now)) }
    requires room { length heap.old + budget.old.left < 2 ^ 32 - 16 }
    requires has { IsTrue (has_method heap.old (value_of receiver.now) name.now) }
    ensures gives { Gives value_of result (moment_of heap.new budget.new) (call_method (value_of receiver.now) name.now (map value_of args.now) (moment_of heap.old budget.old)) }
    ensures grows { GrowsPaid 1 heap.old budget.old heap.new budget.new }
    ensures spends { Spends 4 budget.old steps.old budget.new steps.new }
{
    match receiver {
        Value::Text(text) => call_on_text(alloc, text.as_str(), name, args, heap, budget, steps),
        Value::Node(id) => call_on_node(alloc, *id, name, args, heap, budget, steps),
        Value::None
        | Value::Bool(_)
        | Value::Int(_)
        | Value::Range(..)
        | Value::Builtin(_)
        | Value::Class(_) => unreachable!(),
    }
}
