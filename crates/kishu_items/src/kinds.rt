// What messages call the kinds of values.
ghost use Rattle.std.specs.Prelude.{◌≡◌, ◌+◌, ◌≤◌, IsTrue, length};
ghost use Rattle.std.specs.Str.{chars};
ghost use Rattle.kishu_meaning.specs.values.Kinds.{node_kind, kind_in};
ghost use Rattle.kishu_meaning.specs.values.Sound.{is_sound};
ghost use Rattle.kishu_meaning.specs.values.Values.{value_of};
ghost use Rattle.kishu_heap.specs.Cells.{node_of};
ghost use Rattle.kishu_heap.specs.Costs.{Reads};

use kishu_heap::{Heap, Node};
use kishu_meaning::{Steps, Value, class_name};
use std::sync::ledger::Ledger;

fn node_kind(node: &Node) -> &'static str
    ensures { chars result.now ≡ node_kind (node_of node.now) }
{
    match node {
        Node::List(_) => "list",
        Node::Tuple(_) => "tuple",
        Node::Dict(_) => "dict",
        Node::Object(_) => "SimpleNamespace",
        Node::Function(_) => "function",
        Node::Exception(class, _) => class_name(*class),
    }
}

/// What messages call a value's kind.
pub fn kind_name<L: Ledger>(value: &Value, heap: &Heap, steps: &mut Steps<L>) -> &'static str
    requires sound { IsTrue (is_sound (length heap.now) (value_of value.now)) }
    ensures kind { chars result.now ≡ kind_in heap.now (value_of value.now) }
    ensures reads { Reads 1 steps.old steps.new }
{
    match value {
        Value::None => "NoneType",
        Value::Bool(_) => "bool",
        Value::Int(_) => "int",
        Value::Text(_) => "str",
        Value::Range(..) => "range",
        Value::Builtin(_) => "builtin",
        Value::Class(_) => "class",
        Value::Node(id) => node_kind(heap.node(*id, steps)),
    }
}
