// The truth of values.
ghost use Rattle.std.specs.Prelude.{◌≡◌, ◌+◌, ◌≤◌, IsTrue, length, slice_get};
ghost use Rattle.std.specs.Str.{chars};
ghost use Rattle.kishu_meaning.specs.declared.budget.Budget.{Budget};
ghost use Rattle.kishu_meaning.specs.moments.Moment.{Moment, fine};
ghost use Rattle.kishu_meaning.specs.calls.Operators.{truth, is_full, is_full_at};
ghost use Rattle.kishu_meaning.specs.values.Sound.{is_sound};
ghost use Rattle.kishu_meaning.specs.values.Values as model;
ghost use Rattle.kishu_meaning.specs.values.Values.{value_of};
ghost use Rattle.kishu_heap.specs.Cells.{node_of};
ghost use Rattle.kishu_heap.specs.Costs.{Reads};
ghost use Rattle.kishu_items.specs.Called.{moment_of};

use kishu_heap::{Heap, Node, range_length};
use kishu_meaning::{Steps, Value};
use std::sync::ledger::Ledger;

fn is_full(node: &Node) -> bool
    ensures { result ≡ is_full (node_of node.now) }
{
    match node {
        Node::List(items) => !items.is_empty(),
        Node::Tuple(items) => !items.is_empty(),
        Node::Dict(entries) => !entries.is_empty(),
        Node::Object(_) => true,
        Node::Function(_) => true,
        Node::Exception(..) => true,
    }
}

fn is_written(text: &str) -> bool
    ensures { (s : Moment) → truth (model.text (chars text.now)) s ≡ fine result s }
{
    !text.is_empty()
}

/// Whether a value is true (Library Reference, "Truth Value Testing").
pub fn is_true<L: Ledger>(value: &Value, heap: &Heap, steps: &mut Steps<L>) -> bool
    requires sound { IsTrue (is_sound (length heap.now) (value_of value.now)) }
    ensures is { (b : Budget) → truth (value_of value.now) (moment_of heap.now b) ≡ fine result (moment_of heap.now b) }
    ensures reads { Reads 1 steps.old steps.new }
{
    match value {
        Value::None => false,
        Value::Bool(holds) => *holds,
        Value::Int(number) => *number != 0,
        Value::Text(text) => is_written(text.as_str()),
        Value::Range(start, stop, step) => range_length(*start, *stop, *step) != 0,
        Value::Builtin(_) => true,
        Value::Class(_) => true,
        Value::Node(id) => is_full(heap.node(*id, steps)),
    }
}
