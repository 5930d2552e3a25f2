// Nodes, read and made.
ghost use Rattle.std.specs.Prelude.{IfOk, IfSome, IsTrue, length, map, option_map, ◌+◌, ◌<◌, ◌^◌, ◌≡◌};
ghost use Rattle.kishu_meaning.specs.moments.Moment.{fine, make, node_at};
ghost use Rattle.kishu_meaning.specs.calls.Operators.{list_from, new_list, new_tuple, truth, tuple_from};
ghost use Rattle.kishu_meaning.specs.values.Sound.{is_sound_node};
ghost use Rattle.kishu_meaning.specs.values.Values.{value_of};
ghost use Rattle.kishu_heap.specs.Cells.{node_of};
ghost use Rattle.kishu_machine.specs.Machine.{Gives, moment_of};
ghost use Rattle.kishu_machine.specs.Clauses.{AreSoundIn, IsSoundIn, SoundEnd, SoundValue};
ghost use Rattle.kishu_heap.specs.Costs.{Reads, Grows};
ghost use Rattle.kishu_meaning.specs.values.Values as model;

use crate::fault::Fault;
use crate::machine::Machine;
use kishu_heap::{Heap, Node};
use kishu_meaning::{NodeId, Steps, Value};
use std::sync::ledger::Ledger;

/// The node of a value that has one. It takes at most one step of the counter.
pub fn node_at<'a, L: Ledger>(
    heap: &'a Heap,
    value: &Value,
    steps: &mut Steps<L>,
) -> Option<&'a Node>
    ensures node { option_map (λ n. node_of n.now) result ≡ node_at heap.now (value_of value.now) }
    ensures sound { IfSome result (λ n. IsTrue (is_sound_node (length heap.now) (node_of n.now))) }
    ensures reads { Reads 1 steps.old steps.new }
{
    if let Value::Node(id) = value {
        if id.0 < heap.len() {
            return Some(heap.node(*id, steps));
        }
    }
    None
}

/// The items of a list.
pub fn list_at<'a, L: Ledger>(
    heap: &'a Heap,
    value: &Value,
    steps: &mut Steps<L>,
) -> Option<&'a [Value]>
    ensures items { option_map (λ s. map value_of s.now) result ≡ list_from (node_at heap.now (value_of value.now)) }
    ensures sound { IfSome result (λ s. AreSoundIn heap.now s.now) }
    ensures reads { Reads 1 steps.old steps.new }
{
    node_at(heap, value, steps)?.list()
}

/// The items of a tuple.
pub fn tuple_at<'a, L: Ledger>(
    heap: &'a Heap,
    value: &Value,
    steps: &mut Steps<L>,
) -> Option<&'a [Value]>
    ensures items { option_map (λ s. map value_of s.now) result ≡ tuple_from (node_at heap.now (value_of value.now)) }
    ensures sound { IfSome result (λ s. AreSoundIn heap.now s.now) }
    ensures reads { Reads 1 steps.old steps.new }
{
    node_at(heap, value, steps)?.tuple()
}

/// A new node.
#[inline(never)]
pub fn make(machine: &mut Machine, node: Node) -> Result<NodeId, Fault>
    requires room { length machine.old.heap + 1 < 2 ^ 32 }
    requires sound { IsTrue (is_sound_node (length machine.old.heap) (node_of node)) }
    ensures gives { Gives (λ id. model.node id.0) result (moment_of machine.new) (make (node_of node) (moment_of machine.old)) }
    ensures sound { SoundEnd machine.new.heap result }
    ensures id { IfOk result (λ id. id.0 < length machine.new.heap) }
    ensures grows { Grows 1 machine.old.heap machine.new.heap }
    ensures budget { machine.new.budget ≡ machine.old.budget }
{
    Ok(machine.heap.make(node)?)
}

/// A new list.
#[inline(never)]
pub fn new_list(machine: &mut Machine, items: Vec<Value>) -> Result<Value, Fault>
    requires room { length machine.old.heap + 1 < 2 ^ 32 }
    requires sound { AreSoundIn machine.old.heap items.items }
    ensures gives { Gives value_of result (moment_of machine.new) (new_list (map value_of items.items) (moment_of machine.old)) }
    ensures sound { SoundValue machine.new.heap result }
    ensures grows { Grows 1 machine.old.heap machine.new.heap }
    ensures budget { machine.new.budget ≡ machine.old.budget }
{
    Ok(Value::Node(make(machine, Node::List(items))?))
}

/// A new tuple.
#[inline(never)]
pub fn new_tuple(machine: &mut Machine, items: Vec<Value>) -> Result<Value, Fault>
    requires room { length machine.old.heap + 1 < 2 ^ 32 }
    requires sound { AreSoundIn machine.old.heap items.items }
    ensures gives { Gives value_of result (moment_of machine.new) (new_tuple (map value_of items.items) (moment_of machine.old)) }
    ensures sound { SoundValue machine.new.heap result }
    ensures grows { Grows 1 machine.old.heap machine.new.heap }
    ensures budget { machine.new.budget ≡ machine.old.budget }
{
    Ok(Value::Node(make(machine, Node::Tuple(items))?))
}

/// Whether a value is true (Python Language Reference 3, "Boolean operations").
pub fn truth<L: Ledger>(machine: &Machine, value: &Value, steps: &mut Steps<L>) -> bool
    requires sound { IsSoundIn machine.now.heap value.now }
    ensures is { truth (value_of value.now) (moment_of machine.now) ≡ fine result (moment_of machine.now) }
    ensures reads { Reads 1 steps.old steps.new }
{
    kishu_items::is_true(value, &machine.heap, steps)
}
