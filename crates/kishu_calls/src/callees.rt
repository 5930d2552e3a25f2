// What is called, and what it is given (Python Language Reference 3, "Calls").
ghost use Rattle.std.specs.Prelude.{option_map, ◌*◌, ◌<◌, ◌≡◌};
ghost use Rattle.std.specs.Rc.{rc_str_bytes};
ghost use Rattle.kishu_meaning.specs.calls.Callees.{callee, dotted_callee, method_of, view_in, view_named};
ghost use Rattle.kishu_meaning.specs.calls.Methods.{has_method};
ghost use Rattle.kishu_meaning.specs.moments.Moment.{give, ◌>>=◌ as ◌⊳◌};
ghost use Rattle.kishu_meaning.specs.items.Subscripts.{attribute};
ghost use Rattle.kishu_meaning.specs.values.Values.{value_of};
ghost use Rattle.kishu_items.specs.Walks.{view_of};
ghost use Rattle.kishu_access.specs.Forms.{dict_number};
ghost use Rattle.kishu_calls.specs.Calls.{callee_of, owed, part_of, SoundCallee, IsSoundPart};
ghost use Rattle.kishu_calls.specs.Forms.{view_at, viewed_or};
ghost use Rattle.kishu_language.specs.trees.Parts.{arguments_of};
ghost use Rattle.kishu_machine.specs.Machine.{Gives, HasRoomBy, moment_of, Costs};
ghost use Rattle.kishu_machine.specs.Clauses.{IsSoundIn};
ghost use Rattle.kishu_heap.specs.Costs.{Reads};
ghost use Rattle.kishu_meaning.specs.calls.Callees as c;

use crate::parts::{Part, settled};
use kishu_access::{attribute, is_object};
use kishu_heap::{Heap, Node};
use kishu_items::View;
use kishu_language::Argument;
use kishu_machine::{Fault, Machine, is_same_text, no_attribute, node_at};
use kishu_meaning::{NodeId, Steps, Value};
use std::rc::RcStr;
use std::sync::ledger::Ledger;

/// The arguments of a call.
#[derive(Drop)]
pub struct Given {
    pub plain: Vec<Value>,
    /// By keyword.
    pub named: Vec<(RcStr, Value)>,
}

/// What is called.
#[derive(Drop)]
pub enum Callee {
    Function(Value),
    Method(Value, RcStr),
    View(NodeId, View),
}

// ---- before the call

fn view_named(name: &str) -> Option<View>
    ensures { option_map view_of result ≡ view_named name.now }
{
    if is_same_text(name, "keys") {
        Some(View::Keys)
    } else if is_same_text(name, "values") {
        Some(View::Values)
    } else if is_same_text(name, "items") {
        Some(View::Items)
    } else {
        None
    }
}

// `.keys()`, `.values()` and `.items()`, without arguments.
fn view_in(name: &str, arguments: &[Argument]) -> Option<View>
    ensures { option_map view_of result ≡ view_in name.now (arguments_of arguments.now) }
{
    if arguments.is_empty() {
        view_named(name)
    } else {
        None
    }
}

// The method must exist.
fn method_of<L: Ledger>(
    machine: &Machine,
    value: Value,
    name: RcStr,
    steps: &mut Steps<L>,
) -> Result<Callee, Fault>
    requires sound_value { IsSoundIn machine.now.heap value }
    ensures gives { Gives callee_of result (moment_of machine.now) (method_of (value_of value) (rc_str_bytes name) (moment_of machine.now)) }
    ensures sound { SoundCallee machine.now.heap result }
    ensures reads { Reads 3 steps.old steps.new }
{
    let title = name.as_str();
    if kishu_methods::has_method(&value, title, &machine.heap, steps) {
        return Ok(Callee::Method(value, name));
    }
    no_attribute(machine, &value, title, steps)
}

// The dict that a value is.
fn dict_id<L: Ledger>(heap: &Heap, value: &Value, steps: &mut Steps<L>) -> Option<NodeId>
    ensures is { option_map (λ id. id.0) result ≡ dict_number heap.now (value_of value.now) }
    ensures reads { Reads 1 steps.old steps.new }
{
    if let Value::Node(id) = value {
        if let Some(Node::Dict(_)) = node_at(heap, value, steps) {
            return Some(*id);
        }
    }
    None
}

// The dict that a value is, and a view of it.
fn dict_view<L: Ledger>(
    heap: &Heap,
    value: &Value,
    view: Option<View>,
    steps: &mut Steps<L>,
) -> Option<(NodeId, View)>
    ensures is { option_map (λ p. (p.0.0, view_of p.1)) result ≡ view_at (dict_number heap.now (value_of value.now)) (option_map view_of view) }
    ensures reads { Reads 1 steps.old steps.new }
{
    let view = view?;
    Some((dict_id(heap, value, steps)?, view))
}

// A view of a dict is called, and of all else but an object a method.
fn other_callee<L: Ledger>(
    machine: &Machine,
    value: Value,
    name: RcStr,
    view: Option<View>,
    steps: &mut Steps<L>,
) -> Result<Callee, Fault>
    requires sound_value { IsSoundIn machine.now.heap value }
    ensures gives { Gives callee_of result (moment_of machine.now) (viewed_or (view_at (dict_number machine.now.heap (value_of value)) (option_map view_of view)) (method_of (value_of value) (rc_str_bytes name)) (moment_of machine.now)) }
    ensures sound { SoundCallee machine.now.heap result }
    ensures reads { Reads 4 steps.old steps.new }
{
    match dict_view(&machine.heap, &value, view, steps) {
        Some((id, view)) => Ok(Callee::View(id, view)),
        None => method_of(machine, value, name, steps),
    }
}

// An object's attribute is called.
fn object_callee<L: Ledger>(
    machine: &mut Machine,
    value: &Value,
    name: &str,
    steps: &mut Steps<L>,
) -> Result<Callee, Fault>
    requires room { HasRoomBy 1 machine.old }
    requires sound_value { IsSoundIn machine.old.heap value.now }
    ensures gives { Gives callee_of result (moment_of machine.new) ((attribute (value_of value.now) name.now ⊳ λ v. give (c.function v)) (moment_of machine.old)) }
    ensures sound { SoundCallee machine.new.heap result }
    ensures costs { Costs 1 8 machine.old steps.old machine.new steps.new }
{
    let function = attribute(machine, value, name, steps)?;
    Ok(Callee::Function(function))
}

// An object's attribute is called, a view of a dict, and of all else a method.
#[tactic(auto, using(crate::proofs::Called::dotted_rules))]
fn dotted_callee<L: Ledger>(
    machine: &mut Machine,
    value: Value,
    name: RcStr,
    view: Option<View>,
    steps: &mut Steps<L>,
) -> Result<Callee, Fault>
    requires room { HasRoomBy 1 machine.old }
    requires sound_value { IsSoundIn machine.old.heap value }
    ensures gives { Gives callee_of result (moment_of machine.new) (dotted_callee (value_of value) (rc_str_bytes name) (option_map view_of view) (moment_of machine.old)) }
    ensures sound { SoundCallee machine.new.heap result }
    ensures costs { Costs 1 10 machine.old steps.old machine.new steps.new }
{
    if is_object(&machine.heap, &value, steps) {
        object_callee(machine, &value, name.as_str(), steps)
    } else {
        other_callee(machine, value, name, view, steps)
    }
}

/// What a part of a primary calls.
#[inline(never)]
pub fn callee_in<L: Ledger>(
    machine: &mut Machine,
    part: Part,
    arguments: &[Argument],
    steps: &mut Steps<L>,
) -> Result<Callee, Fault>
    requires room { HasRoomBy (owed (part_of part)) machine.old }
    requires sound_part { IsSoundPart machine.old.heap part }
    ensures gives { Gives callee_of result (moment_of machine.new) (callee (part_of part) (arguments_of arguments.now) (moment_of machine.old)) }
    ensures sound { SoundCallee machine.new.heap result }
    ensures costs { Costs (owed (part_of part)) 64 machine.old steps.old machine.new steps.new }
{
    match part {
        Part::Whole(value) => Ok(Callee::Function(value)),
        Part::Dotted(value, name) => {
            let view = view_in(name.as_str(), arguments);
            dotted_callee(machine, value, name, view, steps)
        }
        Part::Viewed(id, view) => {
            let value = settled(machine, Part::Viewed(id, view), steps)?;
            Ok(Callee::Function(value))
        }
    }
}
