// What `op=` stores (Python Language Reference 3, "Augmented assignment statements").
ghost use Rattle.std.specs.Prelude.{IfSome, length, option_map, ◌<◌, ◌≡◌};
ghost use Rattle.kishu_meaning.specs.cells.Meaning.{updated};
ghost use Rattle.kishu_language.specs.declared.tree.Operator.TheVariants as operators;
ghost use Rattle.kishu_meaning.specs.values.Values.{value_of};
ghost use Rattle.kishu_access.specs.Forms.{list_number};
ghost use Rattle.kishu_machine.specs.Machine.{Gives, HasRoomBy, moment_of, Costs};
ghost use Rattle.kishu_machine.specs.Clauses.{IsSoundIn, SoundValue};
ghost use Rattle.kishu_heap.specs.Costs.{Reads};

use crate::walks::extend;
use kishu_language::Operator;
use kishu_machine::{Fault, Machine, list_at, operate};
use kishu_meaning::{NodeId, Steps, Value};
use std::sync::ledger::Ledger;

// The list that a value is.
fn list_id<L: Ledger>(machine: &Machine, value: &Value, steps: &mut Steps<L>) -> Option<NodeId>
    requires sound { IsSoundIn machine.now.heap value.now }
    ensures is { option_map (λ id. id.0) result ≡ list_number machine.now.heap (value_of value.now) }
    ensures below { IfSome result (λ id. id.0 < length machine.now.heap) }
    ensures reads { Reads 1 steps.old steps.new }
{
    if let Value::Node(id) = value {
        if list_at(&machine.heap, value, steps).is_some() {
            return Some(*id);
        }
    }
    None
}

// What a value is behind `+=`, which extends a list in place.
fn added<L: Ledger>(
    machine: &mut Machine,
    value: Value,
    operand: &Value,
    steps: &mut Steps<L>,
) -> Result<Value, Fault>
    requires room { HasRoomBy 1 machine.old }
    requires sound_value { IsSoundIn machine.old.heap value }
    requires sound_operand { IsSoundIn machine.old.heap operand.now }
    ensures gives { Gives value_of result (moment_of machine.new) (updated operators.Add (value_of value) (value_of operand.now) (moment_of machine.old)) }
    ensures sound { SoundValue machine.new.heap result }
    ensures costs { Costs 1 17 machine.old steps.old machine.new steps.new }
{
    if let Some(id) = list_id(machine, &value, steps) {
        extend(machine, id, operand, steps)?;
        return Ok(value);
    }
    operate(machine, Operator::Add, &value, operand, steps)
}

/// What a value is behind `op=`. `+=` extends a list in place.
#[inline(never)]
pub fn updated<L: Ledger>(
    machine: &mut Machine,
    operator: Operator,
    value: Value,
    operand: &Value,
    steps: &mut Steps<L>,
) -> Result<Value, Fault>
    requires room { HasRoomBy 1 machine.old }
    requires sound_value { IsSoundIn machine.old.heap value }
    requires sound_operand { IsSoundIn machine.old.heap operand.now }
    ensures gives { Gives value_of result (moment_of machine.new) (updated operator (value_of value) (value_of operand.now) (moment_of machine.old)) }
    ensures sound { SoundValue machine.new.heap result }
    ensures costs { Costs 1 24 machine.old steps.old machine.new steps.new }
{
    if operator == Operator::Add {
        return added(machine, value, operand, steps);
    }
    operate(machine, operator, &value, operand, steps)
}
