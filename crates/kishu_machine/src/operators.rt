// Operators (Python Language Reference 3, "Binary arithmetic operations" and "Unary arithmetic
// operations").
ghost use Rattle.std.specs.List.{list_all};
ghost use Rattle.std.specs.Prelude.{Some, IsTrue, OnOk, map, nat_lt, option_map, ℕ, ◌*◌, ◌++◌, ◌<◌, ◌≡◌};
ghost use Rattle.std.specs.Str.{chars};
ghost use Rattle.kishu_meaning.specs.comparing.Equal.{number_in};
ghost use Rattle.kishu_meaning.specs.calls.Operators.{bad_operands, both, on_numbers, on_sequences, operate, operator_sign, product_of, sign_text, signed_value, sum_of};
ghost use Rattle.kishu_meaning.specs.values.Sound.{is_sound};
ghost use Rattle.kishu_meaning.specs.values.Values.{value_of};
ghost use Rattle.kishu_machine.specs.Forms.{text_from};
ghost use Rattle.kishu_machine.specs.Machine.{Gives, HasRoomBy, IsSound, moment_of, Costs};
ghost use Rattle.kishu_machine.specs.Clauses.{IsSoundIn, SoundValue};
ghost use Rattle.kishu_heap.specs.Costs.{Reads};

use crate::fault::Fault;
use crate::machine::Machine;
use crate::numbers::{arithmetic, signed_number};
use crate::products::product_of;
use crate::raising::{bad_operand, bad_operands};
use crate::sums::sum_of;
use kishu_items::number_in;
use kishu_language::{Operator, Sign};
use kishu_meaning::{Steps, Value};
use std::alloc::AllocError;
use std::sync::ledger::Ledger;

fn operator_sign(operator: Operator) -> &'static str
    ensures is { result.now ≡ operator_sign operator }
    ensures ascii { IsTrue (list_all (λ c. nat_lt c 128) result.now) }
{
    match operator {
        Operator::Add => "+",
        Operator::Subtract => "-",
        Operator::Multiply => "*",
        Operator::FloorDivide => "//",
        Operator::Modulo => "%",
        Operator::Power => "**",
    }
}

fn sign_text(sign: Sign) -> &'static str
    ensures is { result.now ≡ sign_text sign }
    ensures ascii { IsTrue (list_all (λ c. nat_lt c 128) result.now) }
{
    match sign {
        Sign::Plus => "+",
        Sign::Minus => "-",
    }
}

// The TypeError for operands that an operator doesn't take.
pub(crate) fn bad_values<L: Ledger>(
    machine: &Machine,
    operator: Operator,
    a: &Value,
    b: &Value,
    steps: &mut Steps<L>,
) -> Result<Value, Fault>
    requires sound_a { IsSoundIn machine.now.heap a.now }
    requires sound_b { IsSoundIn machine.now.heap b.now }
    ensures gives { Gives value_of result (moment_of machine.now) (bad_operands (operator_sign operator) (value_of a.now) (value_of b.now) (moment_of machine.now)) }
    ensures sound { SoundValue machine.now.heap result }
    ensures reads { Reads 2 steps.old steps.new }
{
    bad_operands(machine, operator_sign(operator), a, b, steps)
}

/// The text that a value is.
pub(crate) fn text_from(value: &Value) -> Option<&str>
    ensures { option_map (λ t. chars t.now) result ≡ text_from (value_of value.now) }
{
    match value {
        Value::Text(text) => Some(text.as_str()),
        Value::None => None,
        Value::Bool(_) => None,
        Value::Int(_) => None,
        Value::Range(..) => None,
        Value::Builtin(_) => None,
        Value::Class(_) => None,
        Value::Node(_) => None,
    }
}

// ---- lists and tuples

pub(crate) fn push_copies(items: &mut Vec<Value>, more: &[Value]) -> Result<(), AllocError>
    ensures { OnOk result (map value_of items.new.items ≡ map value_of items.old.items ++ map value_of more.now) }
{
    for item in more {
        items.push(item.copied()?)?;
    }
    Ok(())
}

// An operator between two values that aren't both numbers.
fn on_sequences<L: Ledger>(
    machine: &mut Machine,
    operator: Operator,
    a: &Value,
    b: &Value,
    steps: &mut Steps<L>,
) -> Result<Value, Fault>
    requires room { HasRoomBy 1 machine.old }
    requires sound_a { IsSoundIn machine.old.heap a.now }
    requires sound_b { IsSoundIn machine.old.heap b.now }
    ensures gives { Gives value_of result (moment_of machine.new) (on_sequences operator (value_of a.now) (value_of b.now) (moment_of machine.old)) }
    ensures sound { SoundValue machine.new.heap result }
    ensures costs { Costs 1 6 machine.old steps.old machine.new steps.new }
{
    match operator {
        Operator::Add => sum_of(machine, a, b, steps),
        Operator::Multiply => product_of(machine, a, b, steps),
        Operator::Subtract => bad_values(machine, operator, a, b, steps),
        Operator::FloorDivide => bad_values(machine, operator, a, b, steps),
        Operator::Modulo => bad_values(machine, operator, a, b, steps),
        Operator::Power => bad_values(machine, operator, a, b, steps),
    }
}

// An operator between two values, of which the first counts as this number.
fn with_number<L: Ledger>(
    machine: &mut Machine,
    operator: Operator,
    number: i128,
    a: &Value,
    b: &Value,
    steps: &mut Steps<L>,
) -> Result<Value, Fault>
    requires room { HasRoomBy 1 machine.old }
    requires sound_a { IsSoundIn machine.old.heap a.now }
    requires sound_b { IsSoundIn machine.old.heap b.now }
    ensures gives { Gives value_of result (moment_of machine.new) (on_numbers operator (Some number) (number_in (value_of b.now)) (on_sequences operator (value_of a.now) (value_of b.now)) (moment_of machine.old)) }
    ensures sound { SoundValue machine.new.heap result }
    ensures costs { Costs 1 6 machine.old steps.old machine.new steps.new }
{
    match number_in(b) {
        Some(other) => arithmetic(machine.alloc, operator, number, other),
        None => on_sequences(machine, operator, a, b, steps),
    }
}

/// An operator between two values.
#[inline(never)]
pub fn operate<L: Ledger>(
    machine: &mut Machine,
    operator: Operator,
    a: &Value,
    b: &Value,
    steps: &mut Steps<L>,
) -> Result<Value, Fault>
    requires room { HasRoomBy 1 machine.old }
    requires sound_a { IsSoundIn machine.old.heap a.now }
    requires sound_b { IsSoundIn machine.old.heap b.now }
    ensures gives { Gives value_of result (moment_of machine.new) (operate operator (value_of a.now) (value_of b.now) (moment_of machine.old)) }
    ensures sound { SoundValue machine.new.heap result }
    ensures costs { Costs 1 16 machine.old steps.old machine.new steps.new }
{
    match number_in(a) {
        Some(number) => with_number(machine, operator, number, a, b, steps),
        None => on_sequences(machine, operator, a, b, steps),
    }
}

/// A value with a sign before it.
#[inline(never)]
pub fn signed_value<L: Ledger>(
    machine: &Machine,
    sign: Sign,
    value: &Value,
    steps: &mut Steps<L>,
) -> Result<Value, Fault>
    requires sound_value { IsSoundIn machine.now.heap value.now }
    ensures gives { Gives value_of result (moment_of machine.now) (signed_value sign (value_of value.now) (moment_of machine.now)) }
    ensures sound { (n : ℕ) → IsSound (λ v. is_sound n (value_of v)) n result }
    ensures reads { Reads 4 steps.old steps.new }
{
    match number_in(value) {
        Some(number) => signed_number(machine.alloc, sign, number),
        None => bad_operand(machine, sign_text(sign), value, steps),
    }
}
