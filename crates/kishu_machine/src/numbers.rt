// Arithmetic.
ghost use Rattle.std.specs.Prelude.{◌≡◌};
ghost use Rattle.kishu_meaning.specs.moments.Moment.{Moment};
ghost use Rattle.kishu_meaning.specs.calls.Operators.{arithmetic, signed_number, whole};
ghost use Rattle.kishu_meaning.specs.values.Values.{value_of};
ghost use Rattle.kishu_machine.specs.Forms.{answer_of, answered};
ghost use Rattle.kishu_machine.specs.Machine.{Gives};

use crate::fault::Fault;
use crate::raising::raise;
use kishu_items::plain_text;
use kishu_language::{Operator, Sign};
use kishu_meaning::{ClassId, Value};
use kishu_num::{NumFault, add, floor_div, modulo, mul, power, sub};
use std::alloc::Global;

fn number_value(alloc: Global, answer: Result<i128, NumFault>) -> Result<Value, Fault>
    ensures { (s : Moment) → Gives value_of result s (answered answer s) }
{
    match answer {
        Ok(number) => Ok(Value::Int(number)),
        Err(NumFault::Overflow) => raise(
            ClassId::OVERFLOW_ERROR,
            plain_text(alloc, "whole number too large")?,
        ),
        Err(NumFault::ZeroDivisor) => raise(
            ClassId::ZERO_DIVISION_ERROR,
            plain_text(alloc, "division by zero")?,
        ),
        Err(NumFault::NegativePower) => raise(
            ClassId::VALUE_ERROR,
            plain_text(alloc, "negative power")?,
        ),
    }
}

fn answer(operator: Operator, a: i128, b: i128) -> Result<i128, NumFault>
    ensures { result ≡ answer_of operator a b }
{
    match operator {
        Operator::Add => add(a, b),
        Operator::Subtract => sub(a, b),
        Operator::Multiply => mul(a, b),
        Operator::FloorDivide => floor_div(a, b),
        Operator::Modulo => modulo(a, b),
        Operator::Power => power(a, b),
    }
}

/// An operator between two whole numbers (Python Language Reference 3, "Binary arithmetic
/// operations" and "The power operator").
pub(crate) fn arithmetic(
    alloc: Global,
    operator: Operator,
    a: i128,
    b: i128,
) -> Result<Value, Fault>
    ensures { (s : Moment) → Gives value_of result s (arithmetic operator a b s) }
{
    number_value(alloc, answer(operator, a, b))
}

/// A number with a sign before it (Python Language Reference 3, "Unary arithmetic operations").
pub(crate) fn signed_number(alloc: Global, sign: Sign, number: i128) -> Result<Value, Fault>
    ensures { (s : Moment) → Gives value_of result s (whole (signed_number sign number) s) }
{
    match sign {
        Sign::Plus => Ok(Value::Int(number)),
        Sign::Minus => number_value(alloc, sub(0, number)),
    }
}
