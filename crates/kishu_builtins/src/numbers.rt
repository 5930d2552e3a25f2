// `abs`, `divmod`, and whole numbers.
ghost use Rattle.std.specs.Prelude.{◌≡◌, pos, ◌∷◌, [], ◌+◌, ◌<◌, ◌≤◌, ◌^◌, unsigned_abs, codes, length};
ghost use Rattle.kishu_meaning.specs.declared.budget.Budget.{Budget};
ghost use Rattle.kishu_language.specs.declared.tree.Operator.TheVariants as operators;
ghost use Rattle.kishu_meaning.specs.calls.Builtins.{by_number, divided_by, quotient_and_remainder};
ghost use Rattle.kishu_meaning.specs.comparing.Equal.{number_in};
ghost use Rattle.kishu_meaning.specs.moments.Moment.{Moment};
ghost use Rattle.kishu_meaning.specs.calls.Operators.{whole, operate, new_tuple};
ghost use Rattle.kishu_meaning.specs.values.Values.{value_of, integer};
ghost use Rattle.kishu_heap.specs.Costs.{Grows};
ghost use Rattle.kishu_builtins.specs.Called.{moment_of, Gives};
ghost use Rattle.kishu_builtins.specs.Answered.{answered};

use kishu_heap::{CallFault, Heap, Node};
use kishu_items::{bad_arguments, number_in, plain_text, raise};
use kishu_meaning::{ClassId, Value};
use kishu_num::{NumFault, floor_div, modulo};
use std::alloc::Global;

/// What an operation on numbers answers, or the exception that it raises.
pub(crate) fn number_or_raise(
    alloc: Global,
    answer: Result<i128, NumFault>,
) -> Result<i128, CallFault>
    ensures { (s : Moment) → Gives integer result s (answered answer s) }
{
    match answer {
        Ok(number) => Ok(number),
        Err(NumFault::Overflow) => {
            raise(
                ClassId::OVERFLOW_ERROR,
                plain_text(alloc, "whole number too large")?,
            )
        }
        Err(NumFault::ZeroDivisor) => {
            raise(
                ClassId::ZERO_DIVISION_ERROR,
                plain_text(alloc, "division by zero")?,
            )
        }
        Err(NumFault::NegativePower) => raise(
            ClassId::VALUE_ERROR,
            plain_text(alloc, "negative power")?,
        ),
    }
}

/// A number that isn't negative, or an OverflowError.
pub(crate) fn whole(alloc: Global, number: u128) -> Result<Value, CallFault>
    ensures { (s : Moment) → Gives value_of result s (whole (pos number) s) }
{
    if number > i128::MAX as u128 {
        return raise(
            ClassId::OVERFLOW_ERROR,
            plain_text(alloc, "whole number too large")?,
        );
    }
    Ok(Value::Int(number as i128))
}

/// The absolute value.
pub(crate) fn abs(alloc: Global, value: &Value) -> Result<Value, CallFault>
    ensures { (s : Moment) → Gives value_of result s (by_number (codes "abs") (number_in (value_of value.now)) (λ z. whole (pos (unsigned_abs z))) s) }
{
    match number_in(value) {
        Some(number) => whole(alloc, number.unsigned_abs()),
        None => bad_arguments(alloc, "abs"),
    }
}

fn quotient(alloc: Global, a: i128, b: i128) -> Result<i128, CallFault>
    ensures { (s : Moment) → Gives integer result s (operate operators.FloorDivide (integer a) (integer b) s) }
{
    number_or_raise(alloc, floor_div(a, b))
}

fn remainder(alloc: Global, a: i128, b: i128) -> Result<i128, CallFault>
    ensures { (s : Moment) → Gives integer result s (operate operators.Modulo (integer a) (integer b) s) }
{
    number_or_raise(alloc, modulo(a, b))
}

// A new tuple of two numbers.
fn new_pair(alloc: Global, first: i128, second: i128, heap: &mut Heap) -> Result<Value, CallFault>
    requires { length heap.old + 1 < 2 ^ 32 }
    ensures gives { (b : Budget) → Gives value_of result (moment_of heap.new b) (new_tuple (integer first ∷ integer second ∷ []) (moment_of heap.old b)) }
    ensures grows { Grows 1 heap.old heap.new }
{
    let items = vec![in alloc; Value::Int(first), Value::Int(second)]?;
    Ok(Value::Node(heap.make(Node::Tuple(items))?))
}

fn quotient_and_remainder(
    alloc: Global,
    a: i128,
    b: i128,
    heap: &mut Heap,
) -> Result<Value, CallFault>
    requires { length heap.old + 1 < 2 ^ 32 }
    ensures gives { (c : Budget) → Gives value_of result (moment_of heap.new c) (quotient_and_remainder a b (moment_of heap.old c)) }
    ensures grows { Grows 1 heap.old heap.new }
{
    let quotient = quotient(alloc, a, b)?;
    let remainder = remainder(alloc, a, b)?;
    new_pair(alloc, quotient, remainder, heap)
}

/// Quotient and remainder, in a new tuple.
pub(crate) fn divmod(
    alloc: Global,
    a: &Value,
    b: &Value,
    heap: &mut Heap,
) -> Result<Value, CallFault>
    requires room { length heap.old + 1 < 2 ^ 32 }
    ensures gives { (c : Budget) → Gives value_of result (moment_of heap.new c) (divided_by (value_of a.now) (value_of b.now) (moment_of heap.old c)) }
    ensures grows { Grows 1 heap.old heap.new }
{
    match (number_in(a), number_in(b)) {
        (Some(a), Some(b)) => quotient_and_remainder(alloc, a, b, heap),
        (Some(_), None) => bad_arguments(alloc, "divmod"),
        (None, _) => bad_arguments(alloc, "divmod"),
    }
}
