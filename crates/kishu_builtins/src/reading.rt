// Classes of plain values: `bool`, `int` and `range`.
ghost use Rattle.std.specs.Prelude.{◌*◌, ◌≡◌, ◌∷◌, [], ◌+◌, ◌≤◌, List, IsTrue, length};
ghost use Rattle.std.specs.Str.{chars};
ghost use Rattle.kishu_meaning.specs.declared.budget.Budget.{Budget};
ghost use Rattle.kishu_meaning.specs.calls.Builtins.{number_from, range_from, checked_range};
ghost use Rattle.kishu_meaning.specs.comparing.Equal.{number_in};
ghost use Rattle.kishu_meaning.specs.moments.Moment.{Moment, and_then, give};
ghost use Rattle.kishu_meaning.specs.calls.Operators.{truth};
ghost use Rattle.kishu_meaning.specs.values.Sound.{is_sound};
ghost use Rattle.kishu_meaning.specs.values.Values as model;
ghost use Rattle.kishu_meaning.specs.values.Values.{Node, value_of, bool};
ghost use Rattle.kishu_heap.specs.Costs.{Reads, Spends};
ghost use Rattle.kishu_builtins.specs.Called.{moment_of, Gives};

use kishu_heap::{CallFault, Heap};
use kishu_items::{bad_arguments, is_true, number_in, plain_text, raise, spend};
use kishu_meaning::{Budget, ClassId, Steps, Value};
use kishu_num::read_int;
use kishu_text::count;
use std::alloc::Global;
use std::sync::ledger::Ledger;

/// The truth of a value.
pub(crate) fn bool_of<L: Ledger>(
    value: &Value,
    heap: &Heap,
    steps: &mut Steps<L>,
) -> Result<Value, CallFault>
    requires sound { IsTrue (is_sound (length heap.now) (value_of value.now)) }
    ensures gives { (b : Budget) → Gives value_of result (moment_of heap.now b) (and_then (truth (value_of value.now) (moment_of heap.now b)) (λ holds. give (bool holds))) }
    ensures reads { Reads 1 steps.old steps.new }
{
    Ok(Value::Bool(is_true(value, heap, steps)))
}

// The number that a text writes. It takes the text's code points.
fn number_written<L: Ledger>(
    alloc: Global,
    text: &str,
    budget: &mut Budget,
    steps: &mut Steps<L>,
) -> Result<Value, CallFault>
    ensures gives { (ns : List Node) → Gives value_of result (moment_of ns budget.new) (number_from (model.text (chars text.now)) (moment_of ns budget.old)) }
    ensures spends { Spends 0 budget.old steps.old budget.new steps.new }
{
    spend(count(text) as u128, budget, steps)?;
    match read_int(text) {
        Some(number) => Ok(Value::Int(number)),
        None => raise(
            ClassId::VALUE_ERROR,
            plain_text(alloc, "not a whole number")?,
        ),
    }
}

/// A number, or the number that a text writes.
pub(crate) fn number_from<L: Ledger>(
    alloc: Global,
    value: &Value,
    budget: &mut Budget,
    steps: &mut Steps<L>,
) -> Result<Value, CallFault>
    ensures gives { (ns : List Node) → Gives value_of result (moment_of ns budget.new) (number_from (value_of value.now) (moment_of ns budget.old)) }
    ensures spends { Spends 0 budget.old steps.old budget.new steps.new }
{
    match value {
        Value::Text(text) => number_written(alloc, text.as_str(), budget, steps),
        Value::Bool(holds) => Ok(Value::Int(i128::from(*holds))),
        Value::Int(number) => Ok(Value::Int(*number)),
        Value::None => bad_arguments(alloc, "int"),
        Value::Range(..) => bad_arguments(alloc, "int"),
        Value::Builtin(_) => bad_arguments(alloc, "int"),
        Value::Class(_) => bad_arguments(alloc, "int"),
        Value::Node(_) => bad_arguments(alloc, "int"),
    }
}

fn checked_range(alloc: Global, start: i128, stop: i128, step: i128) -> Result<Value, CallFault>
    ensures { (s : Moment) → Gives value_of result s (checked_range start stop step s) }
{
    if step == 0 {
        raise(ClassId::VALUE_ERROR, plain_text(alloc, "step is zero")?)
    } else {
        Ok(Value::Range(start, stop, step))
    }
}

/// The numbers from 0 to a stop.
pub(crate) fn range_to(alloc: Global, stop: &Value) -> Result<Value, CallFault>
    ensures { (s : Moment) → Gives value_of result s (range_from (number_in (value_of stop.now) ∷ []) s) }
{
    match number_in(stop) {
        Some(stop) => Ok(Value::Range(0, stop, 1)),
        None => bad_arguments(alloc, "range"),
    }
}

/// The numbers from a start to a stop.
pub(crate) fn range_between(alloc: Global, start: &Value, stop: &Value) -> Result<Value, CallFault>
    ensures { (s : Moment) → Gives value_of result s (range_from (number_in (value_of start.now) ∷ number_in (value_of stop.now) ∷ []) s) }
{
    match (number_in(start), number_in(stop)) {
        (Some(start), Some(stop)) => Ok(Value::Range(start, stop, 1)),
        (Some(_), None) => bad_arguments(alloc, "range"),
        (None, _) => bad_arguments(alloc, "range"),
    }
}

/// The numbers from a start to a stop by a step.
pub(crate) fn range_by(
    alloc: Global,
    start: &Value,
    stop: &Value,
    step: &Value,
) -> Result<Value, CallFault>
    ensures { (s : Moment) → Gives value_of result s (range_from (number_in (value_of start.now) ∷ number_in (value_of stop.now) ∷ number_in (value_of step.now) ∷ []) s) }
{
    match (number_in(start), number_in(stop), number_in(step)) {
        (Some(start), Some(stop), Some(step)) => checked_range(alloc, start, stop, step),
        (Some(_), Some(_), None) => bad_arguments(alloc, "range"),
        (Some(_), None, _) => bad_arguments(alloc, "range"),
        (None, _, _) => bad_arguments(alloc, "range"),
    }
}
