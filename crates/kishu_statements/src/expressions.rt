// Expressions.
ghost use Rattle.std.specs.Prelude.{◌*◌, ◌+◌};
ghost use Rattle.std.specs.Rc.{rc_str_bytes};
ghost use Rattle.std.specs.Str.{chars};
ghost use Rattle.kishu_meaning.specs.cells.Meaning.{call, expr, first_that};
ghost use Rattle.kishu_meaning.specs.moments.Moment.{deeper, give, read, tick, ◌>>◌ as ◌▹◌};
ghost use Rattle.kishu_language.specs.trees.Tree.{expression_of};
ghost use Rattle.kishu_meaning.specs.values.Values.{value_of};
ghost use Rattle.kishu_language.specs.trees.Parts.{expressions_of};
ghost use Rattle.kishu_machine.specs.Machine.{Gives, GrownBy, HasRoom, LeavesReads, moment_of};
ghost use Rattle.kishu_machine.specs.Clauses.{IsSoundIn, SoundValue};
ghost use Rattle.kishu_statements.specs.Handed.{FitExpression, FitExpressions, LowExpression, LowExpressions};
ghost use Rattle.kishu_language.specs.trees.Tree as t;
ghost use Rattle.kishu_meaning.specs.values.Values as model;

use crate::displays::{dict_value, list_value, tuple_value};
use crate::operators::{
    combined_value, compared_value, negated_value, power_value, value_with_sign,
};
use crate::primaries::primary_value;
use kishu_language::Expr;
use kishu_machine::{Fault, MOST_DEPTH, Machine, read, tick, too_deep, truth};
use kishu_meaning::{Steps, Value};
use std::rc::RcStr;
use std::sync::ledger::Ledger;

/// The value of an expression (Python Language Reference 3, "Expressions"). `calls_left` is how many calls
/// may still be entered.
#[cycle(run)]
#[inline(never)]
#[tactic(auto, using(kishu_language::specs::trees::Rows::tree_rows))]
pub(crate) fn evaluate<L: Ledger>(
    machine: &mut Machine,
    e: &Expr,
    calls_left: u32,
    steps: &mut Steps<L>,
) -> Result<Value, Fault>
    requires small_e { LowExpression e.now }
    requires fit_e { FitExpression e.now }
    requires room { HasRoom machine.old }
    ensures gives { Gives value_of result (moment_of machine.new) (expr (call calls_left) (expression_of e.now) (moment_of machine.old)) }
    ensures sound { SoundValue machine.new.heap result }
    ensures kept { GrownBy 0 machine.old steps.old machine.new steps.new }
    ensures reads { LeavesReads 64 machine.old steps.old result machine.new steps.new }
{
    match e {
        Expr::Name(name) => name_value(machine, name.as_str(), steps),
        Expr::Int(number) => integer(machine, *number, steps),
        Expr::Text(text) => text_value(machine, text, steps),
        Expr::None => none_value(machine, steps),
        Expr::True => truth_value(machine, true, steps),
        Expr::False => truth_value(machine, false, steps),
        Expr::Paren(e) => deeper_value(machine, e, calls_left, steps),
        Expr::Tuple(items) => tuple_value(machine, items, calls_left, steps),
        Expr::List(items) => list_value(machine, items, calls_left, steps),
        Expr::Dict(pairs) => dict_value(machine, pairs, calls_left, steps),
        Expr::Conditional { value, test, other } => {
            chosen_value(machine, value, test, other, calls_left, steps)
        }
        Expr::Or(operands) => deciding_value(machine, true, operands, calls_left, steps),
        Expr::And(operands) => deciding_value(machine, false, operands, calls_left, steps),
        Expr::Not(e) => negated_value(machine, e, calls_left, steps),
        Expr::Signed(sign, e) => value_with_sign(machine, *sign, e, calls_left, steps),
        Expr::Power(base, exponent) => power_value(machine, base, exponent, calls_left, steps),
        Expr::Sum(first, operands) => combined_value(machine, first, operands, calls_left, steps),
        Expr::Product(first, operands) => combined_value(
            machine, first, operands, calls_left, steps,
        ),
        Expr::Compared(first, links) => compared_value(machine, first, links, calls_left, steps),
        Expr::Primary(atom, trailers) => primary_value(machine, atom, trailers, calls_left, steps),
    }
}

#[inline(never)]
fn name_value<L: Ledger>(
    machine: &mut Machine,
    name: &str,
    steps: &mut Steps<L>,
) -> Result<Value, Fault>
    ensures gives { Gives value_of result (moment_of machine.new) ((tick ▹ read name.now) (moment_of machine.old)) }
    ensures sound { SoundValue machine.new.heap result }
    ensures kept { GrownBy 0 machine.old steps.old machine.new steps.new }
    ensures reads { LeavesReads 64 machine.old steps.old result machine.new steps.new }
{
    tick(machine, steps)?;
    read(machine, name)
}

#[inline(never)]
fn integer<L: Ledger>(
    machine: &mut Machine,
    number: i128,
    steps: &mut Steps<L>,
) -> Result<Value, Fault>
    ensures gives { Gives value_of result (moment_of machine.new) ((tick ▹ give (model.integer number)) (moment_of machine.old)) }
    ensures sound { SoundValue machine.new.heap result }
    ensures kept { GrownBy 0 machine.old steps.old machine.new steps.new }
    ensures reads { LeavesReads 64 machine.old steps.old result machine.new steps.new }
{
    constant(machine, Value::Int(number), steps)
}

#[inline(never)]
fn truth_value<L: Ledger>(
    machine: &mut Machine,
    holds: bool,
    steps: &mut Steps<L>,
) -> Result<Value, Fault>
    ensures gives { Gives value_of result (moment_of machine.new) ((tick ▹ give (model.bool holds)) (moment_of machine.old)) }
    ensures sound { SoundValue machine.new.heap result }
    ensures kept { GrownBy 0 machine.old steps.old machine.new steps.new }
    ensures reads { LeavesReads 64 machine.old steps.old result machine.new steps.new }
{
    constant(machine, Value::Bool(holds), steps)
}

#[inline(never)]
fn none_value<L: Ledger>(machine: &mut Machine, steps: &mut Steps<L>) -> Result<Value, Fault>
    ensures gives { Gives value_of result (moment_of machine.new) ((tick ▹ give model.none) (moment_of machine.old)) }
    ensures sound { SoundValue machine.new.heap result }
    ensures kept { GrownBy 0 machine.old steps.old machine.new steps.new }
    ensures reads { LeavesReads 64 machine.old steps.old result machine.new steps.new }
{
    constant(machine, Value::None, steps)
}

fn constant<L: Ledger>(
    machine: &mut Machine,
    value: Value,
    steps: &mut Steps<L>,
) -> Result<Value, Fault>
    requires sound_value { IsSoundIn machine.old.heap value }
    ensures gives { Gives value_of result (moment_of machine.new) ((tick ▹ give (value_of value)) (moment_of machine.old)) }
    ensures sound { SoundValue machine.new.heap result }
    ensures kept { GrownBy 0 machine.old steps.old machine.new steps.new }
    ensures reads { LeavesReads 64 machine.old steps.old result machine.new steps.new }
{
    tick(machine, steps)?;
    Ok(value)
}

#[inline(never)]
fn text_value<L: Ledger>(
    machine: &mut Machine,
    text: &RcStr,
    steps: &mut Steps<L>,
) -> Result<Value, Fault>
    ensures gives { Gives value_of result (moment_of machine.new) ((tick ▹ give (model.text (chars (rc_str_bytes text.now)))) (moment_of machine.old)) }
    ensures sound { SoundValue machine.new.heap result }
    ensures kept { GrownBy 0 machine.old steps.old machine.new steps.new }
    ensures reads { LeavesReads 64 machine.old steps.old result machine.new steps.new }
{
    tick(machine, steps)?;
    Ok(Value::Text(text.clone()?))
}

/// The value of an expression that lies one level deeper.
#[cycle(run)]
#[inline(never)]
pub(crate) fn deeper_value<L: Ledger>(
    machine: &mut Machine,
    e: &Expr,
    calls_left: u32,
    steps: &mut Steps<L>,
) -> Result<Value, Fault>
    requires small_e { LowExpression e.now }
    requires fit_e { FitExpression e.now }
    requires room { HasRoom machine.old }
    ensures gives { Gives value_of result (moment_of machine.new) (deeper (expr (call calls_left) (expression_of e.now)) (moment_of machine.old)) }
    ensures sound { SoundValue machine.new.heap result }
    ensures kept { GrownBy 0 machine.old steps.old machine.new steps.new }
    ensures reads { LeavesReads 64 machine.old steps.old result machine.new steps.new }
{
    let depth = machine.budget.depth;
    if depth >= MOST_DEPTH {
        return too_deep(machine.alloc);
    }
    machine.budget.depth = depth + 1;
    let result = evaluate(machine, e, calls_left, steps);
    machine.budget.depth = depth;
    result
}

// ---- operators

#[cycle(run)]
#[inline(never)]
fn chosen_value<L: Ledger>(
    machine: &mut Machine,
    value: &Expr,
    test: &Expr,
    other: &Expr,
    calls_left: u32,
    steps: &mut Steps<L>,
) -> Result<Value, Fault>
    requires small_value { LowExpression value.now }
    requires fit_value { FitExpression value.now }
    requires small_test { LowExpression test.now }
    requires fit_test { FitExpression test.now }
    requires small_other { LowExpression other.now }
    requires fit_other { FitExpression other.now }
    requires room { HasRoom machine.old }
    ensures gives { Gives value_of result (moment_of machine.new) (expr (call calls_left) (t.conditional (expression_of value.now) (expression_of test.now) (expression_of other.now)) (moment_of machine.old)) }
    ensures sound { SoundValue machine.new.heap result }
    ensures kept { GrownBy 0 machine.old steps.old machine.new steps.new }
    ensures reads { LeavesReads 64 machine.old steps.old result machine.new steps.new }
{
    tick(machine, steps)?;
    let decision = match evaluate(machine, test, calls_left, steps) {
        Ok(decision) => decision,
        Err(fault) => return Err(fault),
    };
    if truth(machine, &decision, steps) {
        return evaluate(machine, value, calls_left, steps);
    }
    deeper_value(machine, other, calls_left, steps)
}

// The operand that decides: the first of this truth, or the last.
#[cycle(run)]
#[inline(never)]
fn deciding_value<L: Ledger>(
    machine: &mut Machine,
    which: bool,
    operands: &[Expr],
    calls_left: u32,
    steps: &mut Steps<L>,
) -> Result<Value, Fault>
    requires small_operands { LowExpressions operands.now }
    requires fit_operands { FitExpressions operands.now }
    requires room { HasRoom machine.old }
    ensures gives { Gives value_of result (moment_of machine.new) ((tick ▹ first_that (call calls_left) which (expressions_of operands.now)) (moment_of machine.old)) }
    ensures sound { SoundValue machine.new.heap result }
    ensures kept { GrownBy 0 machine.old steps.old machine.new steps.new }
    ensures reads { LeavesReads 64 machine.old steps.old result machine.new steps.new }
{
    tick(machine, steps)?;
    for i in 0..operands.len() {
        let value = match evaluate(machine, &operands[i], calls_left, steps) {
            Ok(value) => value,
            Err(fault) => return Err(fault),
        };
        if i + 1 == operands.len() || truth(machine, &value, steps) == which {
            return Ok(value);
        }
    }
    Ok(Value::None)
}
