// Operators and comparisons (Python Language Reference 3, "Expressions").
ghost use Rattle.std.specs.Prelude.{◌<◌};
ghost use Rattle.kishu_language.specs.trees.Height.{of_links, of_operands};
ghost use Rattle.kishu_meaning.specs.cells.Meaning.{call, expr};
ghost use Rattle.kishu_language.specs.trees.Tree.{expression_of};
ghost use Rattle.kishu_meaning.specs.values.Values.{value_of};
ghost use Rattle.kishu_language.specs.trees.Parts.{links_of, operands_of};
ghost use Rattle.kishu_language.specs.trees.Fits.{LinksFit, OperandsFit};
ghost use Rattle.kishu_machine.specs.Machine.{Gives, GrownBy, HasRoom, LeavesReads, moment_of};
ghost use Rattle.kishu_machine.specs.Clauses.{SoundValue};
ghost use Rattle.kishu_statements.specs.Handed.{FitExpression, LowExpression};
ghost use Rattle.kishu_language.specs.Limits.{height_limit};
ghost use Rattle.kishu_language.specs.trees.Tree as t;

use crate::expressions::{deeper_value, evaluate};
use kishu_language::{Expr, Link, Operand, Operator, Sign};
use kishu_machine::{Fault, Machine, compare, operate, signed_value, tick, truth};
use kishu_meaning::{Steps, Value};
use std::sync::ledger::Ledger;

#[cycle(run)]
#[inline(never)]
pub(crate) fn negated_value<L: Ledger>(
    machine: &mut Machine,
    e: &Expr,
    calls_left: u32,
    steps: &mut Steps<L>,
) -> Result<Value, Fault>
    requires small_e { LowExpression e.now }
    requires fit_e { FitExpression e.now }
    requires room { HasRoom machine.old }
    ensures gives { Gives value_of result (moment_of machine.new) (expr (call calls_left) (t.not (expression_of e.now)) (moment_of machine.old)) }
    ensures sound { SoundValue machine.new.heap result }
    ensures kept { GrownBy 0 machine.old steps.old machine.new steps.new }
    ensures reads { LeavesReads 64 machine.old steps.old result machine.new steps.new }
{
    let value = deeper_value(machine, e, calls_left, steps)?;
    tick(machine, steps)?;
    Ok(Value::Bool(!truth(machine, &value, steps)))
}

#[cycle(run)]
#[inline(never)]
pub(crate) fn value_with_sign<L: Ledger>(
    machine: &mut Machine,
    sign: Sign,
    e: &Expr,
    calls_left: u32,
    steps: &mut Steps<L>,
) -> Result<Value, Fault>
    requires small_e { LowExpression e.now }
    requires fit_e { FitExpression e.now }
    requires room { HasRoom machine.old }
    ensures gives { Gives value_of result (moment_of machine.new) (expr (call calls_left) (t.signed sign (expression_of e.now)) (moment_of machine.old)) }
    ensures sound { SoundValue machine.new.heap result }
    ensures kept { GrownBy 0 machine.old steps.old machine.new steps.new }
    ensures reads { LeavesReads 64 machine.old steps.old result machine.new steps.new }
{
    let value = deeper_value(machine, e, calls_left, steps)?;
    tick(machine, steps)?;
    signed_value(machine, sign, &value, steps)
}

#[cycle(run)]
#[inline(never)]
pub(crate) fn power_value<L: Ledger>(
    machine: &mut Machine,
    base: &Expr,
    exponent: &Expr,
    calls_left: u32,
    steps: &mut Steps<L>,
) -> Result<Value, Fault>
    requires small_base { LowExpression base.now }
    requires fit_base { FitExpression base.now }
    requires small_exponent { LowExpression exponent.now }
    requires fit_exponent { FitExpression exponent.now }
    requires room { HasRoom machine.old }
    ensures gives { Gives value_of result (moment_of machine.new) (expr (call calls_left) (t.power (expression_of base.now) (expression_of exponent.now)) (moment_of machine.old)) }
    ensures sound { SoundValue machine.new.heap result }
    ensures kept { GrownBy 0 machine.old steps.old machine.new steps.new }
    ensures reads { LeavesReads 64 machine.old steps.old result machine.new steps.new }
{
    let base = match evaluate(machine, base, calls_left, steps) {
        Ok(base) => base,
        Err(fault) => return Err(fault),
    };
    let exponent = match deeper_value(machine, exponent, calls_left, steps) {
        Ok(exponent) => exponent,
        Err(fault) => return Err(fault),
    };
    tick(machine, steps)?;
    operate(machine, Operator::Power, &base, &exponent, steps)
}

// A term or a factor, and the operators on it from left to right.
#[cycle(run)]
#[inline(never)]
#[tactic(auto, using(kishu_language::specs::trees::Rows::part_rows))]
pub(crate) fn combined_value<L: Ledger>(
    machine: &mut Machine,
    first: &Expr,
    others: &[Operand],
    calls_left: u32,
    steps: &mut Steps<L>,
) -> Result<Value, Fault>
    requires small_first { LowExpression first.now }
    requires fit_first { FitExpression first.now }
    requires small_others { of_operands (operands_of others.now) < height_limit }
    requires fit_others { OperandsFit (operands_of others.now) }
    requires room { HasRoom machine.old }
    ensures gives { Gives value_of result (moment_of machine.new) (expr (call calls_left) (t.sum (expression_of first.now) (operands_of others.now)) (moment_of machine.old)) }
    ensures sound { SoundValue machine.new.heap result }
    ensures kept { GrownBy 0 machine.old steps.old machine.new steps.new }
    ensures reads { LeavesReads 64 machine.old steps.old result machine.new steps.new }
{
    let mut value = match evaluate(machine, first, calls_left, steps) {
        Ok(value) => value,
        Err(fault) => return Err(fault),
    };
    for other in others {
        let right = match evaluate(machine, &other.value, calls_left, steps) {
            Ok(right) => right,
            Err(fault) => return Err(fault),
        };
        tick(machine, steps)?;
        value = match operate(machine, other.operator, &value, &right, steps) {
            Ok(result) => result,
            Err(fault) => return Err(fault),
        };
    }
    Ok(value)
}

// Each operand once, up to the first comparison that is false.
#[cycle(run)]
#[inline(never)]
#[tactic(auto, using(kishu_language::specs::trees::Rows::part_rows))]
pub(crate) fn compared_value<L: Ledger>(
    machine: &mut Machine,
    first: &Expr,
    links: &[Link],
    calls_left: u32,
    steps: &mut Steps<L>,
) -> Result<Value, Fault>
    requires small_first { LowExpression first.now }
    requires fit_first { FitExpression first.now }
    requires small_links { of_links (links_of links.now) < height_limit }
    requires fit_links { LinksFit (links_of links.now) }
    requires room { HasRoom machine.old }
    ensures gives { Gives value_of result (moment_of machine.new) (expr (call calls_left) (t.compared (expression_of first.now) (links_of links.now)) (moment_of machine.old)) }
    ensures sound { SoundValue machine.new.heap result }
    ensures kept { GrownBy 0 machine.old steps.old machine.new steps.new }
    ensures reads { LeavesReads 64 machine.old steps.old result machine.new steps.new }
{
    let mut left = match evaluate(machine, first, calls_left, steps) {
        Ok(value) => value,
        Err(fault) => return Err(fault),
    };
    if links.is_empty() {
        return Ok(left);
    }
    for link in links {
        let right = match evaluate(machine, &link.value, calls_left, steps) {
            Ok(right) => right,
            Err(fault) => return Err(fault),
        };
        tick(machine, steps)?;
        match compare(machine, link.comparison, &left, &right, steps) {
            Ok(true) => left = right,
            Ok(false) => return Ok(Value::Bool(false)),
            Err(fault) => return Err(fault),
        }
    }
    Ok(Value::Bool(true))
}
