// Cells.
ghost use Rattle.std.specs.Prelude.{MatchOption, [], map, ◌<◌, ◌≡◌};
ghost use Rattle.kishu_language.specs.trees.Height.{of_statement};
ghost use Rattle.kishu_meaning.specs.cells.Meaning.{cell, last_act, shown_text};
ghost use Rattle.kishu_language.specs.trees.Tree.{expression_of, statement_of};
ghost use Rattle.kishu_meaning.specs.values.Values.{value_of};
ghost use Rattle.kishu_language.specs.trees.Fits.{StatementFits};
ghost use Rattle.kishu_statements.specs.Forms.{each, silent_act};
ghost use Rattle.kishu_machine.specs.Machine.{Gives, GrownBy, HasRoom, HasRoomBy, ReadsBy, moment_of, shown_of};
ghost use Rattle.kishu_machine.specs.Clauses.{SoundEnd};
ghost use Rattle.kishu_statements.specs.Handed.{FitBlock, LowBlock};
ghost use Rattle.kishu_language.specs.Limits.{height_limit};
ghost use Rattle.kishu_language.specs.trees.Tree as t;

use crate::expressions::evaluate;
use crate::statements::run_statement;
use kishu_language::{Expr, Stmt};
use kishu_machine::{Fault, Machine, repr_of, tick};
use kishu_meaning::{Steps, Value};
use std::sync::ledger::Ledger;

/// How many calls may be entered in one another: one more than there are levels.
const MOST_CALLS: u32 = 1_001;

// The text that a value shows. None shows nothing.
fn shown_value<L: Ledger>(
    machine: &mut Machine,
    value: &Value,
    steps: &mut Steps<L>,
) -> Result<Option<String>, Fault>
    ensures gives { Gives shown_of result (moment_of machine.new) (shown_text (value_of value.now) (moment_of machine.old)) }
    ensures sound { SoundEnd machine.new.heap result }
    ensures kept { GrownBy 0 machine.old steps.old machine.new steps.new }
    ensures reads { ReadsBy 8 machine.old steps.old machine.new steps.new }
{
    if let Value::None = value {
        return Ok(None);
    }
    let text = repr_of(machine, value, steps)?;
    Ok(Some(text))
}

// The last statement of a cell. An expression shows its value.
fn run_last_statement<L: Ledger>(
    machine: &mut Machine,
    statement: &Stmt,
    steps: &mut Steps<L>,
) -> Result<Option<String>, Fault>
    requires small { of_statement (statement_of statement.now) < height_limit }
    requires fits { StatementFits (statement_of statement.now) }
    requires room { HasRoomBy 4 machine.old }
    ensures gives { Gives shown_of result (moment_of machine.new) (last_act (statement_of statement.now) (moment_of machine.old)) }
    ensures sound { SoundEnd machine.new.heap result }
    ensures kept { GrownBy 3 machine.old steps.old machine.new steps.new }
    ensures reads { ReadsBy 16 machine.old steps.old machine.new steps.new }
{
    if let Some(value) = shown_expression(statement) {
        let value = evaluate(machine, value, MOST_CALLS, steps)?;
        return shown_value(machine, &value, steps);
    }
    run_statement(machine, statement, MOST_CALLS, steps)?;
    Ok(None)
}

// The expression that a statement is, where it is one.
#[tactic(auto, using(kishu_language::specs::trees::StatementRows::statement_rows))]
fn shown_expression(statement: &Stmt) -> Option<&Expr>
    ensures { MatchOption result (last_act (statement_of statement.now) ≡ silent_act (statement_of statement.now)) (λ e. statement_of statement.now ≡ t.assign [] (expression_of e.now)) }
{
    match statement {
        Stmt::Assign(targets, value) => {
            if targets.is_empty() {
                Some(value)
            } else {
                None
            }
        }
        Stmt::Pass => None,
        Stmt::Break => None,
        Stmt::Continue => None,
        Stmt::Update(_, _, _) => None,
        Stmt::If(_, _) => None,
        Stmt::While(_, _) => None,
        Stmt::Return(_) => None,
        Stmt::Raise(_) => None,
        Stmt::Assert(_, _) => None,
        Stmt::Del(_) => None,
        Stmt::Global(_) => None,
        Stmt::Import(_) => None,
        Stmt::For(_, _, _) => None,
        Stmt::Try { .. } => None,
        Stmt::Finally(_, _) => None,
        Stmt::Def(_, _) => None,
    }
}

/// The statements of a cell, and the text that the last one shows.
pub fn run_statements<L: Ledger>(
    machine: &mut Machine,
    statements: &[Stmt],
    steps: &mut Steps<L>,
) -> Result<Option<String>, Fault>
    requires small { LowBlock statements.now }
    requires fits { FitBlock statements.now }
    requires room { HasRoom machine.old }
    ensures gives { Gives shown_of result (moment_of machine.new) (cell (map statement_of statements.now) (moment_of machine.old)) }
    ensures sound { SoundEnd machine.new.heap result }
    ensures kept { GrownBy 0 machine.old steps.old machine.new steps.new }
    ensures reads { ReadsBy 0 machine.old steps.old machine.new steps.new }
{
    let Some((last, before)) = statements.split_last() else {
        return Ok(None);
    };
    run_each(machine, before, steps)?;
    tick(machine, steps)?;
    run_last_statement(machine, last, steps)
}

// Each of these statements, wherever it leads.
fn run_each<L: Ledger>(
    machine: &mut Machine,
    statements: &[Stmt],
    steps: &mut Steps<L>,
) -> Result<(), Fault>
    requires small { LowBlock statements.now }
    requires fits { FitBlock statements.now }
    requires room { HasRoom machine.old }
    ensures gives { Gives (λ u. u) result (moment_of machine.new) (each (map statement_of statements.now) (moment_of machine.old)) }
    ensures sound { SoundEnd machine.new.heap result }
    ensures kept { GrownBy 0 machine.old steps.old machine.new steps.new }
    ensures reads { ReadsBy 0 machine.old steps.old machine.new steps.new }
{
    for statement in statements {
        tick(machine, steps)?;
        run_statement(machine, statement, MOST_CALLS, steps)?;
    }
    Ok(())
}
