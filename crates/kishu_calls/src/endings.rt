// What a cell gives whose run ended.
ghost use Rattle.std.specs.Prelude.{IfOk, List, OnOk, Option, [], map, ℕ, ◌++◌, ◌-◌, ◌∷◌, ◌≡◌};
ghost use Rattle.std.specs.Str.{chars};
ghost use Rattle.kishu_meaning.specs.cells.Meaning.{ended, finished, printed, spent, uncaught};
ghost use Rattle.kishu_meaning.specs.moments.Moment.{Ends, fine, most_steps};
ghost use Rattle.kishu_meaning.specs.comparing.Show.{class_name, show_thrown};
ghost use Rattle.kishu_meaning.specs.values.Values.{fault, output_of, report_of, shown};
ghost use Rattle.kishu_machine.specs.Machine.{Gives, moment_of, outputs_in, shown_of, state_of, thrown_of, Costs};

use crate::ways::kind_of_thrown;
use kishu_machine::{Fault, Machine, Thrown, show_thrown};
use kishu_meaning::{CellResult, ClassId, Outcome, Output, Steps, class_name};
use std::alloc::{AllocError, Global};
use std::rc::RcStr;
use std::sync::ledger::Ledger;

fn shown_output(alloc: Global, text: &str) -> Result<Output, AllocError>
    ensures { IfOk result (λ o. output_of o ≡ shown text.now) }
{
    let text = RcStr::from_str(alloc, text)?;
    Ok(Output::Shown { text })
}

/// The output that tells an exception.
pub fn fault_output(alloc: Global, ename: &str, evalue: &str) -> Result<Output, AllocError>
    ensures { IfOk result (λ o. output_of o ≡ fault ename.now evalue.now) }
{
    let ename = RcStr::from_str(alloc, ename)?;
    let evalue = RcStr::from_str(alloc, evalue)?;
    Ok(Output::Fault { ename, evalue })
}

// What was printed is one output, where it is anything.
fn printed_output(alloc: Global, out: &str) -> Result<Vec<Output>, AllocError>
    ensures { IfOk result (λ v. map output_of v.items ≡ printed (chars out.now)) }
{
    let mut outputs = Vec::new(alloc);
    if out.is_empty() {
        return Ok(outputs);
    }
    let text = RcStr::from_str(alloc, out)?;
    outputs.push(Output::Stream { text })?;
    Ok(outputs)
}

/// What a run gives that ended so: what was printed stands before the others.
pub fn ended(
    alloc: Global,
    outcome: Outcome,
    out: &str,
    last: Option<Output>,
) -> Result<CellResult, AllocError>
    ensures { IfOk result (λ r. report_of r ≡ record { outcome = outcome; outputs = printed (chars out.now) ++ outputs_in last }) }
{
    let mut outputs = printed_output(alloc, out)?;
    if let Some(output) = last {
        outputs.push(output)?;
    }
    Ok(CellResult { outcome, outputs })
}

fn finish_done(machine: &Machine, shown: Option<String>) -> Result<CellResult, AllocError>
    ensures { IfOk result (λ r. report_of r ≡ (finished (fine (shown_of shown) (moment_of machine.now))).report) }
{
    let out = machine.printed.as_str();
    let Some(text) = shown else {
        return ended(machine.alloc, Outcome::Done, out, None);
    };
    let output = shown_output(machine.alloc, text.as_str())?;
    ended(machine.alloc, Outcome::Done, out, Some(output))
}

fn finish_stopped(machine: &Machine) -> Result<CellResult, AllocError>
    ensures { IfOk result (λ r. report_of r ≡ (spent (moment_of machine.now)).report) }
{
    let output = fault_output(machine.alloc, "Stopped", "step budget spent")?;
    let out = machine.printed.as_str();
    ended(machine.alloc, Outcome::Stopped, out, Some(output))
}

// What a run gives that ended with an exception of a class.
fn raised_result(machine: &Machine, class: ClassId, text: &str) -> Result<CellResult, AllocError>
    ensures { IfOk result (λ r. report_of r ≡ (ended Outcome.Raised (fault (class_name class.0) text.now ∷ []) (moment_of machine.now)).report) }
{
    let output = fault_output(machine.alloc, class_name(class), text)?;
    let out = machine.printed.as_str();
    ended(machine.alloc, Outcome::Raised, out, Some(output))
}

// The exception's text is made last; where that raises, it is empty.
fn finish_raised<L: Ledger>(
    machine: &mut Machine,
    thrown: &Thrown,
    steps: &mut Steps<L>,
) -> Result<CellResult, AllocError>
    ensures report { IfOk result (λ r. report_of r ≡ (uncaught (thrown_of thrown.now) (show_thrown (thrown_of thrown.now) (moment_of machine.old))).report) }
    ensures state { OnOk result (state_of machine.new ≡ (uncaught (thrown_of thrown.now) (show_thrown (thrown_of thrown.now) (moment_of machine.old))).state) }
    ensures accessed { OnOk result (machine.new.names.accessed ≡ (uncaught (thrown_of thrown.now) (show_thrown (thrown_of thrown.now) (moment_of machine.old))).accessed) }
    ensures charge { OnOk result ((uncaught (thrown_of thrown.now) (show_thrown (thrown_of thrown.now) (moment_of machine.old))).charge ≡ most_steps - machine.new.budget.left) }
    ensures costs { Costs 0 9 machine.old steps.old machine.new steps.new }
{
    let text = show_thrown(machine, thrown, steps);
    let class = kind_of_thrown(&machine.heap, thrown, steps);
    match text {
        Ok(text) => raised_result(machine, class, text.as_str()),
        Err(Fault::Raised(_)) => raised_result(machine, class, ""),
        Err(Fault::Stopped) => finish_stopped(machine),
        Err(Fault::NoMemory) => Err(AllocError),
    }
}

/// What a run gives whose statements ended so.
pub fn finish<L: Ledger>(
    machine: &mut Machine,
    end: Result<Option<String>, Fault>,
    steps: &mut Steps<L>,
) -> Result<CellResult, AllocError>
    ensures report { IfOk result (λ r. (e : Ends (Option (List ℕ))) → Gives shown_of end (moment_of machine.old) e → report_of r ≡ (finished e).report) }
    ensures state { OnOk result ((e : Ends (Option (List ℕ))) → Gives shown_of end (moment_of machine.old) e → state_of machine.new ≡ (finished e).state) }
    ensures accessed { OnOk result ((e : Ends (Option (List ℕ))) → Gives shown_of end (moment_of machine.old) e → machine.new.names.accessed ≡ (finished e).accessed) }
    ensures charge { OnOk result ((e : Ends (Option (List ℕ))) → Gives shown_of end (moment_of machine.old) e → (finished e).charge ≡ most_steps - machine.new.budget.left) }
    ensures costs { Costs 0 32 machine.old steps.old machine.new steps.new }
{
    match end {
        Ok(shown) => finish_done(machine, shown),
        Err(Fault::Raised(thrown)) => finish_raised(machine, &thrown, steps),
        Err(Fault::Stopped) => finish_stopped(machine),
        Err(Fault::NoMemory) => Err(AllocError),
    }
}
