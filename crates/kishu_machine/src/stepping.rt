// The steps that a run takes.
ghost use Rattle.std.specs.Prelude.{OnOk, codes, ◌+◌, ◌≡◌};
ghost use Rattle.kishu_meaning.specs.moments.Moment.{spend, tick};
ghost use Rattle.kishu_machine.specs.Machine.{Gives, GrownBy, IsRaised, moment_of};
ghost use Rattle.kishu_machine.specs.Clauses.{SoundEnd};
ghost use Rattle.kishu_meaning.specs.values.Classes.{recursion_error_class};

use crate::fault::{Fault, passed};
use crate::machine::Machine;
use crate::raising::raise;
use kishu_items::plain_text;
use kishu_meaning::{ClassId, Steps};
use std::alloc::Global;
use std::sync::ledger::Ledger;

/// Takes one step. `Stopped` where none is left.
pub fn tick<L: Ledger>(machine: &mut Machine, steps: &mut Steps<L>) -> Result<(), Fault>
    ensures gives { Gives (λ u. u) result (moment_of machine.new) (tick (moment_of machine.old)) }
    ensures sound { SoundEnd machine.new.heap result }
    ensures kept { GrownBy 0 machine.old steps.old machine.new steps.new }
    ensures counted { steps.new + machine.new.budget.left ≡ steps.old + machine.old.budget.left }
    ensures taken { OnOk result (machine.new.budget.left + 1 ≡ machine.old.budget.left) }
    ensures heap { machine.new.heap ≡ machine.old.heap }
{
    if machine.budget.left == 0 {
        return Err(Fault::Stopped);
    }
    machine.budget.left -= 1;
    steps.tick();
    Ok(())
}

/// Takes so many steps, and where there are fewer, all: `Stopped` then.
pub fn spend<L: Ledger>(
    machine: &mut Machine,
    count: u128,
    steps: &mut Steps<L>,
) -> Result<(), Fault>
    ensures gives { Gives (λ u. u) result (moment_of machine.new) (spend count (moment_of machine.old)) }
    ensures sound { SoundEnd machine.new.heap result }
    ensures kept { GrownBy 0 machine.old steps.old machine.new steps.new }
    ensures counted { steps.new + machine.new.budget.left ≡ steps.old + machine.old.budget.left }
    ensures taken { OnOk result (machine.new.budget.left + count ≡ machine.old.budget.left) }
    ensures heap { machine.new.heap ≡ machine.old.heap }
{
    let spent = kishu_items::spend(count, &mut machine.budget, steps);
    passed(spent)
}

/// The exception for a point that lies too deep.
pub fn too_deep<T>(alloc: Global) -> Result<T, Fault>
    ensures { IsRaised result recursion_error_class (codes "depth limit reached") }
{
    raise(
        ClassId::RECURSION_ERROR,
        plain_text(alloc, "depth limit reached")?,
    )
}
