// Steps of a budget, taken while the heap is read.
ghost use Rattle.std.specs.Prelude.{OnOk, true, ℕ, ◌*◌, ◌+◌, ◌≡◌, ◌≤◌};
ghost use Rattle.kishu_meaning.specs.moments.Moment.{Moment, spend};
ghost use Rattle.kishu_machine.specs.Machine.{Gives, GrownBy, IsSound, moment_of, placed};
ghost use Rattle.kishu_machine.specs.Clauses.{SoundEnd};

use crate::fault::{Fault, passed};
use crate::machine::Machine;
use kishu_meaning::{Budget, Steps};
use std::sync::ledger::Ledger;

/// Takes so many steps, and where there are fewer, all.
pub(crate) fn spend_from<L: Ledger>(
    count: u128,
    budget: &mut Budget,
    steps: &mut Steps<L>,
) -> Result<(), Fault>
    ensures gives { (s : Moment) → Gives (λ u. u) result (placed s budget.new) (spend count (placed s budget.old)) }
    ensures sound { (n : ℕ) → IsSound (λ _. true) n result }
    ensures depth { budget.new.depth ≡ budget.old.depth }
    ensures left { budget.new.left ≤ budget.old.left }
    ensures counted { steps.new + budget.new.left ≡ steps.old + budget.old.left }
    ensures taken { OnOk result (budget.new.left + count ≡ budget.old.left) }
{
    let spent = kishu_items::spend(count, budget, steps);
    passed(spent)
}

/// Takes so much in steps, so many times.
pub(crate) fn spend_product<L: Ledger>(
    size: usize,
    times: u128,
    budget: &mut Budget,
    steps: &mut Steps<L>,
) -> Result<(), Fault>
    ensures gives { (s : Moment) → Gives (λ u. u) result (placed s budget.new) (spend (size * times) (placed s budget.old)) }
    ensures sound { (n : ℕ) → IsSound (λ _. true) n result }
    ensures depth { budget.new.depth ≡ budget.old.depth }
    ensures left { budget.new.left ≤ budget.old.left }
    ensures counted { steps.new + budget.new.left ≡ steps.old + budget.old.left }
    ensures taken { OnOk result (budget.new.left + size * times ≡ budget.old.left) }
{
    match (size as u128).checked_mul(times) {
        Some(total) => spend_from(total, budget, steps),
        // More steps than there are.
        None => spend_from(budget.left as u128 + 1, budget, steps),
    }
}

/// The same, of a run.
pub(crate) fn spend_times<L: Ledger>(
    machine: &mut Machine,
    size: usize,
    times: u128,
    steps: &mut Steps<L>,
) -> Result<(), Fault>
    ensures gives { Gives (λ u. u) result (moment_of machine.new) (spend (size * times) (moment_of machine.old)) }
    ensures sound { SoundEnd machine.new.heap result }
    ensures kept { GrownBy 0 machine.old steps.old machine.new steps.new }
    ensures counted { steps.new + machine.new.budget.left ≡ steps.old + machine.old.budget.left }
    ensures taken { OnOk result (machine.new.budget.left + size * times ≡ machine.old.budget.left) }
    ensures heap { machine.new.heap ≡ machine.old.heap }
{
    spend_product(size, times, &mut machine.budget, steps)
}
