// Steps of the budget, each counted.
ghost use Rattle.std.specs.Prelude.{◌≡◌, ◌+◌, ◌≤◌, List, OnOk};
ghost use Rattle.kishu_meaning.specs.values.Values.{Node};
ghost use Rattle.kishu_meaning.specs.moments.Moment.{spend};
ghost use Rattle.kishu_items.specs.Called.{moment_of, Gives};

use kishu_heap::CallFault;
use kishu_meaning::{Budget, Steps};
use std::sync::ledger::Ledger;

/// Takes so many steps. Where there are fewer it takes all, and answers `Spent`.
pub fn spend<L: Ledger>(
    count: u128,
    budget: &mut Budget,
    steps: &mut Steps<L>,
) -> Result<(), CallFault>
    ensures gives { (ns : List Node) → Gives (λ u. u) result (moment_of ns budget.new) (spend count (moment_of ns budget.old)) }
    ensures depth { budget.new.depth ≡ budget.old.depth }
    ensures left { budget.new.left ≤ budget.old.left }
    ensures counted { steps.new + budget.new.left ≡ steps.old + budget.old.left }
    ensures taken { OnOk result (budget.new.left + count ≡ budget.old.left) }
{
    for _ in 0..count {
        if budget.left == 0 {
            return Err(CallFault::Spent);
        }
        budget.left -= 1;
        steps.tick();
    }
    Ok(())
}
