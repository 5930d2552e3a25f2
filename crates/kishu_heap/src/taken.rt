// Steps of the budget, each counted.
ghost use Rattle.std.specs.Prelude.{◌≡◌, ◌+◌, ◌≤◌};
ghost use Rattle.kishu_meaning.specs.moments.Counting.{spend};
ghost use Rattle.kishu_heap.specs.Compared.{Gives};

use crate::fault::CompareFault;
use kishu_meaning::Steps;
use std::sync::ledger::Ledger;

/// Takes so many steps of `left`, each counted. Where there are fewer it takes all, and answers
/// `Spent`.
pub fn take_steps<L: Ledger>(
    count: usize,
    left: &mut u64,
    steps: &mut Steps<L>,
) -> Result<(), CompareFault>
    ensures gives { Gives result left.new (spend count left.old) }
    ensures counted { steps.new + left.new ≡ steps.old + left.old }
{
    for _ in 0..count {
        if *left == 0 {
            return Err(CompareFault::Spent);
        }
        *left -= 1;
        steps.tick();
    }
    Ok(())
}
