// Sequences that are visited item by item.
ghost use Rattle.std.specs.Prelude.{◌*◌, ◌+◌, ◌-◌, ◌<◌, ◌≤◌, ◌^◌, IsTrue, IfOk, IfSome, length, option_map};
ghost use Rattle.kishu_meaning.specs.values.Sound.{is_sound};
ghost use Rattle.kishu_meaning.specs.values.Values.{value_of};
ghost use Rattle.kishu_heap.specs.Costs.{GrowsPaid, Spends};
ghost use Rattle.kishu_items.specs.Walks.{is_sound_walk, nodes_for, walk_of};
ghost use Rattle.kishu_builtins.specs.Called.{moment_of, Gives};
ghost use Rattle.kishu_builtins.specs.Walking.{visited};

use kishu_heap::{CallFault, Heap};
use kishu_items::{Walk, item_for, spend};
use kishu_meaning::{Budget, Steps, Value};
use std::alloc::Global;
use std::sync::ledger::Ledger;

/// The item for this turn, where there is one: it takes a step.
pub(crate) fn visited<L: Ledger>(
    alloc: Global,
    walk: &Walk,
    at: u64,
    heap: &mut Heap,
    budget: &mut Budget,
    steps: &mut Steps<L>,
) -> Result<Option<Value>, CallFault>
    requires sound { IsTrue (is_sound_walk (length heap.old) (walk_of walk.now)) }
    requires few { nodes_for (walk_of walk.now) ≤ 1 }
    requires room { length heap.old + budget.old.left < 2 ^ 32 - 16 }
    ensures gives { Gives (option_map value_of) result (moment_of heap.new budget.new) (visited (walk_of walk.now) at (moment_of heap.old budget.old)) }
    ensures sound { IfOk result (λ o. IfSome o (λ v. IsTrue (is_sound (length heap.new) (value_of v)))) }
    ensures walk { IfOk result (λ o. IfSome o (λ _. IsTrue (is_sound_walk (length heap.new) (walk_of walk.now)))) }
    ensures room { IfOk result (λ o. IfSome o (λ _. length heap.new + budget.new.left ≤ length heap.old + budget.old.left)) }
    ensures paid { IfOk result (λ o. IfSome o (λ _. 24 * budget.new.left + steps.new + 22 ≤ 24 * budget.old.left + steps.old)) }
    ensures grows { GrowsPaid 1 heap.old budget.old heap.new budget.new }
    ensures spends { Spends 1 budget.old steps.old budget.new steps.new }
{
    let Some(item) = item_for(alloc, walk, at as usize, heap, budget, steps)? else {
        return Ok(None);
    };
    spend(1, budget, steps)?;
    Ok(Some(item))
}
