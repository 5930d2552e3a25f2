// `all` and `any`.
ghost use Rattle.std.specs.Prelude.{◌*◌, ◌-◌, ◌≡◌, suc, ◌+◌, ◌<◌, ◌≤◌, ◌^◌, IsTrue, length};
ghost use Rattle.kishu_meaning.specs.calls.Builtins.{decided, decide};
ghost use Rattle.kishu_meaning.specs.values.Sound.{is_sound};
ghost use Rattle.kishu_meaning.specs.values.Values.{value_of};
ghost use Rattle.kishu_heap.specs.Costs.{GrowsPaid, Spends};
ghost use Rattle.kishu_builtins.specs.Called.{moment_of, Gives};
ghost use Rattle.kishu_items.specs.Walks.{is_sound_walk, nodes_for, walk_of};

use crate::walk::visited;
use kishu_heap::{CallFault, Heap};
use kishu_items::{Walk, is_true, walk_of};
use kishu_meaning::{Budget, Steps, Value};
use std::alloc::Global;
use std::sync::ledger::Ledger;

// The first item of this truth decides.
fn decided<L: Ledger>(
    alloc: Global,
    which: bool,
    walk: &Walk,
    heap: &mut Heap,
    budget: &mut Budget,
    steps: &mut Steps<L>,
) -> Result<Value, CallFault>
    requires sound { IsTrue (is_sound_walk (length heap.old) (walk_of walk.now)) }
    requires few { nodes_for (walk_of walk.now) ≤ 1 }
    requires room { length heap.old + budget.old.left < 2 ^ 32 - 16 }
    ensures gives { Gives value_of result (moment_of heap.new budget.new) (decided which (suc budget.old.left) (walk_of walk.now) 0 (moment_of heap.old budget.old)) }
    ensures grows { GrowsPaid 1 heap.old budget.old heap.new budget.new }
    ensures spends { Spends 1 budget.old steps.old budget.new steps.new }
{
    for at in 0..budget.left + 1 {
        let Some(item) = visited(alloc, walk, at, heap, budget, steps)? else {
            return Ok(Value::Bool(!which));
        };
        if is_true(&item, heap, steps) == which {
            return Ok(Value::Bool(which));
        }
    }
    Err(CallFault::Spent)
}

/// Whether all items are true, or any is: the first item of this truth decides.
pub(crate) fn decide<L: Ledger>(
    alloc: Global,
    which: bool,
    value: &Value,
    heap: &mut Heap,
    budget: &mut Budget,
    steps: &mut Steps<L>,
) -> Result<Value, CallFault>
    requires sound { IsTrue (is_sound (length heap.old) (value_of value.now)) }
    requires room { length heap.old + budget.old.left < 2 ^ 32 - 16 }
    ensures gives { Gives value_of result (moment_of heap.new budget.new) (decide which (value_of value.now) (moment_of heap.old budget.old)) }
    ensures grows { GrowsPaid 1 heap.old budget.old heap.new budget.new }
    ensures spends { Spends 3 budget.old steps.old budget.new steps.new }
{
    let walk = walk_of(alloc, value, heap, steps)?;
    decided(alloc, which, &walk, heap, budget, steps)
}
