// `sum`.
ghost use Rattle.std.specs.Prelude.{◌*◌, ◌-◌, ◌≡◌, pos, suc, ◌+◌, ◌<◌, ◌≤◌, ◌^◌, IsTrue, length};
ghost use Rattle.kishu_meaning.specs.calls.Builtins.{folded, fold, added};
ghost use Rattle.kishu_meaning.specs.moments.Moment.{Moment, and_then};
ghost use Rattle.kishu_meaning.specs.values.Sound.{is_sound};
ghost use Rattle.kishu_meaning.specs.values.Values.{value_of, integer};
ghost use Rattle.kishu_meaning.specs.items.Walks as walks;
ghost use Rattle.kishu_heap.specs.Costs.{GrowsPaid, Spends};
ghost use Rattle.kishu_builtins.specs.Called.{moment_of, Gives};
ghost use Rattle.kishu_items.specs.Walks.{is_sound_walk, nodes_for, walk_of};

use crate::numbers::number_or_raise;
use crate::walk::visited;
use kishu_heap::{CallFault, Heap};
use kishu_items::{Walk, bad_arguments_text, number_in, raise, walk_of};
use kishu_meaning::{Budget, ClassId, Steps, Value};
use kishu_num::add;
use std::alloc::Global;
use std::sync::ledger::Ledger;

// The sum with a further item.
fn further(alloc: Global, sum: i128, item: &Value) -> Result<i128, CallFault>
    ensures { (s : Moment) → Gives integer result s (added (integer sum) (value_of item.now) s) }
{
    match number_in(item) {
        Some(number) => number_or_raise(alloc, add(sum, number)),
        None => raise(ClassId::TYPE_ERROR, bad_arguments_text(alloc, "sum")?),
    }
}

fn total<L: Ledger>(
    alloc: Global,
    walk: &Walk,
    heap: &mut Heap,
    budget: &mut Budget,
    steps: &mut Steps<L>,
) -> Result<Value, CallFault>
    requires sound { IsTrue (is_sound_walk (length heap.old) (walk_of walk.now)) }
    requires few { nodes_for (walk_of walk.now) ≤ 1 }
    requires room { length heap.old + budget.old.left < 2 ^ 32 - 16 }
    ensures gives { Gives value_of result (moment_of heap.new budget.new) (folded added (suc budget.old.left) (walk_of walk.now) 0 (integer (pos 0)) (moment_of heap.old budget.old)) }
    ensures grows { GrowsPaid 1 heap.old budget.old heap.new budget.new }
    ensures spends { Spends 1 budget.old steps.old budget.new steps.new }
{
    let mut sum = 0;
    for at in 0..budget.left + 1 {
        let Some(item) = visited(alloc, walk, at, heap, budget, steps)? else {
            return Ok(Value::Int(sum));
        };
        sum = further(alloc, sum, &item)?;
    }
    Err(CallFault::Spent)
}

/// The sum of the items, from 0.
pub(crate) fn sum_of<L: Ledger>(
    alloc: Global,
    value: &Value,
    heap: &mut Heap,
    budget: &mut Budget,
    steps: &mut Steps<L>,
) -> Result<Value, CallFault>
    requires sound { IsTrue (is_sound (length heap.old) (value_of value.now)) }
    requires room { length heap.old + budget.old.left < 2 ^ 32 - 16 }
    ensures gives { Gives value_of result (moment_of heap.new budget.new) (and_then (walks.walk_of (value_of value.now) (moment_of heap.old budget.old)) (fold added (integer (pos 0)))) }
    ensures grows { GrowsPaid 1 heap.old budget.old heap.new budget.new }
    ensures spends { Spends 3 budget.old steps.old budget.new steps.new }
{
    let walk = walk_of(alloc, value, heap, steps)?;
    total(alloc, &walk, heap, budget, steps)
}
