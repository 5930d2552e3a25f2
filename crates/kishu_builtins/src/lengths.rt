// `len`.
ghost use Rattle.std.specs.Prelude.{◌≤◌, ◌+◌, IsTrue, length};
ghost use Rattle.kishu_meaning.specs.declared.budget.Budget.{Budget};
ghost use Rattle.kishu_meaning.specs.calls.Builtins.{length_of};
ghost use Rattle.kishu_meaning.specs.values.Sound.{is_sound};
ghost use Rattle.kishu_meaning.specs.values.Values.{value_of};
ghost use Rattle.kishu_heap.specs.Costs.{Reads};
ghost use Rattle.kishu_builtins.specs.Called.{moment_of, Gives};

use crate::numbers::whole;
use kishu_heap::{CallFault, Heap};
use kishu_items::{bad_arguments, count_in};
use kishu_meaning::{Steps, Value};
use std::alloc::Global;
use std::sync::ledger::Ledger;

/// How many items there are.
pub(crate) fn length_of<L: Ledger>(
    alloc: Global,
    value: &Value,
    heap: &Heap,
    steps: &mut Steps<L>,
) -> Result<Value, CallFault>
    requires sound { IsTrue (is_sound (length heap.now) (value_of value.now)) }
    ensures gives { (b : Budget) → Gives value_of result (moment_of heap.now b) (length_of (value_of value.now) (moment_of heap.now b)) }
    ensures reads { Reads 1 steps.old steps.new }
{
    match count_in(value, heap, steps) {
        Some(count) => whole(alloc, count),
        None => bad_arguments(alloc, "len"),
    }
}
