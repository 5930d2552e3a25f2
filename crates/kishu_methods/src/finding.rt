// Items that are equal to a value.
ghost use Rattle.std.specs.Prelude.{◌≡◌, ℕ, suc, ◌+◌, ◌*◌, ◌<◌, ◌≤◌, ◌^◌, if◌then◌else◌, IfOk, IfSome, map, length};
ghost use Rattle.kishu_meaning.specs.items.Finding.{place_from, count_from, place_among, count_among};
ghost use Rattle.kishu_meaning.specs.calls.Methods.{place_of_equal, place_number, count_number};
ghost use Rattle.kishu_meaning.specs.values.Values.{value_of};
ghost use Rattle.kishu_heap.specs.Compared as compared;
ghost use Rattle.kishu_heap.specs.Costs.{Spends};
ghost use Rattle.kishu_methods.specs.Called.{moment_of, Gives};

use kishu_heap::{CallFault, CompareFault, Heap};
use kishu_items::{compared, plain_text, raise};
use kishu_meaning::{Budget, ClassId, Steps, Value};
use std::alloc::Global;
use std::sync::ledger::Ledger;

// The place of the first item that is equal to a value.
fn first_equal<L: Ledger>(
    value: &Value,
    items: &[Value],
    heap: &Heap,
    budget: &mut Budget,
    steps: &mut Steps<L>,
) -> Result<Option<usize>, CompareFault>
    ensures gives { compared.Gives result budget.new.left (place_from heap.now budget.old.depth (value_of value.now) 0 (map value_of items.now) budget.old.left) }
    ensures within { IfOk result (λ o. IfSome o (λ place. place < length items.now)) }
    ensures spends { Spends 0 budget.old steps.old budget.new steps.new }
{
    for i in 0..items.len() {
        if heap.is_item(&items[i], value, budget, steps)? {
            return Ok(Some(i));
        }
    }
    Ok(None)
}

fn one_more_if(count: usize, holds: bool) -> usize
    requires { count + 1 < 2 ^ 64 }
    ensures { result ≡ (if holds then suc count else count) }
{
    if holds { count + 1 } else { count }
}

// How many items are equal to a value.
fn all_equal<L: Ledger>(
    value: &Value,
    items: &[Value],
    heap: &Heap,
    budget: &mut Budget,
    steps: &mut Steps<L>,
) -> Result<usize, CompareFault>
    ensures gives { compared.Gives result budget.new.left (count_from heap.now budget.old.depth (value_of value.now) 0 (map value_of items.now) budget.old.left) }
    ensures spends { Spends 0 budget.old steps.old budget.new steps.new }
{
    let mut found = 0;
    for i in 0..items.len() {
        let same = heap.is_item(&items[i], value, budget, steps)?;
        found = one_more_if(found, same);
    }
    Ok(found)
}

fn place_among<L: Ledger>(
    alloc: Global,
    value: &Value,
    items: &[Value],
    heap: &Heap,
    budget: &mut Budget,
    steps: &mut Steps<L>,
) -> Result<Option<usize>, CallFault>
    ensures gives { Gives (λ o. o) result (moment_of heap.now budget.new) (place_among (value_of value.now) (map value_of items.now) (moment_of heap.now budget.old)) }
    ensures within { IfOk result (λ o. IfSome o (λ place. place < length items.now)) }
    ensures spends { Spends 0 budget.old steps.old budget.new steps.new }
{
    compared(alloc, first_equal(value, items, heap, budget, steps))
}

/// The place of the first item that is equal to a value, or a ValueError.
pub(crate) fn place_of_equal<L: Ledger>(
    alloc: Global,
    value: &Value,
    items: &[Value],
    heap: &Heap,
    budget: &mut Budget,
    steps: &mut Steps<L>,
) -> Result<usize, CallFault>
    ensures gives { Gives (λ n. n) result (moment_of heap.now budget.new) (place_of_equal (value_of value.now) (map value_of items.now) (moment_of heap.now budget.old)) }
    ensures within { IfOk result (λ place. place < length items.now) }
    ensures spends { Spends 0 budget.old steps.old budget.new steps.new }
{
    match place_among(alloc, value, items, heap, budget, steps)? {
        Some(place) => Ok(place),
        None => raise(ClassId::VALUE_ERROR, plain_text(alloc, "value not found")?),
    }
}

/// How many items are equal to a value.
pub(crate) fn count_among<L: Ledger>(
    alloc: Global,
    value: &Value,
    items: &[Value],
    heap: &Heap,
    budget: &mut Budget,
    steps: &mut Steps<L>,
) -> Result<usize, CallFault>
    ensures gives { Gives (λ n. n) result (moment_of heap.now budget.new) (count_among (value_of value.now) (map value_of items.now) (moment_of heap.now budget.old)) }
    ensures spends { Spends 0 budget.old steps.old budget.new steps.new }
{
    compared(alloc, all_equal(value, items, heap, budget, steps))
}

/// The place of the first item that is equal to a value, as a value.
pub(crate) fn place_number<L: Ledger>(
    alloc: Global,
    value: &Value,
    items: &[Value],
    heap: &Heap,
    budget: &mut Budget,
    steps: &mut Steps<L>,
) -> Result<Value, CallFault>
    ensures gives { Gives value_of result (moment_of heap.now budget.new) (place_number (value_of value.now) (map value_of items.now) (moment_of heap.now budget.old)) }
    ensures spends { Spends 0 budget.old steps.old budget.new steps.new }
{
    let place = place_of_equal(alloc, value, items, heap, budget, steps)?;
    Ok(Value::Int(place as i128))
}

/// How many items are equal to a value, as a value.
pub(crate) fn count_number<L: Ledger>(
    alloc: Global,
    value: &Value,
    items: &[Value],
    heap: &Heap,
    budget: &mut Budget,
    steps: &mut Steps<L>,
) -> Result<Value, CallFault>
    ensures gives { Gives value_of result (moment_of heap.now budget.new) (count_number (value_of value.now) (map value_of items.now) (moment_of heap.now budget.old)) }
    ensures spends { Spends 0 budget.old steps.old budget.new steps.new }
{
    let count = count_among(alloc, value, items, heap, budget, steps)?;
    Ok(Value::Int(count as i128))
}
