// `sorted`.
ghost use Rattle.std.specs.Prelude.{◌*◌, List, ◌≡◌, ◌+◌, ◌-◌, ◌<◌, ◌≤◌, ◌^◌, IsTrue, OnOk, codes, length, map, unwrap_or};
ghost use Rattle.kishu_meaning.specs.calls.Builtins.{sorted};
ghost use Rattle.kishu_meaning.specs.values.Kinds.{bad_arguments};
ghost use Rattle.kishu_meaning.specs.moments.Moment.{and_then, or_else, spend};
ghost use Rattle.kishu_meaning.specs.calls.Operators.{new_list};
ghost use Rattle.kishu_meaning.specs.items.Sequences.{count_in};
ghost use Rattle.kishu_meaning.specs.items.Sorting.{in_order, sort_steps};
ghost use Rattle.kishu_meaning.specs.values.Sound.{is_sound, are_sound};
ghost use Rattle.kishu_meaning.specs.values.Values as model;
ghost use Rattle.kishu_meaning.specs.values.Values.{value_of};
ghost use Rattle.kishu_meaning.specs.declared.budget.Budget.{Budget};
ghost use Rattle.kishu_heap.specs.Costs.{Grows, GrowsPaid, Spends};
ghost use Rattle.kishu_builtins.specs.Called.{moment_of, Gives};

use kishu_heap::{CallFault, Heap, Node};
use kishu_items::{
    bad_arguments, count_in, in_order, items_of, not_iterable_value, sort_steps, spend,
};
use kishu_meaning::{Budget, Steps, Value};
use std::alloc::Global;
use std::sync::ledger::Ledger;

// The steps for sorting so many items: at least as many.
fn spend_sorting<L: Ledger>(
    count: u128,
    budget: &mut Budget,
    steps: &mut Steps<L>,
) -> Result<(), CallFault>
    requires { budget.old.left < 2 ^ 32 }
    ensures gives { (ns : List model.Node) → Gives (λ u. u) result (moment_of ns budget.new) (spend (sort_steps count) (moment_of ns budget.old)) }
    ensures depth { budget.new.depth ≡ budget.old.depth }
    ensures left { budget.new.left ≤ budget.old.left }
    ensures counted { steps.new + budget.new.left ≡ steps.old + budget.old.left }
    ensures taken { OnOk result (budget.new.left + count ≤ budget.old.left) }
{
    if count > u128::from(budget.left) {
        spend(count, budget, steps)
    } else {
        spend(sort_steps(count as u64), budget, steps)
    }
}

// A new list of the items in order.
fn list_in_order(alloc: Global, items: Vec<Value>, heap: &mut Heap) -> Result<Value, CallFault>
    requires room { length heap.old + 1 < 2 ^ 32 }
    requires sound { IsTrue (are_sound (length heap.old) (map value_of items.items)) }
    ensures gives { (b : Budget) → Gives value_of result (moment_of heap.new b) (and_then (or_else (bad_arguments (codes "sorted")) (in_order (map value_of items.items)) (moment_of heap.old b)) new_list) }
    ensures grows { Grows 1 heap.old heap.new }
{
    match in_order(items)? {
        Some(items) => Ok(Value::Node(heap.make(Node::List(items))?)),
        None => bad_arguments(alloc, "sorted"),
    }
}

/// The items in order, in a new list.
pub(crate) fn sorted_items<L: Ledger>(
    alloc: Global,
    value: &Value,
    heap: &mut Heap,
    budget: &mut Budget,
    steps: &mut Steps<L>,
) -> Result<Value, CallFault>
    requires sound { IsTrue (is_sound (length heap.old) (value_of value.now)) }
    requires room { length heap.old + budget.old.left < 2 ^ 32 - 16 }
    ensures gives { Gives value_of result (moment_of heap.new budget.new) (sorted (value_of value.now) (moment_of heap.old budget.old)) }
    ensures grows { GrowsPaid 1 heap.old budget.old heap.new budget.new }
    ensures spends { Spends 3 budget.old steps.old budget.new steps.new }
{
    let Some(count) = count_in(value, heap, steps) else {
        return not_iterable_value(alloc, value, heap, steps);
    };
    spend_sorting(count, budget, steps)?;
    let items = items_of(alloc, value, heap, budget, steps)?;
    list_in_order(alloc, items, heap)
}
