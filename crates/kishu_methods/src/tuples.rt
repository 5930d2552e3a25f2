// The methods of tuples.
ghost use Rattle.std.specs.Prelude.{◌≡◌, ◌+◌, ◌*◌, ◌≤◌, ◌∷◌, [], map};
ghost use Rattle.kishu_meaning.specs.calls.Methods.{tuple_row};
ghost use Rattle.kishu_meaning.specs.values.Values.{value_of};
ghost use Rattle.kishu_heap.specs.Costs.{Spends};
ghost use Rattle.kishu_methods.specs.Called.{moment_of, tuple_method_of, Gives};

use crate::faults::bad_arguments;
use crate::finding::{count_number, place_number};
use crate::method::TupleMethod;
use kishu_heap::{CallFault, Heap};
use kishu_meaning::{Budget, Steps, Value};
use std::alloc::Global;
use std::sync::ledger::Ledger;

fn with_argument<L: Ledger>(
    alloc: Global,
    method: TupleMethod,
    items: &[Value],
    value: &Value,
    heap: &Heap,
    budget: &mut Budget,
    steps: &mut Steps<L>,
) -> Result<Value, CallFault>
    ensures gives { Gives value_of result (moment_of heap.now budget.new) (tuple_row (tuple_method_of method) (map value_of items.now) (value_of value.now ∷ []) (moment_of heap.now budget.old)) }
    ensures spends { Spends 0 budget.old steps.old budget.new steps.new }
{
    match method {
        TupleMethod::Index => place_number(alloc, value, items, heap, budget, steps),
        TupleMethod::Count => count_number(alloc, value, items, heap, budget, steps),
    }
}

/// A method of a tuple, of whose items it is asked.
pub(crate) fn tuple_method<L: Ledger>(
    alloc: Global,
    method: TupleMethod,
    items: &[Value],
    args: &[Value],
    heap: &Heap,
    budget: &mut Budget,
    steps: &mut Steps<L>,
) -> Result<Value, CallFault>
    ensures gives { Gives value_of result (moment_of heap.now budget.new) (tuple_row (tuple_method_of method) (map value_of items.now) (map value_of args.now) (moment_of heap.now budget.old)) }
    ensures spends { Spends 0 budget.old steps.old budget.new steps.new }
{
    match args {
        [] => bad_arguments(alloc, method),
        [value] => with_argument(alloc, method, items, value, heap, budget, steps),
        [_, _, ..] => bad_arguments(alloc, method),
    }
}
