// Calls of classes.
ghost use Rattle.std.specs.Prelude.{◌*◌, ◌-◌, ◌≡◌, ◌≢◌, ◌∷◌, [], ◌+◌, ◌<◌, ◌≤◌, ◌^◌, List, IsTrue, IfOk, length, map};
ghost use Rattle.kishu_meaning.specs.declared.budget.Budget.{Budget};
ghost use Rattle.kishu_meaning.specs.calls.Builtins.{range_from};
ghost use Rattle.kishu_meaning.specs.calls.Callees.{construct, empty_object};
ghost use Rattle.kishu_meaning.specs.comparing.Equal.{number_in};
ghost use Rattle.kishu_meaning.specs.moments.Moment.{Moment};
ghost use Rattle.kishu_meaning.specs.values.Classes.{any_exception, namespace_class, range_class, str_class};
ghost use Rattle.kishu_meaning.specs.values.Sound.{is_sound, are_sound, classes};
ghost use Rattle.kishu_meaning.specs.values.Values as model;
ghost use Rattle.kishu_meaning.specs.values.Values.{value_of};
ghost use Rattle.kishu_heap.specs.Costs.{Grows, GrowsPaid, Spends};
ghost use Rattle.kishu_builtins.specs.Called.{moment_of, Gives, plainly, Unlimited, ThrowsSound};
ghost use Rattle.kishu_items.specs.Contents.{IsGrown};

use crate::making::{
    dict_of, empty_dict, empty_list, empty_tuple, list_of, new_exception, new_object, tuple_of,
};
use crate::reading::{bool_of, number_from, range_between, range_by, range_to};
use kishu_heap::{CallFault, Heap};
use kishu_items::bad_arguments;
use kishu_meaning::{Budget, ClassId, Steps, Value};
use std::alloc::Global;
use std::sync::ledger::Ledger;

// A class that takes at most one argument, without one.
fn empty(alloc: Global, class: ClassId, heap: &mut Heap) -> Result<Value, CallFault>
    requires class { class.0 < any_exception }
    requires not_more { (class.0 ≢ range_class) × (class.0 ≢ namespace_class) }
    requires not_str { class.0 ≢ str_class }
    requires room { length heap.old + 1 < 2 ^ 32 }
    ensures gives { (b : Budget) → Gives value_of result (moment_of heap.new b) (construct class.0 (plainly []) (moment_of heap.old b)) }
    ensures grows { Grows 1 heap.old heap.new }
{
    match class {
        ClassId::BOOL => Ok(Value::Bool(false)),
        ClassId::DICT => empty_dict(alloc, heap),
        ClassId::INT => Ok(Value::Int(0)),
        ClassId::LIST => empty_list(alloc, heap),
        ClassId::TUPLE => empty_tuple(alloc, heap),
        _ => unreachable!(),
    }
}

// A class that takes at most one argument, with it.
fn of_value<L: Ledger>(
    alloc: Global,
    class: ClassId,
    value: &Value,
    heap: &mut Heap,
    budget: &mut Budget,
    steps: &mut Steps<L>,
) -> Result<Value, CallFault>
    requires class { class.0 < any_exception }
    requires not_more { (class.0 ≢ range_class) × (class.0 ≢ namespace_class) }
    requires not_str { class.0 ≢ str_class }
    requires sound { IsTrue (is_sound (length heap.old) (value_of value.now)) }
    requires room { length heap.old + budget.old.left < 2 ^ 32 - 16 }
    ensures gives { Gives value_of result (moment_of heap.new budget.new) (construct class.0 (plainly (value_of value.now ∷ [])) (moment_of heap.old budget.old)) }
    ensures grows { GrowsPaid 1 heap.old budget.old heap.new budget.new }
    ensures spends { Spends 3 budget.old steps.old budget.new steps.new }
{
    match class {
        ClassId::BOOL => bool_of(value, heap, steps),
        ClassId::DICT => dict_of(alloc, value, heap, budget, steps),
        ClassId::INT => number_from(alloc, value, budget, steps),
        ClassId::LIST => list_of(alloc, value, heap, budget, steps),
        ClassId::TUPLE => tuple_of(alloc, value, heap, budget, steps),
        _ => unreachable!(),
    }
}

// A class that takes at most one argument, with more.
fn refused(alloc: Global, class: ClassId) -> Result<Value, CallFault>
    requires class { class.0 < any_exception }
    requires not_more { (class.0 ≢ range_class) × (class.0 ≢ namespace_class) }
    requires not_str { class.0 ≢ str_class }
    ensures { (vs : List model.Value) (s : Moment) → 1 < length vs → Gives value_of result s (construct class.0 (plainly vs) s) }
{
    match class {
        ClassId::BOOL => bad_arguments(alloc, "bool"),
        ClassId::DICT => bad_arguments(alloc, "dict"),
        ClassId::INT => bad_arguments(alloc, "int"),
        ClassId::LIST => bad_arguments(alloc, "list"),
        ClassId::TUPLE => bad_arguments(alloc, "tuple"),
        _ => unreachable!(),
    }
}

// A class that takes at most one argument.
fn of_at_most_one<L: Ledger>(
    alloc: Global,
    class: ClassId,
    args: &[Value],
    heap: &mut Heap,
    budget: &mut Budget,
    steps: &mut Steps<L>,
) -> Result<Value, CallFault>
    requires class { class.0 < any_exception }
    requires not_more { (class.0 ≢ range_class) × (class.0 ≢ namespace_class) }
    requires not_str { class.0 ≢ str_class }
    requires sound { IsTrue (are_sound (length heap.old) (map value_of args.now)) }
    requires room { length heap.old + budget.old.left < 2 ^ 32 - 16 }
    ensures gives { Gives value_of result (moment_of heap.new budget.new) (construct class.0 (plainly (map value_of args.now)) (moment_of heap.old budget.old)) }
    ensures grows { GrowsPaid 1 heap.old budget.old heap.new budget.new }
    ensures spends { Spends 3 budget.old steps.old budget.new steps.new }
{
    if args.is_empty() {
        return empty(alloc, class, heap);
    }
    if args.len() == 1 {
        return of_value(alloc, class, &args[0], heap, budget, steps);
    }
    refused(alloc, class)
}

fn range(alloc: Global, args: &[Value]) -> Result<Value, CallFault>
    ensures { (s : Moment) → Gives value_of result s (range_from (map number_in (map value_of args.now)) s) }
{
    if args.len() == 1 {
        return range_to(alloc, &args[0]);
    }
    if args.len() == 2 {
        return range_between(alloc, &args[0], &args[1]);
    }
    if args.len() == 3 {
        return range_by(alloc, &args[0], &args[1], &args[2]);
    }
    bad_arguments(alloc, "range")
}

fn namespace(alloc: Global, args: &[Value], heap: &mut Heap) -> Result<Value, CallFault>
    requires room { length heap.old + 1 < 2 ^ 32 }
    ensures gives { (b : Budget) → Gives value_of result (moment_of heap.new b) (empty_object (map value_of args.now) (moment_of heap.old b)) }
    ensures grows { Grows 1 heap.old heap.new }
{
    if args.is_empty() {
        return new_object(alloc, heap);
    }
    bad_arguments(alloc, "SimpleNamespace")
}

// A class that isn't one of exceptions, nor `str`.
fn value_of_class<L: Ledger>(
    alloc: Global,
    class: ClassId,
    args: &[Value],
    heap: &mut Heap,
    budget: &mut Budget,
    steps: &mut Steps<L>,
) -> Result<Value, CallFault>
    requires class { class.0 < any_exception }
    requires not_str { class.0 ≢ str_class }
    requires sound { IsTrue (are_sound (length heap.old) (map value_of args.now)) }
    requires room { length heap.old + budget.old.left < 2 ^ 32 - 16 }
    ensures gives { Gives value_of result (moment_of heap.new budget.new) (construct class.0 (plainly (map value_of args.now)) (moment_of heap.old budget.old)) }
    ensures grows { GrowsPaid 1 heap.old budget.old heap.new budget.new }
    ensures spends { Spends 3 budget.old steps.old budget.new steps.new }
{
    match class {
        ClassId::RANGE => range(alloc, args),
        ClassId::SIMPLE_NAMESPACE => namespace(alloc, args, heap),
        _ => of_at_most_one(alloc, class, args, heap, budget, steps),
    }
}

// A class of exceptions.
fn exception_of(
    alloc: Global,
    class: ClassId,
    args: &[Value],
    heap: &mut Heap,
) -> Result<Value, CallFault>
    requires first { any_exception ≤ class.0 }
    requires class { class.0 < classes }
    requires room { length heap.old + 1 < 2 ^ 32 }
    requires sound { IsTrue (are_sound (length heap.old) (map value_of args.now)) }
    ensures gives { (b : Budget) → Gives value_of result (moment_of heap.new b) (construct class.0 (plainly (map value_of args.now)) (moment_of heap.old b)) }
    ensures grows { Grows 1 heap.old heap.new }
{
    new_exception(alloc, class, args, heap)
}

// A class of this number.
fn constructed<L: Ledger>(
    alloc: Global,
    class: ClassId,
    args: &[Value],
    heap: &mut Heap,
    budget: &mut Budget,
    steps: &mut Steps<L>,
) -> Result<Value, CallFault>
    requires class { class.0 < classes }
    requires not_str { class.0 ≢ str_class }
    requires sound { IsTrue (are_sound (length heap.old) (map value_of args.now)) }
    requires room { length heap.old + budget.old.left < 2 ^ 32 - 16 }
    ensures gives { Gives value_of result (moment_of heap.new budget.new) (construct class.0 (plainly (map value_of args.now)) (moment_of heap.old budget.old)) }
    ensures grows { GrowsPaid 1 heap.old budget.old heap.new budget.new }
    ensures spends { Spends 3 budget.old steps.old budget.new steps.new }
{
    if class.0 < ClassId::EXCEPTION.0 {
        value_of_class(alloc, class, args, heap, budget, steps)
    } else {
        exception_of(alloc, class, args, heap)
    }
}

/// What a class but `str` gives, called without keywords (Library Reference, "Built-in Types" and
/// "Built-in Exceptions"). `Raise` is the exception's class and its text, `Spent` says that the
/// budget's steps are taken. At most one node more than steps were taken is new, and none is gone.
/// The nodes that were there are as before, of which `NoMemory` says nothing.
pub fn construct<L: Ledger>(
    alloc: Global,
    class: ClassId,
    args: &[Value],
    heap: &mut Heap,
    budget: &mut Budget,
    steps: &mut Steps<L>,
) -> Result<Value, CallFault>
    requires class { class.0 < classes }
    requires not_str { class.0 ≢ str_class }
    requires sound { IsTrue (are_sound (length heap.old) (map value_of args.now)) }
    requires room { length heap.old + budget.old.left < 2 ^ 32 - 16 }
    ensures gives { Gives value_of result (moment_of heap.new budget.new) (construct class.0 (plainly (map value_of args.now)) (moment_of heap.old budget.old)) }
    ensures sound { IfOk result (λ v. IsTrue (is_sound (length heap.new) (value_of v))) }
    ensures thrown { ThrowsSound (length heap.new) result }
    ensures more { Unlimited result (IsGrown (budget.old.left - budget.new.left + 1) heap.old heap.new) }
    ensures grows { GrowsPaid 1 heap.old budget.old heap.new budget.new }
    ensures spends { Spends 3 budget.old steps.old budget.new steps.new }
{
    constructed(alloc, class, args, heap, budget, steps)
}
