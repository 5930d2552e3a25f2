// Calls of builtin functions.
ghost use Rattle.std.specs.Prelude.{◌*◌, ◌-◌, ◌≡◌, ◌≢◌, ◌∷◌, [], ◌+◌, ◌<◌, ◌≤◌, ◌^◌, List, IsTrue, IfOk, codes, length, map};
ghost use Rattle.kishu_meaning.specs.declared.budget.Budget.{Budget};
ghost use Rattle.kishu_meaning.specs.calls.Builtins as builtins;
ghost use Rattle.kishu_meaning.specs.calls.Builtins.{of_two, divided_by, is_instance};
ghost use Rattle.kishu_meaning.specs.calls.Callees.{call_builtin};
ghost use Rattle.kishu_meaning.specs.moments.Moment.{Moment};
ghost use Rattle.kishu_meaning.specs.values.BuiltinNames as functions;
ghost use Rattle.kishu_meaning.specs.values.BuiltinNames.{builtin_number};
ghost use Rattle.kishu_meaning.specs.values.Sound as soundness;
ghost use Rattle.kishu_meaning.specs.values.Sound.{is_sound, are_sound};
ghost use Rattle.kishu_meaning.specs.values.Values as model;
ghost use Rattle.kishu_meaning.specs.values.Values.{value_of};
ghost use Rattle.kishu_heap.specs.Costs.{Grows, GrowsPaid, Reads, Spends};
ghost use Rattle.kishu_builtins.specs.Called.{moment_of, Gives, plainly, Unlimited, ThrowsSound};
ghost use Rattle.kishu_items.specs.Contents.{IsGrown};
ghost use Rattle.kishu_builtins.specs.Extremes.{comparison_of, best_name};

use crate::best::{Extreme, best_of_items, best_of_values};
use crate::characters::{chr, ord};
use crate::deciding::decide;
use crate::instances::is_instance;
use crate::lengths::length_of;
use crate::numbers::{abs, divmod};
use crate::sorted::sorted_items;
use crate::sums::sum_of;
use kishu_heap::{CallFault, Heap};
use kishu_items::bad_arguments;
use kishu_meaning::{Budget, Builtin, Steps, Value};
use std::alloc::Global;
use std::sync::ledger::Ledger;

// A function that takes just one argument, with it.
fn with_one<L: Ledger>(
    alloc: Global,
    which: Builtin,
    value: &Value,
    heap: &mut Heap,
    budget: &mut Budget,
    steps: &mut Steps<L>,
) -> Result<Value, CallFault>
    requires which { which.0 < soundness.builtins }
    requires not_two { (which.0 ≢ builtin_number functions.divmod) × (which.0 ≢ builtin_number functions.isinstance) }
    requires not_best { (which.0 ≢ builtin_number functions.max) × (which.0 ≢ builtin_number functions.min) }
    requires not_text { (which.0 ≢ builtin_number functions.print) × (which.0 ≢ builtin_number functions.repr) }
    requires sound { IsTrue (is_sound (length heap.old) (value_of value.now)) }
    requires room { length heap.old + budget.old.left < 2 ^ 32 - 16 }
    ensures gives { Gives value_of result (moment_of heap.new budget.new) (call_builtin which.0 (plainly (value_of value.now ∷ [])) (moment_of heap.old budget.old)) }
    ensures grows { GrowsPaid 1 heap.old budget.old heap.new budget.new }
    ensures spends { Spends 3 budget.old steps.old budget.new steps.new }
{
    match which {
        Builtin::ABS => abs(alloc, value),
        Builtin::ALL => decide(alloc, false, value, heap, budget, steps),
        Builtin::ANY => decide(alloc, true, value, heap, budget, steps),
        Builtin::CHR => chr(alloc, value),
        Builtin::LEN => length_of(alloc, value, heap, steps),
        Builtin::ORD => ord(alloc, value),
        Builtin::SORTED => sorted_items(alloc, value, heap, budget, steps),
        Builtin::SUM => sum_of(alloc, value, heap, budget, steps),
        _ => unreachable!(),
    }
}

// A function that takes just one argument, with another number of them.
fn refused(alloc: Global, which: Builtin) -> Result<Value, CallFault>
    requires which { which.0 < soundness.builtins }
    requires not_two { (which.0 ≢ builtin_number functions.divmod) × (which.0 ≢ builtin_number functions.isinstance) }
    requires not_best { (which.0 ≢ builtin_number functions.max) × (which.0 ≢ builtin_number functions.min) }
    requires not_text { (which.0 ≢ builtin_number functions.print) × (which.0 ≢ builtin_number functions.repr) }
    ensures { (vs : List model.Value) (s : Moment) → length vs ≢ 1 → Gives value_of result s (call_builtin which.0 (plainly vs) s) }
{
    match which {
        Builtin::ABS => bad_arguments(alloc, "abs"),
        Builtin::ALL => bad_arguments(alloc, "all"),
        Builtin::ANY => bad_arguments(alloc, "any"),
        Builtin::CHR => bad_arguments(alloc, "chr"),
        Builtin::LEN => bad_arguments(alloc, "len"),
        Builtin::ORD => bad_arguments(alloc, "ord"),
        Builtin::SORTED => bad_arguments(alloc, "sorted"),
        Builtin::SUM => bad_arguments(alloc, "sum"),
        _ => unreachable!(),
    }
}

// A function that takes just one argument.
fn single<L: Ledger>(
    alloc: Global,
    which: Builtin,
    args: &[Value],
    heap: &mut Heap,
    budget: &mut Budget,
    steps: &mut Steps<L>,
) -> Result<Value, CallFault>
    requires which { which.0 < soundness.builtins }
    requires not_two { (which.0 ≢ builtin_number functions.divmod) × (which.0 ≢ builtin_number functions.isinstance) }
    requires not_best { (which.0 ≢ builtin_number functions.max) × (which.0 ≢ builtin_number functions.min) }
    requires not_text { (which.0 ≢ builtin_number functions.print) × (which.0 ≢ builtin_number functions.repr) }
    requires sound { IsTrue (are_sound (length heap.old) (map value_of args.now)) }
    requires room { length heap.old + budget.old.left < 2 ^ 32 - 16 }
    ensures gives { Gives value_of result (moment_of heap.new budget.new) (call_builtin which.0 (plainly (map value_of args.now)) (moment_of heap.old budget.old)) }
    ensures grows { GrowsPaid 1 heap.old budget.old heap.new budget.new }
    ensures spends { Spends 3 budget.old steps.old budget.new steps.new }
{
    if args.len() != 1 {
        return refused(alloc, which);
    }
    with_one(alloc, which, &args[0], heap, budget, steps)
}

fn quotient_and_remainder(
    alloc: Global,
    args: &[Value],
    heap: &mut Heap,
) -> Result<Value, CallFault>
    requires room { length heap.old + 1 < 2 ^ 32 }
    ensures gives { (b : Budget) → Gives value_of result (moment_of heap.new b) (of_two (codes "divmod") divided_by (map value_of args.now) (moment_of heap.old b)) }
    ensures grows { Grows 1 heap.old heap.new }
{
    if args.len() != 2 {
        return bad_arguments(alloc, "divmod");
    }
    divmod(alloc, &args[0], &args[1], heap)
}

fn instance<L: Ledger>(
    alloc: Global,
    args: &[Value],
    heap: &Heap,
    steps: &mut Steps<L>,
) -> Result<Value, CallFault>
    requires sound { IsTrue (are_sound (length heap.now) (map value_of args.now)) }
    ensures gives { (b : Budget) → Gives value_of result (moment_of heap.now b) (of_two (codes "isinstance") is_instance (map value_of args.now) (moment_of heap.now b)) }
    ensures reads { Reads 2 steps.old steps.new }
{
    if args.len() != 2 {
        return bad_arguments(alloc, "isinstance");
    }
    is_instance(alloc, &args[0], &args[1], heap, steps)
}

fn best<L: Ledger>(
    alloc: Global,
    which: Extreme,
    args: &[Value],
    heap: &mut Heap,
    budget: &mut Budget,
    steps: &mut Steps<L>,
) -> Result<Value, CallFault>
    requires sound { IsTrue (are_sound (length heap.old) (map value_of args.now)) }
    requires room { length heap.old + budget.old.left < 2 ^ 32 - 16 }
    ensures gives { Gives value_of result (moment_of heap.new budget.new) (builtins.best (best_name which) (comparison_of which) (map value_of args.now) (moment_of heap.old budget.old)) }
    ensures sound { IfOk result (λ v. IsTrue (is_sound (length heap.new) (value_of v))) }
    ensures grows { GrowsPaid 1 heap.old budget.old heap.new budget.new }
    ensures spends { Spends 3 budget.old steps.old budget.new steps.new }
{
    if args.is_empty() {
        return bad_arguments(alloc, which.name());
    }
    if args.len() == 1 {
        return best_of_items(alloc, which, &args[0], heap, budget, steps);
    }
    best_of_values(alloc, which, args, heap, budget, steps)
}

// The function of this number.
fn called<L: Ledger>(
    alloc: Global,
    which: Builtin,
    args: &[Value],
    heap: &mut Heap,
    budget: &mut Budget,
    steps: &mut Steps<L>,
) -> Result<Value, CallFault>
    requires which { which.0 < soundness.builtins }
    requires not_print { which.0 ≢ builtin_number functions.print }
    requires not_repr { which.0 ≢ builtin_number functions.repr }
    requires sound { IsTrue (are_sound (length heap.old) (map value_of args.now)) }
    requires room { length heap.old + budget.old.left < 2 ^ 32 - 16 }
    ensures gives { Gives value_of result (moment_of heap.new budget.new) (call_builtin which.0 (plainly (map value_of args.now)) (moment_of heap.old budget.old)) }
    ensures sound { IfOk result (λ v. IsTrue (is_sound (length heap.new) (value_of v))) }
    ensures grows { GrowsPaid 1 heap.old budget.old heap.new budget.new }
    ensures spends { Spends 3 budget.old steps.old budget.new steps.new }
{
    match which {
        Builtin::DIVMOD => quotient_and_remainder(alloc, args, heap),
        Builtin::ISINSTANCE => instance(alloc, args, heap, steps),
        Builtin::MAX => best(alloc, Extreme::Greatest, args, heap, budget, steps),
        Builtin::MIN => best(alloc, Extreme::Least, args, heap, budget, steps),
        _ => single(alloc, which, args, heap, budget, steps),
    }
}

/// What a builtin function but `print` and `repr` gives, called without keywords (Library Reference,
/// "Built-in Functions"). `Raise` is the exception's class and its text, `Spent` says that the
/// budget's steps are taken. At most one node more than steps were taken is new, and none is gone.
/// The nodes that were there are as before, of which `NoMemory` says nothing.
pub fn call_builtin<L: Ledger>(
    alloc: Global,
    which: Builtin,
    args: &[Value],
    heap: &mut Heap,
    budget: &mut Budget,
    steps: &mut Steps<L>,
) -> Result<Value, CallFault>
    requires which { which.0 < soundness.builtins }
    requires not_print { which.0 ≢ builtin_number functions.print }
    requires not_repr { which.0 ≢ builtin_number functions.repr }
    requires sound { IsTrue (are_sound (length heap.old) (map value_of args.now)) }
    requires room { length heap.old + budget.old.left < 2 ^ 32 - 16 }
    ensures gives { Gives value_of result (moment_of heap.new budget.new) (call_builtin which.0 (plainly (map value_of args.now)) (moment_of heap.old budget.old)) }
    ensures sound { IfOk result (λ v. IsTrue (is_sound (length heap.new) (value_of v))) }
    ensures thrown { ThrowsSound (length heap.new) result }
    ensures more { Unlimited result (IsGrown (budget.old.left - budget.new.left + 1) heap.old heap.new) }
    ensures grows { GrowsPaid 1 heap.old budget.old heap.new budget.new }
    ensures spends { Spends 3 budget.old steps.old budget.new steps.new }
{
    called(alloc, which, args, heap, budget, steps)
}
