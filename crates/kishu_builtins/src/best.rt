// `max` and `min`.
ghost use Rattle.std.specs.Prelude.{◌*◌, ◌-◌, ◌≡◌, suc, Some, None, ◌∷◌, [], ◌+◌, ◌<◌, ◌≤◌, ◌^◌, List, IsTrue, IfOk, IfSome, OnOk, length, map, option_map};
ghost use Rattle.kishu_meaning.specs.calls.Builtins.{folded, better, best_of, or_empty_argument};
ghost use Rattle.kishu_meaning.specs.comparing.Comparing.{compare, comparison_sign};
ghost use Rattle.kishu_meaning.specs.moments.Counting.{Counted, ended_in};
ghost use Rattle.kishu_meaning.specs.comparing.Equal.{less_in};
ghost use Rattle.kishu_meaning.specs.moments.Moment.{Moment, and_then};
ghost use Rattle.kishu_meaning.specs.calls.Operators.{bad_operands};
ghost use Rattle.kishu_meaning.specs.values.Sound.{is_sound, are_sound};
ghost use Rattle.kishu_meaning.specs.values.Values.{Node, value_of};
ghost use Rattle.kishu_meaning.specs.values.Values as model;
ghost use Rattle.kishu_meaning.specs.items.Walks as walks;
ghost use Rattle.kishu_meaning.specs.items.Walks.{along_tuple};
ghost use Rattle.kishu_heap.specs.Compared.{Orders};
ghost use Rattle.kishu_heap.specs.Costs.{GrowsPaid, Reads, Spends};
ghost use Rattle.kishu_builtins.specs.Called.{moment_of, Gives};
ghost use Rattle.kishu_builtins.specs.Extremes.{comparison_of, before_in, best_name};
ghost use Rattle.kishu_items.specs.Walks.{is_sound_walk, nodes_for, walk_of};
ghost use Rattle.kishu_meaning.specs.declared.budget.Budget.{Budget};

use crate::walk::visited;
use kishu_heap::{CallFault, CompareFault, Heap};
use kishu_items::{Walk, bad_operands_text, copied_all, plain_text, raise, walk_of};
use kishu_meaning::{Budget, ClassId, Steps, Value};
use std::alloc::Global;
use std::sync::ledger::Ledger;

/// Which item is looked for.
#[derive(Clone, Copy, Debug, PartialEq, Eq)]
pub(crate) enum Extreme {
    Greatest,
    Least,
}

impl Extreme {
    /// The builtin function's name.
    pub(crate) fn name(self) -> &'static str
        ensures { result.now ≡ best_name self }
    {
        match self {
            Extreme::Greatest => "max",
            Extreme::Least => "min",
        }
    }

    fn sign(self) -> &'static str
        ensures { result.now ≡ comparison_sign (comparison_of self) }
    {
        match self {
            Extreme::Greatest => ">",
            Extreme::Least => "<",
        }
    }
}

// The TypeError of two values that have no order.
fn bad_operands<L: Ledger>(
    alloc: Global,
    which: Extreme,
    value: &Value,
    best: &Value,
    heap: &Heap,
    steps: &mut Steps<L>,
) -> Result<bool, CallFault>
    requires value { IsTrue (is_sound (length heap.now) (value_of value.now)) }
    requires best { IsTrue (is_sound (length heap.now) (value_of best.now)) }
    ensures gives { (b : Budget) → Gives (λ x. x) result (moment_of heap.now b) (bad_operands (comparison_sign (comparison_of which)) (value_of value.now) (value_of best.now) (moment_of heap.now b)) }
    ensures reads { Reads 2 steps.old steps.new }
{
    raise(
        ClassId::TYPE_ERROR,
        bad_operands_text(alloc, which.sign(), value, best, heap, steps)?,
    )
}

// Whether a value is greater than the best one, or less, as a comparison of the two asks.
fn is_before<L: Ledger>(
    which: Extreme,
    value: &Value,
    best: &Value,
    heap: &Heap,
    budget: &mut Budget,
    steps: &mut Steps<L>,
) -> Result<bool, CompareFault>
    ensures gives { Orders result budget.new.left (before_in which heap.now budget.old.depth (value_of value.now) (value_of best.now) budget.old.left) }
    ensures spends { Spends 8 budget.old steps.old budget.new steps.new }
{
    match which {
        Extreme::Greatest => heap.greater(value, best, budget, steps),
        Extreme::Least => heap.less(value, best, budget, steps),
    }
}

// Whether a value goes before the best one.
fn goes_before<L: Ledger>(
    alloc: Global,
    which: Extreme,
    value: &Value,
    best: &Value,
    heap: &Heap,
    budget: &mut Budget,
    steps: &mut Steps<L>,
) -> Result<bool, CallFault>
    requires value { IsTrue (is_sound (length heap.now) (value_of value.now)) }
    requires best { IsTrue (is_sound (length heap.now) (value_of best.now)) }
    ensures gives { Gives (λ x. x) result (moment_of heap.now budget.new) (compare (comparison_of which) (value_of value.now) (value_of best.now) (moment_of heap.now budget.old)) }
    ensures spends { Spends 10 budget.old steps.old budget.new steps.new }
{
    match is_before(which, value, best, heap, budget, steps) {
        Ok(before) => Ok(before),
        Err(CompareFault::Unordered) => bad_operands(alloc, which, value, best, heap, steps),
        Err(CompareFault::Depth) => {
            raise(
                ClassId::RECURSION_ERROR,
                plain_text(alloc, "depth limit reached")?,
            )
        }
        Err(CompareFault::Spent) => Err(CallFault::Spent),
    }
}

// The better one of the best so far and a value: the first of two that tie.
fn better<L: Ledger>(
    alloc: Global,
    which: Extreme,
    best: Option<Value>,
    value: Value,
    heap: &Heap,
    budget: &mut Budget,
    steps: &mut Steps<L>,
) -> Result<Value, CallFault>
    requires best { IfSome best (λ v. IsTrue (is_sound (length heap.now) (value_of v))) }
    requires value { IsTrue (is_sound (length heap.now) (value_of value)) }
    ensures gives { Gives (λ v. Some (value_of v)) result (moment_of heap.now budget.new) (better (comparison_of which) (option_map value_of best) (value_of value) (moment_of heap.now budget.old)) }
    ensures sound { IfOk result (λ v. IsTrue (is_sound (length heap.now) (value_of v))) }
    ensures spends { Spends 10 budget.old steps.old budget.new steps.new }
{
    let Some(best) = best else {
        return Ok(value);
    };
    if goes_before(alloc, which, &value, &best, heap, budget, steps)? {
        Ok(value)
    } else {
        Ok(best)
    }
}

// The best of all items, where there is one.
fn best_in<L: Ledger>(
    alloc: Global,
    which: Extreme,
    walk: &Walk,
    heap: &mut Heap,
    budget: &mut Budget,
    steps: &mut Steps<L>,
) -> Result<Option<Value>, CallFault>
    requires sound { IsTrue (is_sound_walk (length heap.old) (walk_of walk.now)) }
    requires few { nodes_for (walk_of walk.now) ≤ 1 }
    requires room { length heap.old + budget.old.left < 2 ^ 32 - 16 }
    ensures gives { Gives (option_map value_of) result (moment_of heap.new budget.new) (folded (better (comparison_of which)) (suc budget.old.left) (walk_of walk.now) 0 None (moment_of heap.old budget.old)) }
    ensures sound { IfOk result (λ o. IfSome o (λ v. IsTrue (is_sound (length heap.new) (value_of v)))) }
    ensures grows { GrowsPaid 1 heap.old budget.old heap.new budget.new }
    ensures spends { Spends 1 budget.old steps.old budget.new steps.new }
{
    let mut best = None;
    for at in 0..budget.left + 1 {
        let Some(item) = visited(alloc, walk, at, heap, budget, steps)? else {
            return Ok(best);
        };
        best = Some(better(alloc, which, best, item, heap, budget, steps)?);
    }
    Err(CallFault::Spent)
}

fn best_of<L: Ledger>(
    alloc: Global,
    which: Extreme,
    walk: &Walk,
    heap: &mut Heap,
    budget: &mut Budget,
    steps: &mut Steps<L>,
) -> Result<Value, CallFault>
    requires sound { IsTrue (is_sound_walk (length heap.old) (walk_of walk.now)) }
    requires few { nodes_for (walk_of walk.now) ≤ 1 }
    requires room { length heap.old + budget.old.left < 2 ^ 32 - 16 }
    ensures gives { Gives value_of result (moment_of heap.new budget.new) (best_of (comparison_of which) (walk_of walk.now) (moment_of heap.old budget.old)) }
    ensures sound { IfOk result (λ v. IsTrue (is_sound (length heap.new) (value_of v))) }
    ensures grows { GrowsPaid 1 heap.old budget.old heap.new budget.new }
    ensures spends { Spends 1 budget.old steps.old budget.new steps.new }
{
    match best_in(alloc, which, walk, heap, budget, steps)? {
        Some(best) => Ok(best),
        None => raise(ClassId::VALUE_ERROR, plain_text(alloc, "empty argument")?),
    }
}

/// The greatest or the least of the items of a sequence: the first of those that tie.
pub(crate) fn best_of_items<L: Ledger>(
    alloc: Global,
    which: Extreme,
    value: &Value,
    heap: &mut Heap,
    budget: &mut Budget,
    steps: &mut Steps<L>,
) -> Result<Value, CallFault>
    requires sound { IsTrue (is_sound (length heap.old) (value_of value.now)) }
    requires room { length heap.old + budget.old.left < 2 ^ 32 - 16 }
    ensures gives { Gives value_of result (moment_of heap.new budget.new) (and_then (walks.walk_of (value_of value.now) (moment_of heap.old budget.old)) (best_of (comparison_of which))) }
    ensures sound { IfOk result (λ v. IsTrue (is_sound (length heap.new) (value_of v))) }
    ensures grows { GrowsPaid 1 heap.old budget.old heap.new budget.new }
    ensures spends { Spends 3 budget.old steps.old budget.new steps.new }
{
    let walk = walk_of(alloc, value, heap, steps)?;
    best_of(alloc, which, &walk, heap, budget, steps)
}

/// The greatest or the least of these values: the first of those that tie.
pub(crate) fn best_of_values<L: Ledger>(
    alloc: Global,
    which: Extreme,
    values: &[Value],
    heap: &mut Heap,
    budget: &mut Budget,
    steps: &mut Steps<L>,
) -> Result<Value, CallFault>
    requires sound { IsTrue (are_sound (length heap.old) (map value_of values.now)) }
    requires room { length heap.old + budget.old.left < 2 ^ 32 - 16 }
    ensures gives { Gives value_of result (moment_of heap.new budget.new) (best_of (comparison_of which) (along_tuple (map value_of values.now)) (moment_of heap.old budget.old)) }
    ensures sound { IfOk result (λ v. IsTrue (is_sound (length heap.new) (value_of v))) }
    ensures grows { GrowsPaid 1 heap.old budget.old heap.new budget.new }
    ensures spends { Spends 1 budget.old steps.old budget.new steps.new }
{
    let walk = Walk::Tuple(copied_all(alloc, values)?);
    best_of(alloc, which, &walk, heap, budget, steps)
}
