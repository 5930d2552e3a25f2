// Comparisons (Python Language Reference 3, "Comparisons").
ghost use Rattle.std.specs.List.{list_all};
ghost use Rattle.std.specs.Prelude.{Bool, Err, IsTrue, Option, is_some, map, nat_lt, not, true, ℕ, ◌*◌, ◌-ℤ◌, ◌<◌, ◌≡◌};
ghost use Rattle.std.specs.Str.{chars};
ghost use Rattle.kishu_meaning.specs.comparing.Comparing.{among, compare, comparison_sign, identical, in_node, in_range, is_number_of, member, or_unordered, part_in};
ghost use Rattle.kishu_meaning.specs.moments.Counting.{Counted, ended_in};
ghost use Rattle.kishu_meaning.specs.comparing.Equal.{equal, greater, less, number_in};
ghost use Rattle.kishu_meaning.specs.moments.Moment.{Ends, Moment, and_then, give, node_now, ◌>>=◌ as ◌⊳◌};
ghost use Rattle.kishu_meaning.specs.items.KeyOf.{key_of_value};
ghost use Rattle.kishu_meaning.specs.values.Keys.{is_one, key_of};
ghost use Rattle.kishu_meaning.specs.values.Kinds.{not_iterable};
ghost use Rattle.kishu_meaning.specs.values.Nodes.{value_at};
ghost use Rattle.kishu_meaning.specs.calls.Operators.{bad_operands};
ghost use Rattle.kishu_meaning.specs.values.Values.{value_of};
ghost use Rattle.kishu_heap.specs.Cells.{entries_of};
ghost use Rattle.kishu_machine.specs.Forms.{is_step_on, natural};
ghost use Rattle.kishu_machine.specs.Machine.{Gives, IsSound, moment_of, placed_in, Costs};
ghost use Rattle.kishu_machine.specs.Clauses.{IsSoundIn, SoundEnd};
ghost use Rattle.kishu_heap.specs.Costs.{Reads, Spends};
ghost use Rattle.kishu_heap.specs.Compared as compared;
ghost use Rattle.kishu_meaning.specs.values.Values as model;

use crate::fault::{Fault, passed};
use crate::machine::Machine;
use crate::nodes::node_at;
use crate::operators::text_from;
use crate::raising::{bad_operands, not_iterable};
use crate::spending::spend_times;
use crate::stepping::{spend, too_deep};
use indexmap::IndexMap;
use kishu_heap::{CompareFault, Heap, Node, is_same, pair_steps};
use kishu_items::number_in;
use kishu_language::Comparison;
use kishu_meaning::{Budget, Key, Steps, Value};
use kishu_text::{count, find};
use std::alloc::Global;
use std::sync::ledger::Ledger;

fn comparison_sign(comparison: Comparison) -> &'static str
    ensures is { result.now ≡ comparison_sign comparison }
    ensures ascii { IsTrue (list_all (λ c. nat_lt c 128) result.now) }
{
    match comparison {
        Comparison::Less => "<",
        Comparison::LessEqual => "<=",
        Comparison::Greater => ">",
        Comparison::GreaterEqual => ">=",
        Comparison::Equal => "==",
        Comparison::NotEqual => "!=",
        Comparison::In => "in",
        Comparison::NotIn => "not in",
        Comparison::Is => "is",
        Comparison::IsNot => "is not",
    }
}

// The TypeError for operands that a comparison doesn't take.
fn no_comparison<L: Ledger>(
    machine: &Machine,
    comparison: Comparison,
    a: &Value,
    b: &Value,
    steps: &mut Steps<L>,
) -> Result<bool, Fault>
    requires sound_a { IsSoundIn machine.now.heap a.now }
    requires sound_b { IsSoundIn machine.now.heap b.now }
    ensures gives { Gives (λ b. b) result (moment_of machine.now) (bad_operands (comparison_sign comparison) (value_of a.now) (value_of b.now) (moment_of machine.now)) }
    ensures sound { SoundEnd machine.now.heap result }
    ensures reads { Reads 2 steps.old steps.new }
{
    bad_operands(machine, comparison_sign(comparison), a, b, steps)
}

// The TypeError for a value that has no items.
fn no_items<L: Ledger>(
    machine: &Machine,
    value: &Value,
    steps: &mut Steps<L>,
) -> Result<bool, Fault>
    requires sound { IsSoundIn machine.now.heap value.now }
    ensures gives { Gives (λ b. b) result (moment_of machine.now) (not_iterable (value_of value.now) (moment_of machine.now)) }
    ensures sound { SoundEnd machine.now.heap result }
    ensures reads { Reads 2 steps.old steps.new }
{
    not_iterable(machine, value, steps)
}

// What a comparison that has an answer ends with.
fn answered(alloc: Global, answer: Result<bool, CompareFault>) -> Result<bool, Fault>
    ensures gives { (s : Moment) (left : ℕ) (e : Counted Bool) → compared.Gives answer left e → Gives (λ b. b) result (record s { left = left }) (ended_in s e) }
    ensures sound { (n left : ℕ) (e : Counted Bool) → compared.Gives answer left e → IsSound (λ _. true) n result }
{
    passed(kishu_items::compared(alloc, answer))
}

fn equal<L: Ledger>(
    machine: &mut Machine,
    a: &Value,
    b: &Value,
    steps: &mut Steps<L>,
) -> Result<bool, Fault>
    ensures gives { Gives (λ b. b) result (moment_of machine.new) (equal (value_of a.now) (value_of b.now) (moment_of machine.old)) }
    ensures sound { SoundEnd machine.new.heap result }
    ensures costs { Costs 0 8 machine.old steps.old machine.new steps.new }
    ensures heap { machine.new.heap ≡ machine.old.heap }
{
    let answer = machine.heap.equal(a, b, &mut machine.budget, steps);
    answered(machine.alloc, answer)
}

// How a comparison by order ends that has no answer.
fn unanswered<L: Ledger>(
    machine: &Machine,
    comparison: Comparison,
    fault: CompareFault,
    a: &Value,
    b: &Value,
    steps: &mut Steps<L>,
) -> Result<bool, Fault>
    requires sound_a { IsSoundIn machine.now.heap a.now }
    requires sound_b { IsSoundIn machine.now.heap b.now }
    ensures gives { (e : Counted (Option Bool)) → compared.Orders (Err fault) machine.now.budget.left e → Gives (λ b. b) result (moment_of machine.now) (and_then (ended_in (moment_of machine.now) e) (or_unordered comparison (value_of a.now) (value_of b.now))) }
    ensures sound { SoundEnd machine.now.heap result }
    ensures reads { Reads 2 steps.old steps.new }
{
    match fault {
        CompareFault::Unordered => no_comparison(machine, comparison, a, b, steps),
        CompareFault::Depth => too_deep(machine.alloc),
        CompareFault::Spent => Err(Fault::Stopped),
    }
}

// What a comparison by order ends with.
fn ordered<L: Ledger>(
    machine: &Machine,
    comparison: Comparison,
    answer: Result<bool, CompareFault>,
    a: &Value,
    b: &Value,
    steps: &mut Steps<L>,
) -> Result<bool, Fault>
    requires sound_a { IsSoundIn machine.now.heap a.now }
    requires sound_b { IsSoundIn machine.now.heap b.now }
    ensures gives { (e : Counted (Option Bool)) → compared.Orders answer machine.now.budget.left e → Gives (λ b. b) result (moment_of machine.now) (and_then (ended_in (moment_of machine.now) e) (or_unordered comparison (value_of a.now) (value_of b.now))) }
    ensures sound { SoundEnd machine.now.heap result }
    ensures reads { Reads 2 steps.old steps.new }
{
    match answer {
        Ok(holds) => Ok(holds),
        Err(fault) => unanswered(machine, comparison, fault, a, b, steps),
    }
}

// Whether one is less than the other.
fn less<L: Ledger>(
    machine: &mut Machine,
    comparison: Comparison,
    a: &Value,
    b: &Value,
    steps: &mut Steps<L>,
) -> Result<bool, Fault>
    requires sound_a { IsSoundIn machine.old.heap a.now }
    requires sound_b { IsSoundIn machine.old.heap b.now }
    ensures gives { Gives (λ b. b) result (moment_of machine.new) ((less (value_of a.now) (value_of b.now) ⊳ or_unordered comparison (value_of a.now) (value_of b.now)) (moment_of machine.old)) }
    ensures sound { SoundEnd machine.new.heap result }
    ensures costs { Costs 0 10 machine.old steps.old machine.new steps.new }
    ensures heap { machine.new.heap ≡ machine.old.heap }
{
    let answer = machine.heap.less(a, b, &mut machine.budget, steps);
    ordered(machine, comparison, answer, a, b, steps)
}

// Whether one is greater than the other.
fn greater<L: Ledger>(
    machine: &mut Machine,
    comparison: Comparison,
    a: &Value,
    b: &Value,
    steps: &mut Steps<L>,
) -> Result<bool, Fault>
    requires sound_a { IsSoundIn machine.old.heap a.now }
    requires sound_b { IsSoundIn machine.old.heap b.now }
    ensures gives { Gives (λ b. b) result (moment_of machine.new) ((greater (value_of a.now) (value_of b.now) ⊳ or_unordered comparison (value_of a.now) (value_of b.now)) (moment_of machine.old)) }
    ensures sound { SoundEnd machine.new.heap result }
    ensures costs { Costs 0 10 machine.old steps.old machine.new steps.new }
    ensures heap { machine.new.heap ≡ machine.old.heap }
{
    let answer = machine.heap.greater(a, b, &mut machine.budget, steps);
    ordered(machine, comparison, answer, a, b, steps)
}

fn identical<L: Ledger>(
    machine: &mut Machine,
    a: &Value,
    b: &Value,
    steps: &mut Steps<L>,
) -> Result<bool, Fault>
    ensures gives { Gives (λ b. b) result (moment_of machine.new) (identical (value_of a.now) (value_of b.now) (moment_of machine.old)) }
    ensures sound { SoundEnd machine.new.heap result }
    ensures costs { Costs 0 0 machine.old steps.old machine.new steps.new }
    ensures heap { machine.new.heap ≡ machine.old.heap }
{
    spend(machine, pair_steps(a, b) as u128, steps)?;
    Ok(is_same(a, b))
}

// ---- `in`

// Whether a text has another one as a part. It takes the product of the lengths in steps, the
// part's taken as at least 1.
fn part_in<L: Ledger>(
    machine: &mut Machine,
    part: &str,
    text: &str,
    steps: &mut Steps<L>,
) -> Result<bool, Fault>
    ensures gives { Gives (λ b. b) result (moment_of machine.new) (part_in (chars part.now) (chars text.now) (moment_of machine.old)) }
    ensures sound { SoundEnd machine.new.heap result }
    ensures costs { Costs 0 0 machine.old steps.old machine.new steps.new }
    ensures heap { machine.new.heap ≡ machine.old.heap }
{
    let width = count(part).max(1) as u128;
    spend_times(machine, count(text), width, steps)?;
    Ok(find(text, part).is_some())
}

// Whether one of the items is the value or equals it.
fn among<L: Ledger>(
    alloc: Global,
    value: &Value,
    items: &[Value],
    heap: &Heap,
    budget: &mut Budget,
    steps: &mut Steps<L>,
) -> Result<bool, Fault>
    ensures gives { (s : Moment) → Gives (λ b. b) result (placed_in s heap.now budget.new) (among (value_of value.now) (map value_of items.now) (placed_in s heap.now budget.old)) }
    ensures spends { Spends 0 budget.old steps.old budget.new steps.new }
    ensures sound { (n : ℕ) → IsSound (λ _. true) n result }
{
    for item in items {
        let answer = heap.is_item(item, value, budget, steps);
        if answered(alloc, answer)? {
            return Ok(true);
        }
    }
    Ok(false)
}

// How far a number lies above another, where it doesn't lie below it.
fn rise(from: i128, to: i128) -> Option<u128>
    ensures { result ≡ natural (to -ℤ from) }
{
    if from <= to {
        return Some(to.abs_diff(from));
    }
    None
}

// Whether so far is a whole number of steps, and less far than the end.
fn is_step_on(distance: Option<u128>, end: Option<u128>, step: u128) -> bool
    requires { 0 < step }
    ensures { result ≡ is_step_on distance end step }
{
    let Some(distance) = distance else {
        return false;
    };
    let Some(end) = end else {
        return false;
    };
    distance < end && distance % step == 0
}

fn is_above(number: i128, start: i128, stop: i128, step: u128) -> bool
    requires { 0 < step }
    ensures { result ≡ is_step_on (natural (number -ℤ start)) (natural (stop -ℤ start)) step }
{
    is_step_on(rise(start, number), rise(start, stop), step)
}

fn is_below(number: i128, start: i128, stop: i128, step: u128) -> bool
    requires { 0 < step }
    ensures { result ≡ is_step_on (natural (start -ℤ number)) (natural (start -ℤ stop)) step }
{
    is_step_on(rise(number, start), rise(stop, start), step)
}

// A number of a range lies at a whole number of steps from its start.
fn is_number_of(number: i128, start: i128, stop: i128, step: i128) -> bool
    ensures { result ≡ is_number_of number start stop step }
{
    let size = step.unsigned_abs();
    if step > 0 {
        return is_above(number, start, stop, size);
    }
    if step < 0 {
        return is_below(number, start, stop, size);
    }
    false
}

fn is_key(entries: &IndexMap<Key, Value>, key: &Key) -> bool
    ensures { result ≡ is_some (value_at is_one (key_of key.now) (entries_of entries.now.entries)) }
{
    entries.get(key).is_some()
}

// The key that a value is, while the heap is read.
fn key_in<L: Ledger>(
    alloc: Global,
    value: &Value,
    heap: &Heap,
    budget: &mut Budget,
    steps: &mut Steps<L>,
) -> Result<Key, Fault>
    requires sound { IsSoundIn heap.now value.now }
    ensures gives { (s : Moment) → Gives key_of result (placed_in s heap.now budget.new) (key_of_value (value_of value.now) (placed_in s heap.now budget.old)) }
    ensures sound { SoundEnd heap.now result }
    ensures spends { Spends 2 budget.old steps.old budget.new steps.new }
{
    let key = kishu_items::key_of(alloc, value, heap, budget, steps);
    passed(key)
}

// Whether a dict has a value as one of its keys.
fn has_key<L: Ledger>(
    alloc: Global,
    value: &Value,
    entries: &IndexMap<Key, Value>,
    heap: &Heap,
    budget: &mut Budget,
    steps: &mut Steps<L>,
) -> Result<bool, Fault>
    requires sound { IsSoundIn heap.now value.now }
    ensures gives { (s : Moment) → Gives (λ b. b) result (placed_in s heap.now budget.new) ((key_of_value (value_of value.now) ⊳ λ k. give (is_some (value_at is_one k (entries_of entries.now.entries)))) (placed_in s heap.now budget.old)) }
    ensures sound { SoundEnd heap.now result }
    ensures spends { Spends 2 budget.old steps.old budget.new steps.new }
{
    let key = key_in(alloc, value, heap, budget, steps)?;
    Ok(is_key(entries, &key))
}

fn in_node<L: Ledger>(
    machine: &mut Machine,
    a: &Value,
    b: &Value,
    steps: &mut Steps<L>,
) -> Result<bool, Fault>
    requires sound_a { IsSoundIn machine.old.heap a.now }
    requires sound_b { IsSoundIn machine.old.heap b.now }
    ensures gives { Gives (λ b. b) result (moment_of machine.new) ((node_now (value_of b.now) ⊳ in_node (value_of a.now) (value_of b.now)) (moment_of machine.old)) }
    ensures sound { SoundEnd machine.new.heap result }
    ensures costs { Costs 0 3 machine.old steps.old machine.new steps.new }
    ensures heap { machine.new.heap ≡ machine.old.heap }
{
    let (alloc, heap, budget) = (machine.alloc, &machine.heap, &mut machine.budget);
    match node_at(heap, b, steps) {
        Some(Node::List(items)) => among(alloc, a, items.as_slice(), heap, budget, steps),
        Some(Node::Tuple(items)) => among(alloc, a, items.as_slice(), heap, budget, steps),
        Some(Node::Dict(entries)) => has_key(alloc, a, entries, heap, budget, steps),
        Some(Node::Object(_)) => no_items(machine, b, steps),
        Some(Node::Function(_)) => no_items(machine, b, steps),
        Some(Node::Exception(..)) => no_items(machine, b, steps),
        None => no_items(machine, b, steps),
    }
}

// Whether a range has a value as one of its numbers.
fn in_range(value: &Value, start: i128, stop: i128, step: i128) -> bool
    ensures { result ≡ in_range (number_in (value_of value.now)) start stop step }
{
    match number_in(value) {
        Some(number) => is_number_of(number, start, stop, step),
        None => false,
    }
}

fn in_text<L: Ledger>(
    machine: &mut Machine,
    comparison: Comparison,
    a: &Value,
    b: &Value,
    text: &str,
    steps: &mut Steps<L>,
) -> Result<bool, Fault>
    requires sound_a { IsSoundIn machine.old.heap a.now }
    requires sound_b { IsSoundIn machine.old.heap b.now }
    requires text { value_of b.now ≡ model.text (chars text.now) }
    ensures gives { Gives (λ b. b) result (moment_of machine.new) (member comparison (value_of a.now) (model.text (chars text.now)) (moment_of machine.old)) }
    ensures sound { SoundEnd machine.new.heap result }
    ensures costs { Costs 0 2 machine.old steps.old machine.new steps.new }
    ensures heap { machine.new.heap ≡ machine.old.heap }
{
    match text_from(a) {
        Some(part) => part_in(machine, part, text, steps),
        None => no_comparison(machine, comparison, a, b, steps),
    }
}

fn member<L: Ledger>(
    machine: &mut Machine,
    comparison: Comparison,
    a: &Value,
    b: &Value,
    steps: &mut Steps<L>,
) -> Result<bool, Fault>
    requires sound_a { IsSoundIn machine.old.heap a.now }
    requires sound_b { IsSoundIn machine.old.heap b.now }
    ensures gives { Gives (λ b. b) result (moment_of machine.new) (member comparison (value_of a.now) (value_of b.now) (moment_of machine.old)) }
    ensures sound { SoundEnd machine.new.heap result }
    ensures costs { Costs 0 3 machine.old steps.old machine.new steps.new }
    ensures heap { machine.new.heap ≡ machine.old.heap }
{
    match b {
        Value::Text(text) => in_text(machine, comparison, a, b, text.as_str(), steps),
        Value::Range(start, stop, step) => Ok(in_range(a, *start, *stop, *step)),
        Value::Node(_) => in_node(machine, a, b, steps),
        Value::None => no_items(machine, b, steps),
        Value::Bool(_) => no_items(machine, b, steps),
        Value::Int(_) => no_items(machine, b, steps),
        Value::Builtin(_) => no_items(machine, b, steps),
        Value::Class(_) => no_items(machine, b, steps),
    }
}

fn negated(answer: Result<bool, Fault>) -> Result<bool, Fault>
    ensures gives { (s : Moment) (e : Ends Bool) → Gives (λ b. b) answer s e → Gives (λ b. b) result s (and_then e (λ b. give (not b))) }
    ensures sound { (n : ℕ) → IsSound (λ _. true) n answer → IsSound (λ _. true) n result }
{
    Ok(!answer?)
}

/// A comparison of two values.
#[inline(never)]
pub fn compare<L: Ledger>(
    machine: &mut Machine,
    comparison: Comparison,
    a: &Value,
    b: &Value,
    steps: &mut Steps<L>,
) -> Result<bool, Fault>
    requires sound_a { IsSoundIn machine.old.heap a.now }
    requires sound_b { IsSoundIn machine.old.heap b.now }
    ensures gives { Gives (λ b. b) result (moment_of machine.new) (compare comparison (value_of a.now) (value_of b.now) (moment_of machine.old)) }
    ensures sound { SoundEnd machine.new.heap result }
    ensures costs { Costs 0 16 machine.old steps.old machine.new steps.new }
    ensures heap { machine.new.heap ≡ machine.old.heap }
{
    match comparison {
        Comparison::Less => less(machine, comparison, a, b, steps),
        Comparison::LessEqual => negated(greater(machine, comparison, a, b, steps)),
        Comparison::Greater => greater(machine, comparison, a, b, steps),
        Comparison::GreaterEqual => negated(less(machine, comparison, a, b, steps)),
        Comparison::Equal => equal(machine, a, b, steps),
        Comparison::NotEqual => negated(equal(machine, a, b, steps)),
        Comparison::In => member(machine, comparison, a, b, steps),
        Comparison::NotIn => negated(member(machine, comparison, a, b, steps)),
        Comparison::Is => identical(machine, a, b, steps),
        Comparison::IsNot => negated(identical(machine, a, b, steps)),
    }
}
