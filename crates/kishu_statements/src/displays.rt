// Displays of lists, dicts and tuples (Python Language Reference 3, "Displays for lists, sets and dictionaries").
ghost use Rattle.std.specs.Prelude.{IfOk, IsTrue, length, map, [], ◌*◌, ◌+◌, ◌≡◌, ◌≤◌};
ghost use Rattle.std.specs.List.{list_all};
ghost use Rattle.kishu_meaning.specs.cells.Meaning.{call, expr, inner_values, new_dict, values, with_pairs};
ghost use Rattle.kishu_meaning.specs.values.Sound.{is_sound};
ghost use Rattle.kishu_meaning.specs.values.Values.{value_of};
ghost use Rattle.kishu_language.specs.trees.Parts.{expressions_of, pairs_of};
ghost use Rattle.kishu_heap.specs.Cells.{entries_of};
ghost use Rattle.kishu_machine.specs.Lists.{are_sound_pairs, value_pairs};
ghost use Rattle.kishu_machine.specs.Machine.{Gives, GrownBy, HasRoom, HasRoomBy, IsSound, LeavesReads, ReadsBy, moment_of};
ghost use Rattle.kishu_machine.specs.Clauses.{SoundValue, SoundValues};
ghost use Rattle.kishu_statements.specs.Handed.{FitExpressions, FitPairs, LowExpressions, LowPairs};
ghost use Rattle.kishu_meaning.specs.cells.Meaning as m;
ghost use Rattle.kishu_language.specs.trees.Tree as t;

use crate::expressions::{deeper_value, evaluate};
use indexmap::IndexMap;
use kishu_access::item;
use kishu_heap::Node;
use kishu_language::{Expr, Pair};
use kishu_machine::{Fault, Machine, key_of, make, new_list, new_tuple, tick};
use kishu_meaning::{Key, Steps, Value};
use std::sync::ledger::Ledger;

// ---- displays

#[cycle(run)]
#[inline(never)]
pub(crate) fn tuple_value<L: Ledger>(
    machine: &mut Machine,
    items: &[Expr],
    calls_left: u32,
    steps: &mut Steps<L>,
) -> Result<Value, Fault>
    requires small_items { LowExpressions items.now }
    requires fit_items { FitExpressions items.now }
    requires room { HasRoom machine.old }
    ensures gives { Gives value_of result (moment_of machine.new) (expr (call calls_left) (t.tuple (expressions_of items.now)) (moment_of machine.old)) }
    ensures sound { SoundValue machine.new.heap result }
    ensures kept { GrownBy 0 machine.old steps.old machine.new steps.new }
    ensures reads { LeavesReads 64 machine.old steps.old result machine.new steps.new }
{
    tick(machine, steps)?;
    let values = values_of(machine, items, calls_left, steps)?;
    new_tuple(machine, values)
}

#[cycle(run)]
#[inline(never)]
fn values_of<L: Ledger>(
    machine: &mut Machine,
    items: &[Expr],
    calls_left: u32,
    steps: &mut Steps<L>,
) -> Result<Vec<Value>, Fault>
    requires small_items { LowExpressions items.now }
    requires fit_items { FitExpressions items.now }
    requires room { HasRoom machine.old }
    ensures gives { Gives (λ v. map value_of v.items) result (moment_of machine.new) (values (call calls_left) (expressions_of items.now) (moment_of machine.old)) }
    ensures sound { SoundValues machine.new.heap result }
    ensures kept { GrownBy 0 machine.old steps.old machine.new steps.new }
    ensures reads { ReadsBy 0 machine.old steps.old machine.new steps.new }
{
    let mut values = Vec::new(machine.alloc);
    for item in items {
        values.push(evaluate(machine, item, calls_left, steps)?)?;
    }
    Ok(values)
}

#[cycle(run)]
#[inline(never)]
pub(crate) fn list_value<L: Ledger>(
    machine: &mut Machine,
    items: &[Expr],
    calls_left: u32,
    steps: &mut Steps<L>,
) -> Result<Value, Fault>
    requires small_items { LowExpressions items.now }
    requires fit_items { FitExpressions items.now }
    requires room { HasRoom machine.old }
    ensures gives { Gives value_of result (moment_of machine.new) (expr (call calls_left) (t.list (expressions_of items.now)) (moment_of machine.old)) }
    ensures sound { SoundValue machine.new.heap result }
    ensures kept { GrownBy 0 machine.old steps.old machine.new steps.new }
    ensures reads { LeavesReads 64 machine.old steps.old result machine.new steps.new }
{
    tick(machine, steps)?;
    let values = inner_values(machine, items, calls_left, steps)?;
    new_list(machine, values)
}

// In brackets.
#[cycle(run)]
#[inline(never)]
fn inner_values<L: Ledger>(
    machine: &mut Machine,
    items: &[Expr],
    calls_left: u32,
    steps: &mut Steps<L>,
) -> Result<Vec<Value>, Fault>
    requires small_items { LowExpressions items.now }
    requires fit_items { FitExpressions items.now }
    requires room { HasRoom machine.old }
    ensures gives { Gives (λ v. map value_of v.items) result (moment_of machine.new) (inner_values (call calls_left) (expressions_of items.now) (moment_of machine.old)) }
    ensures sound { SoundValues machine.new.heap result }
    ensures kept { GrownBy 0 machine.old steps.old machine.new steps.new }
    ensures reads { ReadsBy 0 machine.old steps.old machine.new steps.new }
{
    let mut values = Vec::new(machine.alloc);
    for item in items {
        values.push(deeper_value(machine, item, calls_left, steps)?)?;
    }
    Ok(values)
}

#[cycle(run)]
#[inline(never)]
pub(crate) fn dict_value<L: Ledger>(
    machine: &mut Machine,
    pairs: &[Pair],
    calls_left: u32,
    steps: &mut Steps<L>,
) -> Result<Value, Fault>
    requires small { LowPairs pairs.now }
    requires fits { FitPairs pairs.now }
    requires room { HasRoom machine.old }
    ensures gives { Gives value_of result (moment_of machine.new) (expr (call calls_left) (t.dict (pairs_of pairs.now)) (moment_of machine.old)) }
    ensures sound { SoundValue machine.new.heap result }
    ensures kept { GrownBy 0 machine.old steps.old machine.new steps.new }
    ensures reads { LeavesReads 64 machine.old steps.old result machine.new steps.new }
{
    tick(machine, steps)?;
    let entries = pair_values(machine, pairs, calls_left, steps)?;
    new_dict(machine, entries, steps)
}

// All keys and values, from left to right.
#[cycle(run)]
#[inline(never)]
fn pair_values<L: Ledger>(
    machine: &mut Machine,
    pairs: &[Pair],
    calls_left: u32,
    steps: &mut Steps<L>,
) -> Result<Vec<(Value, Value)>, Fault>
    requires small { LowPairs pairs.now }
    requires fits { FitPairs pairs.now }
    requires room { HasRoom machine.old }
    ensures gives { Gives value_pairs result (moment_of machine.new) (m.pairs (call calls_left) (pairs_of pairs.now) (moment_of machine.old)) }
    ensures sound { IsSound (λ v. are_sound_pairs (length machine.new.heap) (value_pairs v)) (length machine.new.heap) result }
    ensures kept { GrownBy 0 machine.old steps.old machine.new steps.new }
    ensures reads { ReadsBy 0 machine.old steps.old machine.new steps.new }
    ensures paid { IfOk result (λ v. steps.new + 128 * machine.new.budget.left + 4 * length v.items ≤ steps.old + 128 * machine.old.budget.left) }
{
    let mut entries = Vec::new(machine.alloc);
    for pair in pairs {
        let key = deeper_value(machine, &pair.key, calls_left, steps)?;
        let value = deeper_value(machine, &pair.value, calls_left, steps)?;
        entries.push((key, value))?;
    }
    Ok(entries)
}

// A dict with these entries.
#[inline(never)]
fn new_dict<L: Ledger>(
    machine: &mut Machine,
    pairs: Vec<(Value, Value)>,
    steps: &mut Steps<L>,
) -> Result<Value, Fault>
    requires room { HasRoomBy 1 machine.old }
    requires sound_pairs { IsTrue (are_sound_pairs (length machine.old.heap) (value_pairs pairs)) }
    ensures gives { Gives value_of result (moment_of machine.new) (new_dict (value_pairs pairs) (moment_of machine.old)) }
    ensures sound { SoundValue machine.new.heap result }
    ensures kept { GrownBy 1 machine.old steps.old machine.new steps.new }
    ensures reads { ReadsBy (4 * length pairs.items) machine.old steps.old machine.new steps.new }
{
    let entries = entries_from(machine, pairs, steps)?;
    Ok(Value::Node(make(machine, Node::Dict(entries))?))
}

// A later value under a key takes the place of an earlier one.
fn entries_from<L: Ledger>(
    machine: &mut Machine,
    pairs: Vec<(Value, Value)>,
    steps: &mut Steps<L>,
) -> Result<IndexMap<Key, Value>, Fault>
    requires sound_pairs { IsTrue (are_sound_pairs (length machine.old.heap) (value_pairs pairs)) }
    ensures gives { Gives (λ es. entries_of es.entries) result (moment_of machine.new) (with_pairs (value_pairs pairs) [] (moment_of machine.old)) }
    ensures sound { IsSound (λ es. list_all (λ e. is_sound (length machine.new.heap) e.1) (entries_of es.entries)) (length machine.new.heap) result }
    ensures kept { GrownBy 0 machine.old steps.old machine.new steps.new }
    ensures reads { ReadsBy (4 * length pairs.items) machine.old steps.old machine.new steps.new }
    ensures heap { machine.new.heap ≡ machine.old.heap }
{
    let mut entries = IndexMap::new(machine.alloc);
    for (key, value) in pairs {
        let key = key_of(machine, &key, steps)?;
        entries.insert(key, value)?;
    }
    Ok(entries)
}
