// `+` of texts, lists and tuples (Python Language Reference 3, "Binary arithmetic operations").
ghost use Rattle.std.specs.Prelude.{IfOk, IfSome, Some, IsTrue, map, option_map, ℕ, ◌++◌, ◌+◌, ◌<◌, ◌≡◌, ◌≤◌};
ghost use Rattle.std.specs.Str.{chars};
ghost use Rattle.std.specs.String.{string_bytes};
ghost use Rattle.kishu_meaning.specs.comparing.Equal.{by_both};
ghost use Rattle.kishu_meaning.specs.moments.Moment.{Moment, node_now, ◌>>=◌ as ◌⊳◌};
ghost use Rattle.kishu_meaning.specs.calls.Operators.{bad_operands, both, joined, list_from, new_tuple, operator_sign, sum_of, sum_of_nodes, tuple_from};
ghost use Rattle.kishu_meaning.specs.values.Sound.{are_sound};
ghost use Rattle.kishu_meaning.specs.values.Values.{value_of};
ghost use Rattle.kishu_machine.specs.Forms.{maybe_both, text_from};
ghost use Rattle.kishu_machine.specs.Lists.{are_sound_in, items_in};
ghost use Rattle.kishu_machine.specs.Machine.{Gives, HasRoomBy, IsSound, moment_of, placed, Costs};
ghost use Rattle.kishu_machine.specs.Clauses.{IsSoundIn, SoundMaybes, SoundValue};
ghost use Rattle.kishu_meaning.specs.values.Values as model;
ghost use Rattle.kishu_language.specs.declared.tree.Operator.TheVariants as operators;

use crate::fault::Fault;
use crate::machine::Machine;
use crate::nodes::{list_at, new_list, new_tuple, tuple_at};
use crate::operators::{bad_values, push_copies, text_from};
use crate::raising::bad_operands;
use crate::spending::spend_from;
use crate::stepping::spend;
use crate::texts::{push_text, shared};
use kishu_language::Operator;
use kishu_meaning::{Budget, Steps, Value};
use kishu_text::count;
use std::alloc::{AllocError, Global};
use std::sync::ledger::Ledger;

// ---- texts

fn joined_text(alloc: Global, a: &str, b: &str) -> Result<String, AllocError>
    ensures { IfOk result (λ s. chars (string_bytes s) ≡ chars a.now ++ chars b.now) }
{
    let mut text = String::from_str(alloc, a)?;
    push_text(&mut text, b)?;
    Ok(text)
}

// Two texts as one.
fn joined_value(alloc: Global, a: &str, b: &str) -> Result<Value, AllocError>
    ensures { IfOk result (λ v. value_of v ≡ model.text (chars a.now ++ chars b.now)) }
{
    let text = joined_text(alloc, a, b)?;
    Ok(Value::Text(shared(text)?))
}

// Two texts as one. It takes its length in steps before it is made.
fn joined<L: Ledger>(
    machine: &mut Machine,
    a: &str,
    b: &str,
    steps: &mut Steps<L>,
) -> Result<Value, Fault>
    ensures gives { Gives value_of result (moment_of machine.new) (joined (chars a.now) (chars b.now) (moment_of machine.old)) }
    ensures sound { SoundValue machine.new.heap result }
    ensures costs { Costs 0 0 machine.old steps.old machine.new steps.new }
    ensures heap { machine.new.heap ≡ machine.old.heap }
{
    spend(machine, count(a) as u128 + count(b) as u128, steps)?;
    Ok(joined_value(machine.alloc, a, b)?)
}

fn joined_items(alloc: Global, a: &[Value], b: &[Value]) -> Result<Vec<Value>, AllocError>
    ensures { IfOk result (λ v. map value_of v.items ≡ map value_of a.now ++ map value_of b.now) }
{
    let mut items = Vec::new(alloc);
    push_copies(&mut items, a)?;
    push_copies(&mut items, b)?;
    Ok(items)
}

// The items of both, where there are two. They take as many steps.
fn both_items<L: Ledger>(
    alloc: Global,
    a: Option<&[Value]>,
    b: Option<&[Value]>,
    budget: &mut Budget,
    steps: &mut Steps<L>,
) -> Result<Option<Vec<Value>>, Fault>
    ensures gives { (s : Moment) → Gives items_in result (placed s budget.new) (maybe_both (option_map (λ v. map value_of v.now) a.entry) (option_map (λ v. map value_of v.now) b.entry) (placed s budget.old)) }
    ensures sound { (n : ℕ) → IfSome a.entry (λ v. IsTrue (are_sound n (map value_of v.now))) → IfSome b.entry (λ v. IsTrue (are_sound n (map value_of v.now))) → IsSound (λ o. are_sound_in n (items_in o)) n result }
    ensures depth { budget.new.depth ≡ budget.old.depth }
    ensures left { budget.new.left ≤ budget.old.left }
    ensures counted { steps.new + budget.new.left ≡ steps.old + budget.old.left }
{
    let Some(a) = a else {
        return Ok(None);
    };
    let Some(b) = b else {
        return Ok(None);
    };
    spend_from(a.len() as u128 + b.len() as u128, budget, steps)?;
    Ok(Some(joined_items(alloc, a, b)?))
}

// The items of both lists, where there are two. They take as many steps.
fn list_sum<L: Ledger>(
    machine: &mut Machine,
    a: &Value,
    b: &Value,
    steps: &mut Steps<L>,
) -> Result<Option<Vec<Value>>, Fault>
    ensures gives { Gives items_in result (moment_of machine.new) ((node_now (value_of a.now) ⊳ λ m. node_now (value_of b.now) ⊳ λ n. maybe_both (list_from m) (list_from n)) (moment_of machine.old)) }
    ensures sound { SoundMaybes machine.new.heap result }
    ensures heap { machine.new.heap ≡ machine.old.heap }
    ensures costs { Costs 0 2 machine.old steps.old machine.new steps.new }
{
    let x = list_at(&machine.heap, a, steps);
    let y = list_at(&machine.heap, b, steps);
    both_items(machine.alloc, x, y, &mut machine.budget, steps)
}

// The items of both tuples, where there are two. They take as many steps.
fn tuple_sum<L: Ledger>(
    machine: &mut Machine,
    a: &Value,
    b: &Value,
    steps: &mut Steps<L>,
) -> Result<Option<Vec<Value>>, Fault>
    ensures gives { Gives items_in result (moment_of machine.new) ((node_now (value_of a.now) ⊳ λ m. node_now (value_of b.now) ⊳ λ n. maybe_both (tuple_from m) (tuple_from n)) (moment_of machine.old)) }
    ensures sound { SoundMaybes machine.new.heap result }
    ensures heap { machine.new.heap ≡ machine.old.heap }
    ensures costs { Costs 0 2 machine.old steps.old machine.new steps.new }
{
    let x = tuple_at(&machine.heap, a, steps);
    let y = tuple_at(&machine.heap, b, steps);
    both_items(machine.alloc, x, y, &mut machine.budget, steps)
}

// Two tuples.
fn sum_of_tuples<L: Ledger>(
    machine: &mut Machine,
    a: &Value,
    b: &Value,
    steps: &mut Steps<L>,
) -> Result<Value, Fault>
    requires room { HasRoomBy 1 machine.old }
    requires sound_a { IsSoundIn machine.old.heap a.now }
    requires sound_b { IsSoundIn machine.old.heap b.now }
    ensures gives { Gives value_of result (moment_of machine.new) ((node_now (value_of a.now) ⊳ λ m. node_now (value_of b.now) ⊳ λ n. by_both (tuple_from m) (tuple_from n) (both new_tuple) (bad_operands (operator_sign operators.Add) (value_of a.now) (value_of b.now))) (moment_of machine.old)) }
    ensures sound { SoundValue machine.new.heap result }
    ensures costs { Costs 1 4 machine.old steps.old machine.new steps.new }
{
    let found = tuple_sum(machine, a, b, steps)?;
    match found {
        Some(items) => new_tuple(machine, items),
        None => bad_values(machine, Operator::Add, a, b, steps),
    }
}

// Two lists or two tuples.
fn sum_of_nodes<L: Ledger>(
    machine: &mut Machine,
    a: &Value,
    b: &Value,
    steps: &mut Steps<L>,
) -> Result<Value, Fault>
    requires room { HasRoomBy 1 machine.old }
    requires sound_a { IsSoundIn machine.old.heap a.now }
    requires sound_b { IsSoundIn machine.old.heap b.now }
    ensures gives { Gives value_of result (moment_of machine.new) ((node_now (value_of a.now) ⊳ λ m. node_now (value_of b.now) ⊳ λ n. sum_of_nodes m n (bad_operands (operator_sign operators.Add) (value_of a.now) (value_of b.now))) (moment_of machine.old)) }
    ensures sound { SoundValue machine.new.heap result }
    ensures costs { Costs 1 6 machine.old steps.old machine.new steps.new }
{
    let found = list_sum(machine, a, b, steps)?;
    match found {
        Some(items) => new_list(machine, items),
        None => sum_of_tuples(machine, a, b, steps),
    }
}

// Two texts, two lists or two tuples.
pub(crate) fn sum_of<L: Ledger>(
    machine: &mut Machine,
    a: &Value,
    b: &Value,
    steps: &mut Steps<L>,
) -> Result<Value, Fault>
    requires room { HasRoomBy 1 machine.old }
    requires sound_a { IsSoundIn machine.old.heap a.now }
    requires sound_b { IsSoundIn machine.old.heap b.now }
    ensures gives { Gives value_of result (moment_of machine.new) (sum_of (value_of a.now) (value_of b.now) (moment_of machine.old)) }
    ensures sound { SoundValue machine.new.heap result }
    ensures costs { Costs 1 6 machine.old steps.old machine.new steps.new }
{
    let Some(left) = text_from(a) else {
        return sum_of_nodes(machine, a, b, steps);
    };
    match text_from(b) {
        Some(right) => joined(machine, left, right, steps),
        None => sum_of_nodes(machine, a, b, steps),
    }
}
