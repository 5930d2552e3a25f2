// `*` of texts, lists and tuples with a number (Python Language Reference 3, "Binary arithmetic operations").
ghost use Rattle.std.specs.List.{flat_map};
ghost use Rattle.std.specs.Prelude.{IfNone, IfOk, IfSome, Some, IsTrue, length, map, option_map, replicate, ℕ, ◌*◌, ◌+◌, ◌<◌, ◌^◌, ◌≡◌, ◌≤◌};
ghost use Rattle.std.specs.Str.{chars};
ghost use Rattle.std.specs.String.{string_bytes};
ghost use Rattle.kishu_meaning.specs.comparing.Equal.{number_in};
ghost use Rattle.kishu_meaning.specs.moments.Moment.{Moment, node_now, ◌>>=◌ as ◌⊳◌};
ghost use Rattle.kishu_meaning.specs.calls.Operators.{bad_operands, list_from, new_tuple, operator_sign, product_of, repeated, times, tuple_from, value_times};
ghost use Rattle.kishu_meaning.specs.values.Sound.{are_sound};
ghost use Rattle.kishu_meaning.specs.values.Values.{value_of};
ghost use Rattle.kishu_machine.specs.Forms.{maybe_node_times, maybe_often, maybe_tuple_times, maybe_value_times, some_value, text_from};
ghost use Rattle.kishu_machine.specs.Lists.{are_sound_in, items_in, values_in};
ghost use Rattle.kishu_machine.specs.Machine.{Gives, GrownBy, HasRoom, HasRoomBy, IsSound, moment_of, placed, Costs};
ghost use Rattle.kishu_machine.specs.Clauses.{IsSoundIn, SoundMaybe, SoundMaybes, SoundValue};
ghost use Rattle.kishu_meaning.specs.values.Values as model;
ghost use Rattle.kishu_language.specs.declared.tree.Operator.TheVariants as operators;

use crate::fault::Fault;
use crate::machine::Machine;
use crate::nodes::{list_at, new_list, new_tuple, tuple_at};
use crate::operators::{bad_values, push_copies, text_from};
use crate::raising::bad_operands;
use crate::spending::{spend_product, spend_times};
use crate::texts::{push_text, shared};
use kishu_items::number_in;
use kishu_language::Operator;
use kishu_meaning::{Budget, Steps, Value};
use kishu_text::count;
use std::alloc::{AllocError, Global};
use std::sync::ledger::Ledger;

fn repeated_text(alloc: Global, text: &str, times: u32) -> Result<String, AllocError>
    ensures { IfOk result (λ s. chars (string_bytes s) ≡ flat_map (λ part. part) (replicate times (chars text.now))) }
{
    let mut repeated = String::new(alloc);
    for _turn in 0..times {
        push_text(&mut repeated, text)?;
    }
    Ok(repeated)
}

// How often something is repeated: below 1 there is nothing.
fn times(number: i128) -> u128
    ensures { result ≡ times number }
{
    if number < 0 { 0 } else { number as u128 }
}

fn many(alloc: Global, text: &str, times: u128) -> Result<String, AllocError>
    requires { length (chars text.now) * times < 2 ^ 32 }
    ensures { IfOk result (λ s. chars (string_bytes s) ≡ flat_map (λ part. part) (replicate times (chars text.now))) }
{
    // Of the empty text there may be any number.
    if count(text) == 0 {
        return Ok(String::new(alloc));
    }
    repeated_text(alloc, text, times as u32)
}

fn repeated_value(alloc: Global, text: &str, times: u128) -> Result<Value, AllocError>
    requires { length (chars text.now) * times < 2 ^ 32 }
    ensures { IfOk result (λ v. value_of v ≡ model.text (flat_map (λ part. part) (replicate times (chars text.now)))) }
{
    let text = many(alloc, text, times)?;
    Ok(Value::Text(shared(text)?))
}

// A text so many times (Library Reference, "Common Sequence Operations").
fn repeated<L: Ledger>(
    machine: &mut Machine,
    text: &str,
    number: i128,
    steps: &mut Steps<L>,
) -> Result<Value, Fault>
    requires room { HasRoom machine.old }
    ensures gives { Gives value_of result (moment_of machine.new) (repeated (chars text.now) number (moment_of machine.old)) }
    ensures sound { SoundValue machine.new.heap result }
    ensures costs { Costs 0 0 machine.old steps.old machine.new steps.new }
    ensures heap { machine.new.heap ≡ machine.old.heap }
{
    let times = times(number);
    spend_times(machine, count(text), times, steps)?;
    Ok(repeated_value(machine.alloc, text, times)?)
}

fn repeated_items(alloc: Global, part: &[Value], times: u32) -> Result<Vec<Value>, AllocError>
    ensures { IfOk result (λ v. map value_of v.items ≡ flat_map (λ part. part) (replicate times (map value_of part.now))) }
{
    let mut items = Vec::new(alloc);
    for _turn in 0..times {
        push_copies(&mut items, part)?;
    }
    Ok(items)
}

fn many_items(alloc: Global, part: &[Value], times: u128) -> Result<Vec<Value>, AllocError>
    requires { length part.now * times < 2 ^ 32 }
    ensures { IfOk result (λ v. map value_of v.items ≡ flat_map (λ part. part) (replicate times (map value_of part.now))) }
{
    // Of nothing there may be any number.
    if part.is_empty() {
        return Ok(Vec::new(alloc));
    }
    repeated_items(alloc, part, times as u32)
}

// The items so many times, where there are some. They take as many steps.
fn items_times<L: Ledger>(
    alloc: Global,
    part: Option<&[Value]>,
    times: u128,
    budget: &mut Budget,
    steps: &mut Steps<L>,
) -> Result<Option<Vec<Value>>, Fault>
    requires room { budget.old.left < 2 ^ 32 }
    ensures gives { (s : Moment) → Gives items_in result (placed s budget.new) (maybe_often (option_map (λ v. map value_of v.now) part.entry) times (placed s budget.old)) }
    ensures sound { (n : ℕ) → IfSome part.entry (λ v. IsTrue (are_sound n (map value_of v.now))) → IsSound (λ o. are_sound_in n (items_in o)) n result }
    ensures depth { budget.new.depth ≡ budget.old.depth }
    ensures left { budget.new.left ≤ budget.old.left }
    ensures counted { steps.new + budget.new.left ≡ steps.old + budget.old.left }
{
    let Some(part) = part else {
        return Ok(None);
    };
    spend_product(part.len(), times, budget, steps)?;
    Ok(Some(many_items(alloc, part, times)?))
}

// The items of a list so many times. They take as many steps.
fn list_times<L: Ledger>(
    machine: &mut Machine,
    value: &Value,
    times: u128,
    steps: &mut Steps<L>,
) -> Result<Option<Vec<Value>>, Fault>
    requires room { HasRoom machine.old }
    ensures gives { Gives items_in result (moment_of machine.new) ((node_now (value_of value.now) ⊳ λ m. maybe_often (list_from m) times) (moment_of machine.old)) }
    ensures sound { SoundMaybes machine.new.heap result }
    ensures heap { machine.new.heap ≡ machine.old.heap }
    ensures costs { Costs 0 1 machine.old steps.old machine.new steps.new }
{
    let part = list_at(&machine.heap, value, steps);
    items_times(machine.alloc, part, times, &mut machine.budget, steps)
}

// The items of a tuple so many times. They take as many steps.
fn tuple_times<L: Ledger>(
    machine: &mut Machine,
    value: &Value,
    times: u128,
    steps: &mut Steps<L>,
) -> Result<Option<Vec<Value>>, Fault>
    requires room { HasRoom machine.old }
    ensures gives { Gives items_in result (moment_of machine.new) ((node_now (value_of value.now) ⊳ λ m. maybe_often (tuple_from m) times) (moment_of machine.old)) }
    ensures sound { SoundMaybes machine.new.heap result }
    ensures heap { machine.new.heap ≡ machine.old.heap }
    ensures costs { Costs 0 1 machine.old steps.old machine.new steps.new }
{
    let part = tuple_at(&machine.heap, value, steps);
    items_times(machine.alloc, part, times, &mut machine.budget, steps)
}

// What was made, which is there.
fn some_value(answer: Result<Value, Fault>) -> Result<Option<Value>, Fault>
    ensures { result ≡ some_value answer }
{
    match answer {
        Ok(value) => Ok(Some(value)),
        Err(fault) => Err(fault),
    }
}

// A tuple so many times.
fn tuple_product<L: Ledger>(
    machine: &mut Machine,
    value: &Value,
    number: i128,
    steps: &mut Steps<L>,
) -> Result<Option<Value>, Fault>
    requires room { HasRoomBy 1 machine.old }
    requires sound_value { IsSoundIn machine.old.heap value.now }
    ensures gives { Gives values_in result (moment_of machine.new) ((node_now (value_of value.now) ⊳ λ m. maybe_tuple_times m number) (moment_of machine.old)) }
    ensures costs { Costs 1 1 machine.old steps.old machine.new steps.new }
    ensures unmade { IfOk result (λ o. IfNone o (GrownBy 0 machine.old steps.old machine.new steps.new)) }
    ensures sound { SoundMaybe machine.new.heap result }
{
    let found = tuple_times(machine, value, times(number), steps)?;
    match found {
        Some(items) => some_value(new_tuple(machine, items)),
        None => Ok(None),
    }
}

// A list or a tuple so many times.
fn node_times<L: Ledger>(
    machine: &mut Machine,
    value: &Value,
    number: i128,
    steps: &mut Steps<L>,
) -> Result<Option<Value>, Fault>
    requires room { HasRoomBy 1 machine.old }
    requires sound_value { IsSoundIn machine.old.heap value.now }
    ensures gives { Gives values_in result (moment_of machine.new) ((node_now (value_of value.now) ⊳ λ m. maybe_node_times m number) (moment_of machine.old)) }
    ensures costs { Costs 1 2 machine.old steps.old machine.new steps.new }
    ensures unmade { IfOk result (λ o. IfNone o (GrownBy 0 machine.old steps.old machine.new steps.new)) }
    ensures sound { SoundMaybe machine.new.heap result }
{
    let found = list_times(machine, value, times(number), steps)?;
    match found {
        Some(items) => some_value(new_list(machine, items)),
        None => tuple_product(machine, value, number, steps),
    }
}

// A text, a list or a tuple so many times.
fn value_often<L: Ledger>(
    machine: &mut Machine,
    value: &Value,
    number: i128,
    steps: &mut Steps<L>,
) -> Result<Option<Value>, Fault>
    requires room { HasRoomBy 1 machine.old }
    requires sound_value { IsSoundIn machine.old.heap value.now }
    ensures gives { Gives values_in result (moment_of machine.new) (maybe_value_times (value_of value.now) (Some number) (moment_of machine.old)) }
    ensures costs { Costs 1 2 machine.old steps.old machine.new steps.new }
    ensures unmade { IfOk result (λ o. IfNone o (GrownBy 0 machine.old steps.old machine.new steps.new)) }
    ensures sound { SoundMaybe machine.new.heap result }
{
    match text_from(value) {
        Some(text) => some_value(repeated(machine, text, number, steps)),
        None => node_times(machine, value, number, steps),
    }
}

// The same, where there is a number.
fn value_times<L: Ledger>(
    machine: &mut Machine,
    value: &Value,
    number: Option<i128>,
    steps: &mut Steps<L>,
) -> Result<Option<Value>, Fault>
    requires room { HasRoomBy 1 machine.old }
    requires sound_value { IsSoundIn machine.old.heap value.now }
    ensures gives { Gives values_in result (moment_of machine.new) (maybe_value_times (value_of value.now) number (moment_of machine.old)) }
    ensures costs { Costs 1 2 machine.old steps.old machine.new steps.new }
    ensures unmade { IfOk result (λ o. IfNone o (GrownBy 0 machine.old steps.old machine.new steps.new)) }
    ensures sound { SoundMaybe machine.new.heap result }
{
    match number {
        Some(number) => value_often(machine, value, number, steps),
        None => Ok(None),
    }
}

// The right operand so many times as the left one says.
fn right_product<L: Ledger>(
    machine: &mut Machine,
    a: &Value,
    b: &Value,
    steps: &mut Steps<L>,
) -> Result<Value, Fault>
    requires room { HasRoomBy 1 machine.old }
    requires sound_a { IsSoundIn machine.old.heap a.now }
    requires sound_b { IsSoundIn machine.old.heap b.now }
    ensures gives { Gives value_of result (moment_of machine.new) (value_times (value_of b.now) (number_in (value_of a.now)) (bad_operands (operator_sign operators.Multiply) (value_of a.now) (value_of b.now)) (moment_of machine.old)) }
    ensures sound { SoundValue machine.new.heap result }
    ensures costs { Costs 1 4 machine.old steps.old machine.new steps.new }
{
    let made = value_times(machine, b, number_in(a), steps)?;
    match made {
        Some(value) => Ok(value),
        None => bad_values(machine, Operator::Multiply, a, b, steps),
    }
}

// On either side.
pub(crate) fn product_of<L: Ledger>(
    machine: &mut Machine,
    a: &Value,
    b: &Value,
    steps: &mut Steps<L>,
) -> Result<Value, Fault>
    requires room { HasRoomBy 1 machine.old }
    requires sound_a { IsSoundIn machine.old.heap a.now }
    requires sound_b { IsSoundIn machine.old.heap b.now }
    ensures gives { Gives value_of result (moment_of machine.new) (product_of (value_of a.now) (value_of b.now) (moment_of machine.old)) }
    ensures sound { SoundValue machine.new.heap result }
    ensures costs { Costs 1 6 machine.old steps.old machine.new steps.new }
{
    let made = value_times(machine, a, number_in(b), steps)?;
    match made {
        Some(value) => Ok(value),
        None => right_product(machine, a, b, steps),
    }
}
