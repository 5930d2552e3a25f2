// Slices (Python Language Reference 3, "Slicings").
ghost use Rattle.std.specs.List.{filter_map};
ghost use Rattle.std.specs.Prelude.{IfOk, IfSome, length, map, option_map, pos, true, ℕ, ◌+ℤ◌, ◌<ℤ◌, ◌^◌, ◌≡◌, ◌≤ℤ◌};
ghost use Rattle.std.specs.Str.{chars};
ghost use Rattle.kishu_meaning.specs.moments.Moment.{Moment, node_at, node_now, ◌>>=◌ as ◌⊳◌};
ghost use Rattle.kishu_meaning.specs.items.Subscripts.{at_place, bound_of, brought, counted_from_end, first_limit, highest, last_limit, limit, lowest, node_slice, places_between, slice, slice_places, step_from};
ghost use Rattle.kishu_meaning.specs.values.Texts.{LieWithin, places};
ghost use Rattle.kishu_meaning.specs.values.Values.{value_of};
ghost use Rattle.kishu_meaning.specs.items.Walks.{or_none_there};
ghost use Rattle.kishu_access.specs.Access.{AreWithin, are_sound_maybe, places_of, AreSoundBounds};
ghost use Rattle.kishu_access.specs.Forms.{items_from, maybe_picked};
ghost use Rattle.kishu_machine.specs.Lists.{items_in};
ghost use Rattle.kishu_machine.specs.Machine.{Gives, HasRoomBy, IsSound, moment_of, Costs};
ghost use Rattle.kishu_machine.specs.Clauses.{AreSoundIn, IsSoundIn, SoundEnd, SoundValue};
ghost use Rattle.kishu_heap.specs.Costs.{Reads};
ghost use Rattle.kishu_meaning.specs.values.Values as model;

use crate::subscripts::{index_of, is_list, items_at};
use kishu_heap::{Heap, range_length};
use kishu_items::plain_text;
use kishu_machine::{Fault, Machine, new_list, new_tuple, not_subscriptable, raise, shared, spend};
use kishu_meaning::{ClassId, Steps, Value};
use kishu_text::{count, next_place};
use std::alloc::{AllocError, Global};
use std::sync::ledger::Ledger;

/// The places of a slice: the first, the step, and how many there are.
#[derive(Clone, Copy)]
struct Places {
    first: i128,
    step: i128,
    len: usize,
}

/// The bounds of a slice as they stand. `slice` takes None or a number for each, and raises at others.
#[derive(Drop)]
pub struct Bounds<'a> {
    pub start: &'a Value,
    pub stop: &'a Value,
    pub step: &'a Value,
}

// A bound: None, or a number.
fn bound_of<L: Ledger>(
    machine: &Machine,
    bound: &Value,
    steps: &mut Steps<L>,
) -> Result<Option<i128>, Fault>
    requires sound { IsSoundIn machine.now.heap bound.now }
    ensures gives { Gives (λ z. z) result (moment_of machine.now) (bound_of (value_of bound.now) (moment_of machine.now)) }
    ensures sound { SoundEnd machine.now.heap result }
    ensures reads { Reads 1 steps.old steps.new }
{
    if let Value::None = bound {
        return Ok(None);
    }
    let number = index_of(machine, bound, steps)?;
    Ok(Some(number))
}

fn step_from(alloc: Global, step: Option<i128>) -> Result<i128, Fault>
    ensures gives { (s : Moment) → Gives (λ z. z) result s (step_from step s) }
    ensures sound { (n : ℕ) → IsSound (λ _. true) n result }
{
    let Some(number) = step else {
        return Ok(1);
    };
    if number == 0 {
        return raise(ClassId::VALUE_ERROR, plain_text(alloc, "step is zero")?);
    }
    Ok(number)
}

// A step upwards takes bounds from 0 to n, and one downwards from -1 to n - 1.
fn lowest(step: i128) -> i128
    ensures { (n : ℕ) → result ≡ lowest n step }
{
    if step > 0 { 0 } else { -1 }
}

fn highest(len: usize, step: i128) -> i128
    ensures { result ≡ highest len step }
{
    if step > 0 {
        len as i128
    } else {
        len as i128 - 1
    }
}

fn counted_from_end(len: usize, bound: i128) -> i128
    ensures { result ≡ counted_from_end len bound }
{
    if bound < 0 {
        bound + len as i128
    } else {
        bound
    }
}

fn brought(low: i128, high: i128, bound: i128) -> i128
    ensures { result ≡ brought low high bound }
{
    if bound < low {
        low
    } else if bound > high {
        high
    } else {
        bound
    }
}

fn limit(len: usize, step: i128, other: i128, bound: Option<i128>) -> i128
    ensures { result ≡ limit len step other bound }
{
    match bound {
        Some(bound) => brought(
            lowest(step),
            highest(len, step),
            counted_from_end(len, bound),
        ),
        None => other,
    }
}

fn first_limit(len: usize, step: i128, start: Option<i128>) -> i128
    ensures { result ≡ first_limit len step start }
{
    let other = if step > 0 {
        lowest(step)
    } else {
        highest(len, step)
    };
    limit(len, step, other, start)
}

fn last_limit(len: usize, step: i128, stop: Option<i128>) -> i128
    ensures { result ≡ last_limit len step stop }
{
    let other = if step > 0 {
        highest(len, step)
    } else {
        lowest(step)
    };
    limit(len, step, other, stop)
}

// The places from the start to the stop by the step, among so many.
fn places_between(len: usize, step: i128, start: Option<i128>, stop: Option<i128>) -> Places
    ensures is { places_of result ≡ places_between (first_limit len step start) (last_limit len step stop) step }
    ensures within { AreWithin len result }
{
    let first = first_limit(len, step, start);
    let last = last_limit(len, step, stop);
    let many = range_length(first, last, step) as usize;
    Places {
        first,
        step,
        len: many,
    }
}

// The bounds are asked in their order.
fn slice_places<L: Ledger>(
    machine: &Machine,
    len: usize,
    bounds: &Bounds,
    steps: &mut Steps<L>,
) -> Result<Places, Fault>
    requires sound_bounds { AreSoundBounds machine.now.heap bounds.now.start bounds.now.stop bounds.now.step }
    ensures gives { Gives places_of result (moment_of machine.now) (slice_places len (value_of bounds.now.start.now) (value_of bounds.now.stop.now) (value_of bounds.now.step.now) (moment_of machine.now)) }
    ensures sound { SoundEnd machine.now.heap result }
    ensures within { IfOk result (λ p. AreWithin len p) }
    ensures reads { Reads 3 steps.old steps.new }
{
    let start = bound_of(machine, bounds.start, steps)?;
    let stop = bound_of(machine, bounds.stop, steps)?;
    let asked = bound_of(machine, bounds.step, steps)?;
    let step = step_from(machine.alloc, asked)?;
    Ok(places_between(len, step, start, stop))
}

// The items at `len` places, of which `first` is the first.
fn pick(
    alloc: Global,
    items: &[Value],
    first: usize,
    step: i128,
    len: usize,
) -> Result<Vec<Value>, AllocError>
    requires { LieWithin (length items.now) (places (pos first) step len) }
    ensures { IfOk result (λ v. map value_of v.items ≡ filter_map (at_place (map value_of items.now)) (places (pos first) step len)) }
{
    let mut found = Vec::new(alloc);
    let mut place = first;
    for k in 0..len {
        found.push(items[place].copied()?)?;
        if k + 1 < len {
            place = next_place(place, step);
        }
    }
    Ok(found)
}

fn picked(alloc: Global, items: &[Value], places: Places) -> Result<Vec<Value>, AllocError>
    requires { AreWithin (length items.now) places }
    ensures { IfOk result (λ v. map value_of v.items ≡ filter_map (at_place (map value_of items.now)) (places_of places)) }
{
    if places.len == 0 {
        return Ok(Vec::new(alloc));
    }
    pick(alloc, items, places.first as usize, places.step, places.len)
}

fn items_len<L: Ledger>(heap: &Heap, value: &Value, steps: &mut Steps<L>) -> Option<usize>
    ensures len { result ≡ option_map (λ vs. length vs) (items_from (node_at heap.now (value_of value.now))) }
    ensures reads { Reads 1 steps.old steps.new }
{
    Some(items_at(heap, value, steps)?.len())
}

// The items of a list or a tuple at the places of a slice.
fn items_there<L: Ledger>(
    machine: &Machine,
    value: &Value,
    places: Places,
    steps: &mut Steps<L>,
) -> Result<Vec<Value>, AllocError>
    requires { IfSome (items_from (node_at machine.now.heap (value_of value.now))) (λ vs. AreWithin (length vs) places) }
    ensures items { IfOk result (λ v. map value_of v.items ≡ filter_map (at_place (or_none_there (items_from (node_at machine.now.heap (value_of value.now))))) (places_of places)) }
    ensures sound { IfOk result (λ v. AreSoundIn machine.now.heap v.items) }
    ensures reads { Reads 1 steps.old steps.new }
{
    match items_at(&machine.heap, value, steps) {
        Some(items) => picked(machine.alloc, items, places),
        None => Ok(Vec::new(machine.alloc)),
    }
}

fn text_slice<L: Ledger>(
    machine: &mut Machine,
    text: &str,
    bounds: &Bounds,
    steps: &mut Steps<L>,
) -> Result<Value, Fault>
    requires sound_bounds { AreSoundBounds machine.old.heap bounds.now.start bounds.now.stop bounds.now.step }
    ensures gives { Gives value_of result (moment_of machine.new) (slice (model.text (chars text.now)) (value_of bounds.now.start.now) (value_of bounds.now.stop.now) (value_of bounds.now.step.now) (moment_of machine.old)) }
    ensures sound { SoundValue machine.new.heap result }
    ensures costs { Costs 0 3 machine.old steps.old machine.new steps.new }
{
    let places = slice_places(machine, count(text), bounds, steps)?;
    spend(machine, places.len as u128, steps)?;
    let part = kishu_text::slice(machine.alloc, text, places.first, places.step, places.len)?;
    Ok(Value::Text(shared(part)?))
}

// The items of a list or a tuple at the places of a slice, where the value is one.
fn items_slice<L: Ledger>(
    machine: &mut Machine,
    value: &Value,
    bounds: &Bounds,
    steps: &mut Steps<L>,
) -> Result<Option<Vec<Value>>, Fault>
    requires sound_bounds { AreSoundBounds machine.old.heap bounds.now.start bounds.now.stop bounds.now.step }
    ensures gives { Gives items_in result (moment_of machine.new) ((node_now (value_of value.now) ⊳ λ m. maybe_picked (items_from m) (value_of bounds.now.start.now) (value_of bounds.now.stop.now) (value_of bounds.now.step.now)) (moment_of machine.old)) }
    ensures sound { IsSound (are_sound_maybe (length machine.new.heap)) (length machine.new.heap) result }
    ensures heap { machine.new.heap ≡ machine.old.heap }
    ensures costs { Costs 0 5 machine.old steps.old machine.new steps.new }
{
    let Some(len) = items_len(&machine.heap, value, steps) else {
        return Ok(None);
    };
    let places = slice_places(machine, len, bounds, steps)?;
    spend(machine, places.len as u128, steps)?;
    let found = items_there(machine, value, places, steps)?;
    Ok(Some(found))
}

fn node_slice<L: Ledger>(
    machine: &mut Machine,
    value: &Value,
    bounds: &Bounds,
    steps: &mut Steps<L>,
) -> Result<Value, Fault>
    requires room { HasRoomBy 1 machine.old }
    requires sound_value { IsSoundIn machine.old.heap value.now }
    requires sound_bounds { AreSoundBounds machine.old.heap bounds.now.start bounds.now.stop bounds.now.step }
    ensures gives { Gives value_of result (moment_of machine.new) ((node_now (value_of value.now) ⊳ node_slice (value_of value.now) (value_of bounds.now.start.now) (value_of bounds.now.stop.now) (value_of bounds.now.step.now)) (moment_of machine.old)) }
    ensures sound { SoundValue machine.new.heap result }
    ensures costs { Costs 1 7 machine.old steps.old machine.new steps.new }
{
    let Some(items) = items_slice(machine, value, bounds, steps)? else {
        return not_subscriptable(machine, value, steps);
    };
    if is_list(&machine.heap, value, steps) {
        new_list(machine, items)
    } else {
        new_tuple(machine, items)
    }
}

/// `value[start:stop:step]`.
#[inline(never)]
pub fn slice<L: Ledger>(
    machine: &mut Machine,
    value: &Value,
    bounds: &Bounds,
    steps: &mut Steps<L>,
) -> Result<Value, Fault>
    requires room { HasRoomBy 1 machine.old }
    requires sound_value { IsSoundIn machine.old.heap value.now }
    requires sound_bounds { AreSoundBounds machine.old.heap bounds.now.start bounds.now.stop bounds.now.step }
    ensures gives { Gives value_of result (moment_of machine.new) (slice (value_of value.now) (value_of bounds.now.start.now) (value_of bounds.now.stop.now) (value_of bounds.now.step.now) (moment_of machine.old)) }
    ensures sound { SoundValue machine.new.heap result }
    ensures costs { Costs 1 16 machine.old steps.old machine.new steps.new }
{
    match value {
        Value::Text(text) => text_slice(machine, text.as_str(), bounds, steps),
        Value::Node(_) => node_slice(machine, value, bounds, steps),
        _ => not_subscriptable(machine, value, steps),
    }
}
