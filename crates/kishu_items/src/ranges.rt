// The numbers of ranges (Library Reference, "Ranges").
ghost use Rattle.std.specs.Prelude.{◌≡◌, ◌-◌, ◌^◌, ◌<◌, IfOk, map, pos, negsuc, ◌*ℤ◌, ◌+ℤ◌, ◌-ℤ◌, ◌<ℤ◌, ◌≤ℤ◌};
ghost use Rattle.kishu_meaning.specs.comparing.Equal.{range_length};
ghost use Rattle.kishu_meaning.specs.items.Sequences.{range_items};
ghost use Rattle.kishu_meaning.specs.values.Values.{integer, value_of};

use kishu_heap::range_length;
use kishu_meaning::Value;
use std::alloc::{AllocError, Global};

// The number so far above another, below 2 ^ 127.
fn above(number: i128, distance: u128) -> i128
    requires { (number +ℤ pos distance) <ℤ pos (2 ^ 127) }
    ensures { result ≡ number +ℤ pos distance }
{
    match number.checked_add_unsigned(distance) {
        Some(number) => number,
        None => unreachable!(),
    }
}

// The number so far below another, from -2 ^ 127 on.
fn below(number: i128, distance: u128) -> i128
    requires { negsuc (2 ^ 127 - 1) ≤ℤ (number -ℤ pos distance) }
    ensures { result ≡ number -ℤ pos distance }
{
    match number.checked_sub_unsigned(distance) {
        Some(number) => number,
        None => unreachable!(),
    }
}

/// The number at a place of a range that has it. Places count from 0.
pub fn number_at(start: i128, stop: i128, step: i128, place: u128) -> i128
    requires { place < range_length start stop step }
    ensures { result ≡ start +ℤ pos place *ℤ step }
{
    let distance = place * step.unsigned_abs();
    if step > 0 {
        above(start, distance)
    } else {
        below(start, distance)
    }
}

// The same number as a value.
fn number_value(start: i128, stop: i128, step: i128, place: u128) -> Value
    requires { place < range_length start stop step }
    ensures { value_of result ≡ integer (start +ℤ pos place *ℤ step) }
{
    Value::Int(number_at(start, stop, step, place))
}

/// The numbers of a range, in order.
pub(crate) fn range_items(
    alloc: Global,
    start: i128,
    stop: i128,
    step: i128,
) -> Result<Vec<Value>, AllocError>
    ensures { IfOk result (λ v. map value_of v.items ≡ range_items start stop step) }
{
    let mut items = Vec::new(alloc);
    for place in 0..range_length(start, stop, step) {
        items.push(number_value(start, stop, step, place))?;
    }
    Ok(items)
}
