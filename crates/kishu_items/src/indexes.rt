// Places that whole numbers say.
ghost use Rattle.std.specs.Prelude.{◌≡◌, ◌+◌, ◌<◌, ◌≤◌, IsTrue, OnOk, IfOk, length};
ghost use Rattle.kishu_meaning.specs.comparing.Equal.{number_in};
ghost use Rattle.kishu_meaning.specs.items.Indexes.{index_of, place_in, place_of, bound_in};
ghost use Rattle.kishu_meaning.specs.moments.Moment.{Moment};
ghost use Rattle.kishu_meaning.specs.values.Sound.{is_sound};
ghost use Rattle.kishu_meaning.specs.values.Values.{Node, value_of};
ghost use Rattle.kishu_meaning.specs.declared.budget.Budget.{Budget};
ghost use Rattle.kishu_heap.specs.Costs.{Reads};
ghost use Rattle.kishu_items.specs.Called.{moment_of, Gives};

use crate::faults::{bad_index_text, plain_text, raise};
use kishu_heap::{CallFault, Heap};
use kishu_meaning::{Budget, ClassId, Steps, Value};
use std::alloc::Global;
use std::sync::ledger::Ledger;

/// The whole number that a value counts as, where it counts as one.
pub fn number_in(value: &Value) -> Option<i128>
    ensures { result ≡ number_in (value_of value.now) }
{
    match value {
        Value::Bool(holds) => Some(i128::from(*holds)),
        Value::Int(number) => Some(*number),
        Value::None
        | Value::Text(_)
        | Value::Range(..)
        | Value::Builtin(_)
        | Value::Class(_)
        | Value::Node(_) => None,
    }
}

/// The whole number that an index is, or a TypeError.
pub fn index_of<L: Ledger>(
    alloc: Global,
    value: &Value,
    heap: &Heap,
    steps: &mut Steps<L>,
) -> Result<i128, CallFault>
    requires sound { IsTrue (is_sound (length heap.now) (value_of value.now)) }
    ensures gives { (b : Budget) → Gives (λ z. z) result (moment_of heap.now b) (index_of (value_of value.now) (moment_of heap.now b)) }
    ensures reads { Reads 1 steps.old steps.new }
{
    match number_in(value) {
        Some(number) => Ok(number),
        None => raise(
            ClassId::TYPE_ERROR,
            bad_index_text(alloc, value, heap, steps)?,
        ),
    }
}

/// The place among so many that an index says, where there is one; a negative one counts from the
/// end.
pub fn place_in(len: usize, index: i128) -> Option<usize>
    ensures { result ≡ place_in len index }
{
    if index >= 0 {
        if index < len as i128 {
            Some(index as usize)
        } else {
            None
        }
    } else if index >= -(len as i128) {
        Some((len as i128 + index) as usize)
    } else {
        None
    }
}

/// The place among so many that an index says, or an IndexError.
pub fn place_of(alloc: Global, len: usize, index: i128) -> Result<usize, CallFault>
    ensures gives { (s : Moment) → Gives (λ n. n) result s (place_of len index s) }
    ensures within { IfOk result (λ place. place < len) }
{
    match place_in(len, index) {
        Some(place) => Ok(place),
        None => raise(
            ClassId::INDEX_ERROR,
            plain_text(alloc, "index out of range")?,
        ),
    }
}

/// The place to which an index is brought, from 0 to the length; a negative one counts from the
/// end.
pub fn bound_in(len: usize, index: i128) -> usize
    ensures value { result ≡ bound_in len index }
    ensures within { result ≤ len }
{
    if index >= 0 {
        if index < len as i128 {
            index as usize
        } else {
            len
        }
    } else if index >= -(len as i128) {
        (len as i128 + index) as usize
    } else {
        0
    }
}
