// Comparisons of two values by themselves.
ghost use Rattle.std.specs.Prelude.{◌≡◌, ◌<◌, ◌-ℤ◌, Some};
ghost use Rattle.std.specs.Str.{bytes_eq, chars};
ghost use Rattle.kishu_meaning.specs.values.Values.{value_of, bool, integer, text, range, builtin, class, node};
ghost use Rattle.kishu_meaning.specs.comparing.Equal.{number_in, is_same, pair_steps, steps_between, range_length, numbers_in, same_numbers, is_like, is_equal, less_texts, less_plain};

use kishu_meaning::{Builtin, ClassId, NodeId, Value};
use kishu_text::{count, order};

/// The whole number that a value counts as, where it counts as one.
fn number_in(value: &Value) -> Option<i128>
    ensures { result ≡ number_in (value_of value.now) }
{
    match value {
        Value::Bool(holds) => Some(i128::from(*holds)),
        Value::Int(number) => Some(*number),
        Value::None
        | Value::Text(_)
        | Value::Range(..)
        | Value::Builtin(_)
        | Value::Class(_)
        | Value::Node(_) => None,
    }
}

fn is_same_text(a: &str, b: &str) -> bool
    ensures { result ≡ bytes_eq (chars a.now) (chars b.now) }
{
    a == b
}

/// Whether two values have the same kind and are the same.
pub fn is_same(a: &Value, b: &Value) -> bool
    ensures { result ≡ is_same (value_of a.now) (value_of b.now) }
{
    match a {
        Value::None => matches!(b, Value::None),
        Value::Bool(a) => is_bool(*a, b),
        Value::Int(a) => is_int(*a, b),
        Value::Text(a) => is_text(a.as_str(), b),
        Value::Range(start, stop, step) => is_range(*start, *stop, *step, b),
        Value::Builtin(a) => is_builtin(*a, b),
        Value::Class(a) => is_class(*a, b),
        Value::Node(a) => is_node(*a, b),
    }
}

fn is_bool(a: bool, b: &Value) -> bool
    ensures { result ≡ is_same (bool a) (value_of b.now) }
{
    if let Value::Bool(b) = b {
        a == *b
    } else {
        false
    }
}

fn is_int(a: i128, b: &Value) -> bool
    ensures { result ≡ is_same (integer a) (value_of b.now) }
{
    if let Value::Int(b) = b {
        a == *b
    } else {
        false
    }
}

fn is_text(a: &str, b: &Value) -> bool
    ensures { result ≡ is_same (text (chars a.now)) (value_of b.now) }
{
    if let Value::Text(b) = b {
        is_same_text(a, b.as_str())
    } else {
        false
    }
}

fn is_range(start: i128, stop: i128, step: i128, b: &Value) -> bool
    ensures { result ≡ is_same (range start stop step) (value_of b.now) }
{
    if let Value::Range(other_start, other_stop, other_step) = b {
        start == *other_start && stop == *other_stop && step == *other_step
    } else {
        false
    }
}

fn is_builtin(a: Builtin, b: &Value) -> bool
    ensures { result ≡ is_same (builtin a.0) (value_of b.now) }
{
    if let Value::Builtin(b) = b {
        a.0 == b.0
    } else {
        false
    }
}

fn is_class(a: ClassId, b: &Value) -> bool
    ensures { result ≡ is_same (class a.0) (value_of b.now) }
{
    if let Value::Class(b) = b {
        a.0 == b.0
    } else {
        false
    }
}

fn is_node(a: NodeId, b: &Value) -> bool
    ensures { result ≡ is_same (node a.0) (value_of b.now) }
{
    if let Value::Node(b) = b {
        a.0 == b.0
    } else {
        false
    }
}

/// How many of `from`, `from + step` and so on lie below `to`.
fn steps_between(step: u128, from: i128, to: i128) -> u128
    requires { 0 < step }
    ensures { result ≡ steps_between step from to }
{
    if from < to {
        (to.abs_diff(from) - 1) / step + 1
    } else {
        0
    }
}

/// How many numbers a range has (Library Reference, "Ranges"): none where the step is 0.
pub fn range_length(start: i128, stop: i128, step: i128) -> u128
    ensures { result ≡ range_length start stop step }
{
    if step > 0 {
        steps_between(step.unsigned_abs(), start, stop)
    } else if step < 0 {
        steps_between(step.unsigned_abs(), stop, start)
    } else {
        0
    }
}

/// The numbers of a range: how many they are, the first, and the step.
fn numbers_in(value: &Value) -> Option<(u128, i128, i128)>
    ensures { result ≡ numbers_in (value_of value.now) }
{
    match value {
        Value::Range(start, stop, step) => {
            Some((range_length(*start, *stop, *step), *start, *step))
        }
        Value::None
        | Value::Bool(_)
        | Value::Int(_)
        | Value::Text(_)
        | Value::Builtin(_)
        | Value::Class(_)
        | Value::Node(_) => None,
    }
}

fn is_same_numbers(a: (u128, i128, i128), b: (u128, i128, i128)) -> bool
    ensures { result ≡ same_numbers a b }
{
    a.0 == b.0 && (a.0 == 0 || (a.1 == b.1 && (a.0 == 1 || a.2 == b.2)))
}

/// Whether two values that aren't both numbers are equal.
fn is_like(a: &Value, b: &Value) -> bool
    ensures { result ≡ is_like (value_of a.now) (value_of b.now) }
{
    if let (Some(a), Some(b)) = (numbers_in(a), numbers_in(b)) {
        return is_same_numbers(a, b);
    }
    is_same(a, b)
}

/// Whether two values are equal, two nodes by identity.
pub(crate) fn is_equal(a: &Value, b: &Value) -> bool
    ensures { result ≡ is_equal (value_of a.now) (value_of b.now) }
{
    if let (Some(a), Some(b)) = (number_in(a), number_in(b)) {
        return a == b;
    }
    is_like(a, b)
}

fn is_less_text(a: &Value, b: &Value) -> Option<bool>
    ensures { result ≡ less_texts (value_of a.now) (value_of b.now) }
{
    if let (Value::Text(a), Value::Text(b)) = (a, b) {
        return Some(order(a.as_str(), b.as_str()).is_lt());
    }
    None
}

/// Whether a value is less than another, where the two have an order by themselves.
pub(crate) fn is_less(a: &Value, b: &Value) -> Option<bool>
    ensures { result ≡ less_plain (value_of a.now) (value_of b.now) }
{
    if let (Some(a), Some(b)) = (number_in(a), number_in(b)) {
        return Some(a < b);
    }
    is_less_text(a, b)
}

/// How many steps a comparison of two values takes by itself: the code points of the shorter of two
/// texts, and else none.
pub fn pair_steps(a: &Value, b: &Value) -> usize
    ensures { result ≡ pair_steps (value_of a.now) (value_of b.now) }
{
    if let (Value::Text(a), Value::Text(b)) = (a, b) {
        return count(a.as_str()).min(count(b.as_str()));
    }
    0
}
