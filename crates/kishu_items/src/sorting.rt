// Sorting.
ghost use Rattle.std.specs.Prelude.{◌≡◌, ◌+◌, ◌≤◌, IfOk, OnOk, length, map, option_map};
ghost use Rattle.std.specs.Int.Digits.{digits_of};
ghost use Rattle.std.specs.Cmp.Lexicographic.{slice_cmp};
ghost use Rattle.std.specs.List.{list_all};
ghost use Rattle.std.specs.Ordering.{int_cmp, nat_cmp};
ghost use Rattle.std.specs.Str.{chars};
ghost use Rattle.kishu_meaning.specs.items.Sorting.{is_number, is_text, number_key, text_key, sorted_by, sort_steps, in_order};
ghost use Rattle.kishu_meaning.specs.values.Values.{value_of};

use crate::indexes::number_in;
use kishu_meaning::Value;
use kishu_text::order;
use std::alloc::AllocError;
use std::cmp::Ordering;

/// How many binary digits a number has. 0 has none.
fn binary_digits(number: u64) -> u64
    ensures value { result ≡ length (digits_of 2 number) }
    ensures few { result ≤ number }
{
    let mut rest = number;
    let mut count = 0;
    while rest > 0 {
        rest /= 2;
        count += 1;
    }
    count
}

/// How many steps it takes to sort so many items: their number times the count of its binary
/// digits, and their number once more.
pub fn sort_steps(len: u64) -> u128
    ensures { result ≡ sort_steps len }
{
    let digits = binary_digits(len);
    u128::from(len) * u128::from(digits) + u128::from(len)
}

// The number of a number, and 0 otherwise.
fn number_key(value: &Value) -> i128
    ensures { result ≡ number_key (value_of value.now) }
{
    number_in(value).unwrap_or(0)
}

// The code points of a text, and none otherwise.
fn text_key(value: &Value) -> &str
    ensures { chars result.now ≡ text_key (value_of value.now) }
{
    match value {
        Value::Text(text) => text.as_str(),
        Value::None
        | Value::Bool(_)
        | Value::Int(_)
        | Value::Range(..)
        | Value::Builtin(_)
        | Value::Class(_)
        | Value::Node(_) => "",
    }
}

fn is_number(value: &Value) -> bool
    ensures { result ≡ is_number (value_of value.now) }
{
    number_in(value).is_some()
}

fn is_text(value: &Value) -> bool
    ensures { result ≡ is_text (value_of value.now) }
{
    matches!(value, Value::Text(_))
}

fn number_order(a: &Value, b: &Value) -> Ordering
    ensures { result ≡ int_cmp (number_key (value_of a.now)) (number_key (value_of b.now)) }
{
    number_key(a).cmp(&number_key(b))
}

fn text_order(a: &Value, b: &Value) -> Ordering
    ensures { result ≡ slice_cmp nat_cmp (text_key (value_of a.now)) (text_key (value_of b.now)) }
{
    order(text_key(a), text_key(b))
}

fn are_numbers(values: &[Value]) -> bool
    ensures { result ≡ list_all (λ v. is_number (value_of v)) values.now }
{
    values.iter().all(|value| is_number(value))
}

fn are_texts(values: &[Value]) -> bool
    ensures { result ≡ list_all (λ v. is_text (value_of v)) values.now }
{
    values.iter().all(|value| is_text(value))
}

fn sort_numbers(items: &mut Vec<Value>) -> Result<(), AllocError>
    ensures { OnOk result (map value_of items.new.items ≡ sorted_by int_cmp number_key (map value_of items.old.items)) }
{
    items.sort_by(|a, b| number_order(a, b))
}

fn sort_texts(items: &mut Vec<Value>) -> Result<(), AllocError>
    ensures { OnOk result (map value_of items.new.items ≡ sorted_by (slice_cmp nat_cmp) text_key (map value_of items.old.items)) }
{
    items.sort_by(|a, b| text_order(a, b))
}

/// The items in order, where all are numbers or all are texts, and else `None` (Library Reference,
/// "Built-in Functions": sorted).
pub fn in_order(mut items: Vec<Value>) -> Result<Option<Vec<Value>>, AllocError>
    ensures { IfOk result (λ o. option_map (λ v. map value_of v.items) o ≡ in_order (map value_of items.items)) }
{
    if are_numbers(&items) {
        sort_numbers(&mut items)?;
        return Ok(Some(items));
    }
    if are_texts(&items) {
        sort_texts(&mut items)?;
        return Ok(Some(items));
    }
    Ok(None)
}
