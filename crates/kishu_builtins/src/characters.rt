// `chr` and `ord`.
ghost use Rattle.std.specs.Prelude.{◌≡◌, ◌≤ℤ◌, ◌<ℤ◌, ◌^◌, pos, codes};
ghost use Rattle.std.specs.Str.{chars};
ghost use Rattle.kishu_meaning.specs.calls.Builtins.{by_number, character, code_point};
ghost use Rattle.kishu_meaning.specs.comparing.Equal.{number_in};
ghost use Rattle.kishu_meaning.specs.values.Kinds.{value_error};
ghost use Rattle.kishu_meaning.specs.moments.Moment.{Moment};
ghost use Rattle.kishu_meaning.specs.values.Values as model;
ghost use Rattle.kishu_meaning.specs.values.Values.{value_of};
ghost use Rattle.kishu_builtins.specs.Called.{Gives};

use kishu_heap::CallFault;
use kishu_items::{bad_arguments, character_text, number_in, plain_text, raise};
use kishu_meaning::{ClassId, Value};
use kishu_text::at;
use std::alloc::Global;

fn not_a_character(alloc: Global) -> Result<Value, CallFault>
    ensures { (s : Moment) → Gives value_of result s (value_error (codes "not a character") s) }
{
    raise(ClassId::VALUE_ERROR, plain_text(alloc, "not a character")?)
}

fn scalar(alloc: Global, number: u32) -> Result<Value, CallFault>
    ensures { (s : Moment) → Gives value_of result s (character (pos number) s) }
{
    match char::from_u32(number) {
        Some(character) => Ok(character_text(alloc, character)?),
        None => not_a_character(alloc),
    }
}

// The same number.
fn unsigned(number: i128) -> u32
    requires least { pos 0 ≤ℤ number }
    requires most { number <ℤ pos (2 ^ 32) }
    ensures { pos result ≡ number }
{
    number as u32
}

// The text of one code point.
fn character(alloc: Global, number: i128) -> Result<Value, CallFault>
    ensures { (s : Moment) → Gives value_of result s (character number s) }
{
    if number < 0 {
        return not_a_character(alloc);
    }
    if number > 0x10_FFFF {
        return not_a_character(alloc);
    }
    scalar(alloc, unsigned(number))
}

/// The text of the code point of a number.
pub(crate) fn chr(alloc: Global, value: &Value) -> Result<Value, CallFault>
    ensures { (s : Moment) → Gives value_of result s (by_number (codes "chr") (number_in (value_of value.now)) character s) }
{
    match number_in(value) {
        Some(number) => character(alloc, number),
        None => bad_arguments(alloc, "chr"),
    }
}

// The code point of a text of one.
fn only_character(alloc: Global, text: &str) -> Result<Value, CallFault>
    ensures { (s : Moment) → Gives value_of result s (code_point (model.text (chars text.now)) s) }
{
    match (at(text, 0), at(text, 1)) {
        (Some(character), None) => Ok(Value::Int(i128::from(u32::from(character)))),
        (Some(_), Some(_)) => bad_arguments(alloc, "ord"),
        (None, _) => bad_arguments(alloc, "ord"),
    }
}

/// The code point of a text of one.
pub(crate) fn ord(alloc: Global, value: &Value) -> Result<Value, CallFault>
    ensures { (s : Moment) → Gives value_of result s (code_point (value_of value.now) s) }
{
    match value {
        Value::Text(text) => only_character(alloc, text.as_str()),
        Value::None => bad_arguments(alloc, "ord"),
        Value::Bool(_) => bad_arguments(alloc, "ord"),
        Value::Int(_) => bad_arguments(alloc, "ord"),
        Value::Range(..) => bad_arguments(alloc, "ord"),
        Value::Builtin(_) => bad_arguments(alloc, "ord"),
        Value::Class(_) => bad_arguments(alloc, "ord"),
        Value::Node(_) => bad_arguments(alloc, "ord"),
    }
}
