// Texts of values that have no node.
ghost use Rattle.std.specs.Prelude.{◌≡◌, ◌++◌, IfOk, IsTrue, OnOk, codes, nat_lt, option_map};
ghost use Rattle.std.specs.Fmt.{signed_decimal};
ghost use Rattle.std.specs.List.{list_all};
ghost use Rattle.std.specs.Str.{chars};
ghost use Rattle.std.specs.String.{string_bytes};
ghost use Rattle.kishu_meaning.specs.comparing.Equal.{node_in};
ghost use Rattle.kishu_meaning.specs.comparing.Show.{bool_text, builtin_name, class_name, repr_text, step_text};
ghost use Rattle.kishu_meaning.specs.values.Values.{value_of, range};

use crate::pushes::{empty, push_ascii, push_number};
use kishu_meaning::{Builtin, ClassId, NodeId, Value, builtin_name, class_name};
use kishu_text::quote;
use std::alloc::{AllocError, Global};

/// The node of a value that is one.
pub(crate) fn node_in(value: &Value) -> Option<NodeId>
    ensures { option_map (λ id. id.0) result ≡ node_in (value_of value.now) }
{
    match value {
        Value::Node(id) => Some(*id),
        Value::None
        | Value::Bool(_)
        | Value::Int(_)
        | Value::Text(_)
        | Value::Range(..)
        | Value::Builtin(_)
        | Value::Class(_) => None,
    }
}

/// A text of ASCII characters.
pub(crate) fn ascii_text(alloc: Global, text: &str) -> Result<String, AllocError>
    requires { IsTrue (list_all (λ c. nat_lt c 128) text.now) }
    ensures { IfOk result (λ s. chars (string_bytes s) ≡ text.now) }
{
    let mut out = empty(alloc);
    push_ascii(&mut out, text)?;
    Ok(out)
}

/// The text of None.
pub(crate) fn none_text(alloc: Global) -> Result<String, AllocError>
    ensures { IfOk result (λ s. chars (string_bytes s) ≡ codes "None") }
{
    ascii_text(alloc, "None")
}

/// The text of a truth value.
pub(crate) fn bool_text(alloc: Global, holds: bool) -> Result<String, AllocError>
    ensures { IfOk result (λ s. chars (string_bytes s) ≡ bool_text holds) }
{
    if holds {
        ascii_text(alloc, "True")
    } else {
        ascii_text(alloc, "False")
    }
}

/// The text of a number.
pub(crate) fn number_text(alloc: Global, number: i128) -> Result<String, AllocError>
    ensures { IfOk result (λ s. chars (string_bytes s) ≡ signed_decimal number) }
{
    let mut out = empty(alloc);
    push_number(alloc, &mut out, number)?;
    Ok(out)
}

// Puts the step of a range behind what is there. A step of 1 isn't shown.
fn push_step(alloc: Global, out: &mut String, step: i128) -> Result<(), AllocError>
    ensures { OnOk result (chars (string_bytes out.new) ≡ chars (string_bytes out.old) ++ step_text step) }
{
    if step == 1 {
        return Ok(());
    }
    push_ascii(out, ", ")?;
    push_number(alloc, out, step)
}

fn range_text(alloc: Global, start: i128, stop: i128, step: i128) -> Result<String, AllocError>
    ensures { IfOk result (λ s. chars (string_bytes s) ≡ repr_text (range start stop step)) }
{
    let mut out = empty(alloc);
    push_ascii(&mut out, "range(")?;
    push_number(alloc, &mut out, start)?;
    push_ascii(&mut out, ", ")?;
    push_number(alloc, &mut out, stop)?;
    push_step(alloc, &mut out, step)?;
    push_ascii(&mut out, ")")?;
    Ok(out)
}

fn builtin_text(alloc: Global, builtin: Builtin) -> Result<String, AllocError>
    ensures { IfOk result (λ s. chars (string_bytes s) ≡ codes "<built-in function " ++ builtin_name builtin.0 ++ codes ">") }
{
    let name = builtin_name(builtin);
    format!(in alloc; "<built-in function {name}>")
}

fn class_text(alloc: Global, class: ClassId) -> Result<String, AllocError>
    ensures { IfOk result (λ s. chars (string_bytes s) ≡ codes "<class '" ++ class_name class.0 ++ codes "'>") }
{
    let name = class_name(class);
    format!(in alloc; "<class '{name}'>")
}

/// The repr of a value that has no node (Library Reference, "Built-in Functions": repr). A node's
/// text isn't known from its number: it is empty here.
///
/// Errors: `AllocError`, where there was no memory.
pub fn plain_text(alloc: Global, value: &Value) -> Result<String, AllocError>
    ensures { IfOk result (λ s. chars (string_bytes s) ≡ repr_text (value_of value.now)) }
{
    match value {
        Value::None => none_text(alloc),
        Value::Bool(holds) => bool_text(alloc, *holds),
        Value::Int(number) => number_text(alloc, *number),
        Value::Text(text) => quote(alloc, text.as_str()),
        Value::Range(start, stop, step) => range_text(alloc, *start, *stop, *step),
        Value::Builtin(builtin) => builtin_text(alloc, *builtin),
        Value::Class(class) => class_text(alloc, *class),
        Value::Node(_) => ascii_text(alloc, ""),
    }
}
