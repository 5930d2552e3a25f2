// Texts of keys.
ghost use Rattle.std.specs.Prelude.{◌≡◌, ◌==◌, ◌++◌, IfOk, IsTrue, OnOk, codes, if◌then◌else◌, map, nat_lt};
ghost use Rattle.std.specs.List.{flat_map, list_all};
ghost use Rattle.std.specs.Str.{chars};
ghost use Rattle.std.specs.String.{string_bytes};
ghost use Rattle.kishu_meaning.specs.values.Keys.{key_of, part_of, tuple};
ghost use Rattle.kishu_meaning.specs.comparing.Show.{key_text, part_text};
ghost use Rattle.kishu_meaning.specs.values.Texts.{joined};

use crate::plain::{bool_text, none_text, number_text};
use crate::pushes::{empty, push_ascii, push_text};
use kishu_meaning::{Key, KeyPart};
use kishu_text::quote;
use std::alloc::{AllocError, Global};

/// What ends a tuple of so many: one alone has a comma behind it.
pub(crate) fn tuple_end(count: usize) -> &'static str
    ensures text { result.now ≡ (if count == 1 then codes ",)" else codes ")") }
    ensures plain { IsTrue (list_all (λ c. nat_lt c 128) result.now) }
{
    if count == 1 { ",)" } else { ")" }
}

fn part_text(alloc: Global, part: &KeyPart) -> Result<String, AllocError>
    ensures { IfOk result (λ s. chars (string_bytes s) ≡ part_text (part_of part.now)) }
{
    match part {
        KeyPart::None => none_text(alloc),
        KeyPart::Bool(holds) => bool_text(alloc, *holds),
        KeyPart::Int(number) => number_text(alloc, *number),
        KeyPart::Text(text) => quote(alloc, text.as_str()),
    }
}

// Puts a part's text behind what is there.
fn push_part(alloc: Global, out: &mut String, part: &KeyPart) -> Result<(), AllocError>
    ensures { OnOk result (chars (string_bytes out.new) ≡ chars (string_bytes out.old) ++ part_text (part_of part.now)) }
{
    let text = part_text(alloc, part)?;
    push_text(out, text.as_str())
}

// Puts the texts of parts behind what is there, each behind a comma.
fn push_others(alloc: Global, out: &mut String, parts: &[KeyPart]) -> Result<(), AllocError>
    ensures { OnOk result (chars (string_bytes out.new) ≡ chars (string_bytes out.old) ++ flat_map (λ next. codes ", " ++ next) (map part_text (map part_of parts.now))) }
{
    for part in parts {
        push_ascii(out, ", ")?;
        push_part(alloc, out, part)?;
    }
    Ok(())
}

// Puts the texts of parts behind what is there, with a comma between each two.
fn push_parts(alloc: Global, out: &mut String, parts: &[KeyPart]) -> Result<(), AllocError>
    ensures { OnOk result (chars (string_bytes out.new) ≡ chars (string_bytes out.old) ++ joined (codes ", ") (map part_text (map part_of parts.now))) }
{
    let Some((first, others)) = parts.split_first() else {
        return Ok(());
    };
    push_part(alloc, out, first)?;
    push_others(alloc, out, others)
}

fn tuple_text(alloc: Global, parts: &[KeyPart]) -> Result<String, AllocError>
    ensures { IfOk result (λ s. chars (string_bytes s) ≡ key_text (tuple (map part_of parts.now))) }
{
    let mut out = empty(alloc);
    push_ascii(&mut out, "(")?;
    push_parts(alloc, &mut out, parts)?;
    push_ascii(&mut out, tuple_end(parts.len()))?;
    Ok(out)
}

/// The text of a key, which is the repr of the value that it stands for.
///
/// Errors: `AllocError`, where there was no memory.
pub fn key_text(alloc: Global, key: &Key) -> Result<String, AllocError>
    ensures { IfOk result (λ s. chars (string_bytes s) ≡ key_text (key_of key.now)) }
{
    match key {
        Key::None => none_text(alloc),
        Key::Bool(holds) => bool_text(alloc, *holds),
        Key::Int(number) => number_text(alloc, *number),
        Key::Text(text) => quote(alloc, text.as_str()),
        Key::Tuple(parts) => tuple_text(alloc, parts.as_slice()),
    }
}
