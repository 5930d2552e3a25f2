// The bytes of values and keys.
ghost use Rattle.std.specs.Prelude.{◌≡◌, ◌<◌, ◌^◌, ◌++◌, ℕ, length, map, OnOk};
ghost use Rattle.kishu_meaning.specs.values.Keys.{part_of, key_of};
ghost use Rattle.kishu_meaning.specs.values.Values.{value_of, node};
ghost use Rattle.kishu_objects.specs.Bytes.{many, value_bytes, part_bytes, key_bytes};
ghost use Rattle.kishu_objects.specs.Fits.{AllFit, ValueFits, PartFits, KeyFits};
ghost use Rattle.kishu_objects.specs.Lists.{AllDiffer, In};
ghost use Rattle.kishu_objects.specs.Picture.{place};
ghost use Rattle.kishu_picture.specs.Rows.{value_at};

use crate::parts::{put_number, put_range, put_text, put_whole};
use indexmap::IndexSet;
use kishu_hash::NearHash;
use kishu_meaning::{Key, KeyPart, Value};
use std::alloc::AllocError;

/// The place of a node among those found. Where nodes stand in the order of first meeting, `next` is the place
/// of the next one that is met, and a node that stands there is found without a look into the table.
fn place_of(found: &IndexSet<u32, NearHash>, id: u32, next: &mut usize) -> usize
    requires met { In id found.now.keys }
    requires differ { AllDiffer found.now.keys }
    ensures place { result ≡ place found.now.keys id }
    ensures below { result < length found.now.keys }
{
    let first = *next;
    match found.get_index(first) {
        Some(there) if *there == id => {
            *next = first.saturating_add(1);
            first
        }
        _ => found.get_index_of(&id).unwrap_or(0),
    }
}

/// Puts a value behind. A node gets its place among those found as its number. At `next` the place of the next
/// node that is met is thought to be.
pub(crate) fn put_value(
    out: &mut Vec<u8>,
    value: &Value,
    found: &IndexSet<u32, NearHash>,
    next: &mut usize,
) -> Result<(), AllocError>
    requires met { (i : ℕ) → value_of value.now ≡ node i → In i found.now.keys }
    requires differ { AllDiffer found.now.keys }
    requires few { length found.now.keys < 2 ^ 32 }
    requires short { length (value_bytes (value_at found.now.keys value.now)) < 2 ^ 32 }
    ensures bytes { OnOk result (
        out.new.items ≡ out.old.items ++ value_bytes (value_at found.now.keys value.now)) }
    ensures fits { OnOk result (ValueFits (value_at found.now.keys value.now)) }
{
    match value {
        Value::None => out.push(0)?,
        Value::Bool(false) => out.push(1)?,
        Value::Bool(true) => out.push(2)?,
        Value::Int(number) => {
            out.push(3)?;
            put_whole(out, *number)?;
        }
        Value::Text(text) => {
            out.push(4)?;
            put_text(out, text.as_str())?;
        }
        Value::Range(start, stop, step) => {
            out.push(5)?;
            put_range(out, *start, *stop, *step)?;
        }
        Value::Builtin(builtin) => {
            out.push(6)?;
            out.push(builtin.0)?;
        }
        Value::Class(class) => {
            out.push(7)?;
            out.push(class.0)?;
        }
        Value::Node(id) => {
            let place = place_of(found, id.0, next);
            out.push(8)?;
            put_number(out, place as u32)?;
        }
    }
    Ok(())
}

/// Puts a part of a key behind, as the value that it is.
fn put_part(out: &mut Vec<u8>, part: &KeyPart) -> Result<(), AllocError>
    requires { length (part_bytes (part_of part.now)) < 2 ^ 32 }
    ensures bytes { OnOk result (out.new.items ≡ out.old.items ++ part_bytes (part_of part.now)) }
    ensures fits { OnOk result (PartFits (part_of part.now)) }
{
    match part {
        KeyPart::None => out.push(0)?,
        KeyPart::Bool(false) => out.push(1)?,
        KeyPart::Bool(true) => out.push(2)?,
        KeyPart::Int(number) => {
            out.push(3)?;
            put_whole(out, *number)?;
        }
        KeyPart::Text(text) => {
            out.push(4)?;
            put_text(out, text.as_str())?;
        }
    }
    Ok(())
}

/// Puts parts behind their number.
fn put_parts(out: &mut Vec<u8>, parts: &[KeyPart]) -> Result<(), AllocError>
    requires { length (many part_bytes (map part_of parts.now)) < 2 ^ 32 }
    ensures bytes { OnOk result (out.new.items ≡ out.old.items ++ many part_bytes (map part_of parts.now)) }
    ensures fits { OnOk result (AllFit PartFits (map part_of parts.now)) }
{
    put_number(out, parts.len() as u32)?;
    for part in parts {
        put_part(out, part)?;
    }
    Ok(())
}

/// Puts a key behind.
pub(crate) fn put_key(out: &mut Vec<u8>, key: &Key) -> Result<(), AllocError>
    requires { length (key_bytes (key_of key.now)) < 2 ^ 32 }
    ensures bytes { OnOk result (out.new.items ≡ out.old.items ++ key_bytes (key_of key.now)) }
    ensures fits { OnOk result (KeyFits (key_of key.now)) }
{
    match key {
        Key::None => out.push(0)?,
        Key::Bool(false) => out.push(1)?,
        Key::Bool(true) => out.push(2)?,
        Key::Int(number) => {
            out.push(3)?;
            put_whole(out, *number)?;
        }
        Key::Text(text) => {
            out.push(4)?;
            put_text(out, text.as_str())?;
        }
        Key::Tuple(parts) => {
            out.push(9)?;
            put_parts(out, parts.as_slice())?;
        }
    }
    Ok(())
}
