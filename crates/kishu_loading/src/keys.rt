// Keys of a dict.
ghost use Rattle.kishu_meaning.specs.values.Keys.{key_of, part_of};
ghost use Rattle.kishu_reading.specs.FromBytes as reading;
ghost use Rattle.kishu_loading.specs.Fronts.{Reads, GoesOn};
ghost use Rattle.kishu_loading.specs.Told.{parts_in};
ghost use Rattle.kishu_loading.specs.Moving.{one_key, one_part, parts_by};

use crate::cursor::{Cursor, Stop};
use crate::kinds;
use kishu_meaning::{Key, KeyPart};
use std::alloc::Global;

/// A part of a key that is a tuple.
#[tactic(auto, unfolding(crate::specs::Moving::one_part))]
fn part(alloc: Global, cursor: &mut Cursor) -> Result<KeyPart, Stop>
    ensures gives { Reads part_of one_part cursor.old result cursor.new }
    ensures forward { GoesOn cursor.old result cursor.new }
{
    let fault = cursor.fault();
    match cursor.byte()? {
        kinds::NONE => Ok(KeyPart::None),
        kinds::FALSE => Ok(KeyPart::Bool(false)),
        kinds::TRUE => Ok(KeyPart::Bool(true)),
        kinds::INT => Ok(KeyPart::Int(cursor.whole_number()?)),
        kinds::TEXT => Ok(KeyPart::Text(cursor.text(alloc)?)),
        _ => Err(fault),
    }
}

/// So many parts.
fn parts(alloc: Global, cursor: &mut Cursor, count: u32) -> Result<Vec<KeyPart>, Stop>
    ensures gives { Reads parts_in (reading.repeated count one_part) cursor.old result cursor.new }
    ensures forward { GoesOn cursor.old result cursor.new }
{
    let mut parts = Vec::new(alloc);
    for _turn in 0..count {
        let part = part(alloc, cursor)?;
        parts.push(part)?;
    }
    Ok(parts)
}

/// The parts of a tuple behind their number.
fn counted_parts(alloc: Global, cursor: &mut Cursor) -> Result<Vec<KeyPart>, Stop>
    ensures gives { Reads parts_in parts_by cursor.old result cursor.new }
    ensures forward { GoesOn cursor.old result cursor.new }
{
    let count = cursor.number()?;
    parts(alloc, cursor, count)
}

#[tactic(auto, unfolding(crate::specs::Moving::one_key, crate::specs::Moving::one_part))]
pub(crate) fn key(alloc: Global, cursor: &mut Cursor) -> Result<Key, Stop>
    ensures gives { Reads key_of one_key cursor.old result cursor.new }
    ensures forward { GoesOn cursor.old result cursor.new }
{
    let fault = cursor.fault();
    match cursor.byte()? {
        kinds::NONE => Ok(Key::None),
        kinds::FALSE => Ok(Key::Bool(false)),
        kinds::TRUE => Ok(Key::Bool(true)),
        kinds::INT => Ok(Key::Int(cursor.whole_number()?)),
        kinds::TEXT => Ok(Key::Text(cursor.text(alloc)?)),
        kinds::PARTS => Ok(Key::Tuple(counted_parts(alloc, cursor)?)),
        _ => Err(fault),
    }
}
