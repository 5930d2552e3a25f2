// Length, elements and slices.
ghost use Rattle.std.specs.Prelude.{◌≡◌, ◌^◌, pos, ◌+ℤ◌, ◌≤ℤ◌, ◌<ℤ◌, length, slice_get, IfOk};
ghost use Rattle.std.specs.Str.{chars};
ghost use Rattle.std.specs.String.{string_bytes};
ghost use Rattle.kishu_meaning.specs.values.Texts.{places, LieWithin, picked};

use crate::cursor::push_char;
use std::alloc::{AllocError, Global};

/// How many code points a text has (Library Reference, "Built-in Functions": len).
pub fn count(text: &str) -> usize
    ensures { result ≡ length (chars text.now) }
{
    text.chars().count()
}

/// The code point at a place, which counts from 0, or `None` where the text ends before it
/// (Library Reference, "Common Sequence Operations").
pub fn at(text: &str, i: usize) -> Option<char>
    ensures { result ≡ slice_get (chars text.now) i }
{
    text.chars().nth(i)
}

/// The place that stands `step` behind a place.
pub fn next_place(place: usize, step: i128) -> usize
    requires on { pos 0 ≤ℤ (pos place +ℤ step) }
    requires within { (pos place +ℤ step) <ℤ pos (2 ^ 64) }
    ensures { pos result ≡ pos place +ℤ step }
{
    (place as i128 + step) as usize
}

// The characters at `len` places, of which `first` is the first.
fn pick(
    alloc: Global,
    characters: &[char],
    first: usize,
    step: i128,
    len: usize,
) -> Result<String, AllocError>
    requires { LieWithin (length characters.now) (places (pos first) step len) }
    ensures { IfOk result (λ s. chars (string_bytes s) ≡ picked characters.now (places (pos first) step len)) }
{
    let mut picked = String::new(alloc);
    let mut place = first;
    for k in 0..len {
        push_char(&mut picked, characters[place])?;
        if k + 1 < len {
            place = next_place(place, step);
        }
    }
    Ok(picked)
}

fn characters(alloc: Global, text: &str) -> Result<Vec<char>, AllocError>
    ensures { IfOk result (λ v. v.items ≡ chars text.now) }
{
    text.chars().collect(alloc)
}

/// The code points at `len` places, as a text: the first place is `start`, and each other one is
/// `step` behind the one before it (Library Reference, "Common Sequence Operations"). These places
/// must lie in the text. An error says that no memory is left.
pub fn slice(
    alloc: Global,
    text: &str,
    start: i128,
    step: i128,
    len: usize,
) -> Result<String, AllocError>
    requires { LieWithin (length (chars text.now)) (places start step len) }
    ensures { IfOk result (λ s. chars (string_bytes s) ≡ picked (chars text.now) (places start step len)) }
{
    if len == 0 {
        return Ok(String::new(alloc));
    }
    let characters = characters(alloc, text)?;
    pick(alloc, &characters, start as usize, step, len)
}
