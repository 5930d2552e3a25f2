// Occurrences of a part.
ghost use Rattle.std.specs.Prelude.{◌≡◌, ◌<◌, [], ◌∷◌, Some, None, length, MatchOption, IfSome, IfOk};
ghost use Rattle.std.specs.Str.{chars};
ghost use Rattle.std.specs.String.{string_bytes};
ghost use Rattle.kishu_text.specs.Places.{IsFirstPlace};
ghost use Rattle.kishu_meaning.specs.values.Texts.{code_points, first_place, joined, occurrences, pieces, replaced};

use crate::cursor::{owned, push_text};
use crate::index::count;
use std::alloc::{AllocError, Global};

// What stands before the first occurrence of a part, and what stands behind it.
fn cut_once<'a>(text: &'a str, part: &str) -> Option<(&'a str, &'a str)>
    ensures place { MatchOption result (first_place (chars part.now) (chars text.now) ≡ None)
        (λ p. first_place (chars part.now) (chars text.now) ≡ Some (length (chars p.0.now))) }
    ensures pieces { 0 < length part.now → MatchOption result (pieces (chars part.now) (chars text.now) ≡ chars text.now ∷ [])
        (λ p. pieces (chars part.now) (chars text.now) ≡ chars p.0.now ∷ pieces (chars part.now) (chars p.1.now)) }
    ensures shorter { 0 < length part.now → IfSome result (λ p. length p.1.now < length text.now) }
{
    text.split_once(part)
}

/// The first place at which a text has a part, or `None` where it doesn't have it. The empty part
/// stands at place 0 (Library Reference, "String Methods": find).
pub fn find(text: &str, part: &str) -> Option<usize>
    ensures place { result ≡ first_place (chars part.now) (chars text.now) }
    ensures first { IsFirstPlace (chars part.now) (chars text.now) result }
{
    match cut_once(text, part) {
        Some((front, _)) => Some(count(front)),
        None => None,
    }
}

/// How often a part, which isn't empty, occurs in a text, taken from the left and without overlap
/// (Library Reference, "String Methods": count).
pub fn occurrences(text: &str, part: &str) -> usize
    requires { 0 < length part.now }
    ensures { result ≡ occurrences (chars part.now) (chars text.now) }
{
    let mut rest = text;
    let mut n = 0;
    while let Some((_, behind)) = cut_once(rest, part) {
        n += 1;
        rest = behind;
    }
    n
}

/// The pieces between the occurrences of a part, which isn't empty; they are taken from the left
/// and without overlap (Library Reference, "String Methods": split). An error says that no memory
/// is left.
pub fn split(alloc: Global, text: &str, part: &str) -> Result<Vec<String>, AllocError>
    requires { 0 < length part.now }
    ensures pieces { IfOk result (λ v. code_points v.items ≡ pieces (chars part.now) (chars text.now)) }
    ensures whole { IfOk result (λ v. joined (chars part.now) (code_points v.items) ≡ chars text.now) }
{
    let mut pieces = Vec::new(alloc);
    let mut rest = text;
    while let Some((piece, behind)) = cut_once(rest, part) {
        pieces.push(owned(alloc, piece)?)?;
        rest = behind;
    }
    pieces.push(owned(alloc, rest)?)?;
    Ok(pieces)
}

/// The text with `by` in place of each occurrence of a part, which isn't empty; they are taken from
/// the left and without overlap (Library Reference, "String Methods": replace). An error says that
/// no memory is left.
pub fn replace(alloc: Global, text: &str, part: &str, by: &str) -> Result<String, AllocError>
    requires { 0 < length part.now }
    ensures { IfOk result (λ s. chars (string_bytes s) ≡ replaced (chars text.now) (chars part.now) (chars by.now)) }
{
    let mut replaced = String::new(alloc);
    let mut rest = text;
    while let Some((piece, behind)) = cut_once(rest, part) {
        push_text(&mut replaced, piece)?;
        push_text(&mut replaced, by)?;
        rest = behind;
    }
    push_text(&mut replaced, rest)?;
    Ok(replaced)
}
