// White space: space, tab, line feed, vertical tab, form feed and carriage return.
ghost use Rattle.std.specs.Prelude.{◌≡◌, ◌<◌, ◌++◌, [], ◌∷◌, length, reverse, MatchOption, IfSome, IfOk, OnOk};
ghost use Rattle.std.specs.List.{filter, slice_split};
ghost use Rattle.std.specs.Str.{chars};
ghost use Rattle.std.specs.String.{string_bytes};
ghost use Rattle.kishu_meaning.specs.values.Texts.{code_points, is_nonempty, words};
ghost use Rattle.kishu_meaning.specs.values.White.{is_white, without_front, stripped};

use crate::cursor::{first_char, last_char, owned};
use std::alloc::{AllocError, Global};

const WHITE: [char; 6] = [' ', '\t', '\n', '\x0b', '\x0c', '\r'];

fn is_white(c: char) -> bool
    ensures { result ≡ is_white c }
{
    c == ' ' || ('\t' <= c && c <= '\r')
}

fn strip_front(text: &str) -> &str
    ensures { chars result.now ≡ without_front (chars text.now) }
{
    let mut rest = text;
    while let Some((c, behind)) = first_char(rest) {
        if !is_white(c) {
            return rest;
        }
        rest = behind;
    }
    rest
}

fn strip_end(text: &str) -> &str
    ensures { reverse (chars result.now) ≡ without_front (reverse (chars text.now)) }
{
    let mut rest = text;
    while let Some((before, c)) = last_char(rest) {
        if !is_white(c) {
            return rest;
        }
        rest = before;
    }
    rest
}

/// The text without the white space at its ends, which is space, `\t`, `\n`, `\v`, `\f` and `\r`
/// (Library Reference, "String Methods": strip).
pub fn strip(text: &str) -> &str
    ensures { chars result.now ≡ stripped (chars text.now) }
{
    strip_end(strip_front(text))
}

// What stands before the first white space, and what stands behind that character.
fn cut_at_white(text: &str) -> Option<(&str, &str)>
    ensures pieces { MatchOption result (slice_split is_white (chars text.now) ≡ chars text.now ∷ [])
        (λ p. slice_split is_white (chars text.now) ≡ chars p.0.now ∷ slice_split is_white (chars p.1.now)) }
    ensures shorter { IfSome result (λ p. length p.1.now < length text.now) }
{
    text.split_once(WHITE)
}

// Puts a piece behind the words, unless it is empty.
fn push_word(alloc: Global, words: &mut Vec<String>, word: &str) -> Result<(), AllocError>
    ensures { OnOk result (code_points words.new.items ≡ code_points words.old.items ++ filter is_nonempty (chars word.now ∷ [])) }
{
    if word.is_empty() {
        return Ok(());
    }
    words.push(owned(alloc, word)?)?;
    Ok(())
}

/// The pieces between runs of white space, none of them empty (Library Reference, "String Methods":
/// split without a separator). An error says that no memory is left.
pub fn split_space(alloc: Global, text: &str) -> Result<Vec<String>, AllocError>
    ensures { IfOk result (λ v. code_points v.items ≡ words (chars text.now)) }
{
    let mut words = Vec::new(alloc);
    let mut rest = text;
    while let Some((word, behind)) = cut_at_white(rest) {
        push_word(alloc, &mut words, word)?;
        rest = behind;
    }
    push_word(alloc, &mut words, rest)?;
    Ok(words)
}
