// Characters and line ends.
ghost use Rattle.std.specs.Prelude.{◌≡◌, ◌<◌, ◌≤◌, ◌++◌, ◌==◌, length, slice_index, IfOk, OnOk};
ghost use Rattle.std.specs.Str.{chars, encode_utf8_all};
ghost use Rattle.std.specs.String.{string_bytes};
ghost use Rattle.std.specs.List.{count_by, sum_by};
ghost use Rattle.kishu_language.specs.tokens.PlainLines as spec;
ghost use Rattle.kishu_language.specs.tokens.Lexemes as pieces;
ghost use Rattle.kishu_language.specs.tokens.Layout as layout;
ghost use Rattle.kishu_lexer.specs.Views.{plain_char};

use std::alloc::{AllocError, Global};

/// The character at the place, or that of code 0 past the end.
pub(crate) fn at(text: &[char], i: usize) -> char
    ensures value { result ≡ slice_index text.now i }
    ensures inside { 0 < result → i < length text.now }
{
    if i < text.len() { text[i] } else { '\0' }
}

/// How many lines end in a text.
pub(crate) fn feeds(text: &[char]) -> usize
    ensures value { result ≡ pieces.feeds text.now }
    ensures within { result ≤ length text.now }
{
    text.iter().filter(|c| **c == '\n').count()
}

fn all_chars(alloc: Global, text: &str) -> Result<Vec<char>, AllocError>
    ensures value { IfOk result (λ v. v.items ≡ chars text.now) }
    ensures within { IfOk result (λ v. length v.items ≤ length text.now) }
{
    text.chars().collect(alloc)
}

// What a character becomes, by the one after it.
fn push_plain(out: &mut Vec<char>, c: char, next: char) -> Result<(), AllocError>
    ensures { OnOk result (out.new.items ≡ out.old.items ++ plain_char c next) }
{
    if c != '\r' {
        out.push(c)?;
    } else if next != '\n' {
        out.push('\n')?;
    }
    Ok(())
}

fn without_returns(alloc: Global, text: &[char]) -> Result<Vec<char>, AllocError>
    ensures value { IfOk result (λ v. v.items ≡ spec.plain_lines text.now) }
    ensures within { IfOk result (λ v. length v.items ≤ length text.now) }
{
    let mut out = Vec::new(alloc);
    for i in 0..text.len() {
        push_plain(&mut out, text[i], at(text, i + 1))?;
    }
    Ok(out)
}

/// The characters of a text with plain line ends.
pub(crate) fn plain_chars(alloc: Global, text: &str) -> Result<Vec<char>, AllocError>
    ensures value { IfOk result (λ v. v.items ≡ spec.plain_lines (chars text.now)) }
    ensures within { IfOk result (λ v. length v.items ≤ length text.now) }
{
    let all = all_chars(alloc, text)?;
    without_returns(alloc, all.as_slice())
}

/// The text of some characters.
pub(crate) fn text_of(alloc: Global, characters: &[char]) -> Result<String, AllocError>
    ensures { IfOk result (λ s. string_bytes s ≡ encode_utf8_all characters.now) }
{
    let mut out = String::new(alloc);
    for c in characters {
        out.push(*c)?;
    }
    Ok(out)
}

/// A text in which each carriage return with a line feed, and each lone one, is one line feed. An
/// error says that no memory is left.
pub fn plain_lines(alloc: Global, text: &str) -> Result<String, AllocError>
    ensures { IfOk result (λ s. string_bytes s ≡ encode_utf8_all (spec.plain_lines (chars text.now))) }
{
    let plain = plain_chars(alloc, text)?;
    text_of(alloc, plain.as_slice())
}
