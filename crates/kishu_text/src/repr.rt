// The repr of a text.
ghost use Rattle.std.specs.Prelude.{◌≡◌, ◌<◌, ◌/◌, ◌%◌, ◌==◌, ◌++◌, [], ◌∷◌, None, IfOk, OnOk};
ghost use Rattle.std.specs.Char.{digit_char};
ghost use Rattle.std.specs.List.{list_any};
ghost use Rattle.std.specs.Str.{chars};
ghost use Rattle.std.specs.String.{string_bytes};
ghost use Rattle.kishu_language.specs.tokens.Quoted.{backslash};
ghost use Rattle.kishu_meaning.specs.values.Texts.{quote_of, letter_of, is_control, escaped, escaped_by, quoted};

use crate::cursor::{first_char, push_char};
use std::alloc::{AllocError, Global};

fn holds(text: &str, mark: char) -> bool
    ensures { result ≡ list_any (λ c. c == mark) (chars text.now) }
{
    let mut rest = text;
    while let Some((c, behind)) = first_char(rest) {
        if c == mark {
            return true;
        }
        rest = behind;
    }
    false
}

fn quote_of(text: &str) -> char
    ensures { result ≡ quote_of (chars text.now) }
{
    if holds(text, '\'') && !holds(text, '"') {
        '"'
    } else {
        '\''
    }
}

// What stands behind a backslash for a character.
fn letter_of(quote: char, c: char) -> Option<char>
    ensures { result ≡ letter_of quote c }
{
    if c == '\\' || c == quote {
        Some(c)
    } else if c == '\n' {
        Some('n')
    } else if c == '\r' {
        Some('r')
    } else if c == '\t' {
        Some('t')
    } else {
        None
    }
}

fn is_control(c: char) -> bool
    ensures { result ≡ is_control c }
{
    c < ' ' || c == '\x7f'
}

fn hex_digit(d: u32) -> char
    requires { d < 16 }
    ensures { result ≡ digit_char d }
{
    if d < 10 {
        (b'0' + d as u8) as char
    } else {
        (b'a' + (d as u8 - 10)) as char
    }
}

// Puts a backslash and a letter behind what is there.
fn push_letter(out: &mut String, letter: char) -> Result<(), AllocError>
    ensures { OnOk result (chars (string_bytes out.new) ≡ chars (string_bytes out.old) ++ backslash ∷ letter ∷ []) }
{
    push_char(out, '\\')?;
    push_char(out, letter)
}

// Puts `\x` and the two hexadecimal digits of a character behind what is there.
fn push_hex(out: &mut String, c: char) -> Result<(), AllocError>
    requires { c < 256 }
    ensures { OnOk result (chars (string_bytes out.new) ≡ chars (string_bytes out.old) ++ backslash ∷ 120 ∷ digit_char (c / 16) ∷ digit_char (c % 16) ∷ []) }
{
    push_letter(out, 'x')?;
    push_char(out, hex_digit(c as u32 / 16))?;
    push_char(out, hex_digit(c as u32 % 16))
}

// Puts a character that has no letter as it stands between quotes behind what is there.
fn push_plain(out: &mut String, c: char) -> Result<(), AllocError>
    ensures { OnOk result (chars (string_bytes out.new) ≡ chars (string_bytes out.old) ++ escaped_by None c) }
{
    if is_control(c) {
        push_hex(out, c)
    } else {
        push_char(out, c)
    }
}

// Puts a character as it stands between quotes behind what is there.
fn push_escaped(out: &mut String, quote: char, c: char) -> Result<(), AllocError>
    ensures { OnOk result (chars (string_bytes out.new) ≡ chars (string_bytes out.old) ++ escaped quote c) }
{
    match letter_of(quote, c) {
        Some(letter) => push_letter(out, letter),
        None => push_plain(out, c),
    }
}

/// The text as a literal that gives it back, the repr of Python: in `'`, or in `"` where it has `'`
/// and no `"`; a backslash, the quote round it and control characters are escaped (Library
/// Reference, "Built-in Functions": repr). An error says that no memory is left.
pub fn quote(alloc: Global, text: &str) -> Result<String, AllocError>
    ensures { IfOk result (λ s. chars (string_bytes s) ≡ quoted (chars text.now)) }
{
    let quote = quote_of(text);
    let mut out = String::new(alloc);
    push_char(&mut out, quote)?;
    let mut rest = text;
    while let Some((c, behind)) = first_char(rest) {
        push_escaped(&mut out, quote, c)?;
        rest = behind;
    }
    push_char(&mut out, quote)?;
    Ok(out)
}
