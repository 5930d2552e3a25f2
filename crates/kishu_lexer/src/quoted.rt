// Texts in quotes.
ghost use Rattle.std.specs.Prelude.{◌≡◌, ◌++◌, ◌<◌, ◌≤◌, ◌+◌, ◌^◌, length, slice_index, take, drop, IfOk, OnOk, IfSome, IsTrue, option_map};
ghost use Rattle.std.specs.List.{prefix_len};
ghost use Rattle.std.specs.Char.{is_digit};
ghost use Rattle.std.specs.Str.{encode_utf8_all};
ghost use Rattle.std.specs.String.{string_bytes};
ghost use Rattle.kishu_language.specs.tokens.Quoted as spec;
ghost use Rattle.kishu_language.specs.tokens.Numerals as numerals;
ghost use Rattle.kishu_lexer.specs.Views.{meant, read_of, found_of};

use crate::lines::at;
use crate::numerals::digits_value;
use std::alloc::{AllocError, Global};

/// The characters that an item of a text stands for.
#[derive(Clone, Copy)]
pub(crate) enum Meant<'a> {
    Nothing,
    One(char),
    Kept(&'a [char]),
}

// An item's meaning, and how many characters it takes.
type Read<'a> = Option<(Meant<'a>, usize)>;

// At most n characters behind the first k.
fn behind(text: &[char], k: usize, n: usize) -> &[char]
    ensures value { result.now ≡ take n (drop k text.now) }
    ensures within { 0 < length result.now → k + length result.now ≤ length text.now }
    ensures small { length result.now ≤ n }
{
    if text.len() <= k {
        return &[];
    }
    let rest = &text[k..];
    if rest.len() <= n { rest } else { &rest[..n] }
}

fn digits_len(base: u32, text: &[char]) -> usize
    requires low { 2 ≤ base }
    requires high { base ≤ 16 }
    ensures value { result ≡ prefix_len (λ c. is_digit c base) text.now }
    ensures within { result ≤ length text.now }
{
    text.iter().take_while(|c| c.is_digit(base)).count()
}

fn coded(base: u32, digits: &[char], n: usize) -> Read<'_>
    requires { 2 ≤ base }
    ensures value { option_map read_of result ≡ spec.coded (numerals.digits_value base digits.now) n }
    ensures taken { IfSome result (λ r. r.1 ≡ n) }
{
    let code = digits_value(base, digits)?;
    if code > 0x10_ffff {
        return None;
    }
    match char::from_u32(code as u32) {
        Some(c) => Some((Meant::One(c), n)),
        None => None,
    }
}

fn hexadecimal(count: usize, text: &[char]) -> Read<'_>
    requires some { 0 < count }
    requires few { count ≤ 8 }
    ensures value { option_map read_of result ≡ spec.hexadecimal count text.now }
    ensures some { IfSome result (λ r. 0 < r.1) }
    ensures within { IfSome result (λ r. r.1 ≤ length text.now) }
{
    let digits = behind(text, 2, count);
    if digits_len(16, digits) != count {
        return None;
    }
    coded(16, digits, 2 + count)
}

fn octal(text: &[char]) -> Read<'_>
    requires { 1 < length text.now }
    ensures value { option_map read_of result ≡ spec.octal text.now }
    ensures some { IfSome result (λ r. 0 < r.1) }
    ensures within { IfSome result (λ r. r.1 ≤ length text.now) }
{
    let n = digits_len(8, behind(text, 1, 3));
    coded(8, behind(text, 1, n), 1 + n)
}

fn short_escape(e: char) -> Option<char>
    ensures { result ≡ spec.short_escape e }
{
    match e {
        '\\' => Some('\\'),
        '\'' => Some('\''),
        '"' => Some('"'),
        'a' => Some('\x07'),
        'b' => Some('\x08'),
        'f' => Some('\x0c'),
        'n' => Some('\n'),
        'r' => Some('\r'),
        't' => Some('\t'),
        'v' => Some('\x0b'),
        _ => None,
    }
}

fn kept(text: &[char]) -> Read<'_>
    requires { 1 < length text.now }
    ensures value { option_map read_of result ≡ spec.kept text.now }
    ensures some { IfSome result (λ r. 0 < r.1) }
    ensures within { IfSome result (λ r. r.1 ≤ length text.now) }
{
    Some((Meant::Kept(behind(text, 0, 2)), 2))
}

fn long_escape(e: char, text: &[char]) -> Read<'_>
    requires { 1 < length text.now }
    ensures value { option_map read_of result ≡ spec.long_escape e text.now }
    ensures some { IfSome result (λ r. 0 < r.1) }
    ensures within { IfSome result (λ r. r.1 ≤ length text.now) }
{
    match e {
        '\n' => Some((Meant::Nothing, 2)),
        'x' => hexadecimal(2, text),
        'u' => hexadecimal(4, text),
        'U' => hexadecimal(8, text),
        'N' => None,
        '0'..='7' => octal(text),
        _ => kept(text),
    }
}

#[tactic(auto, unfolding(kishu_language::specs::tokens::Quoted::escape))]
fn escape(text: &[char]) -> Read<'_>
    requires { 1 < length text.now }
    ensures value { option_map read_of result ≡ spec.escape text.now }
    ensures some { IfSome result (λ r. 0 < r.1) }
    ensures within { IfSome result (λ r. r.1 ≤ length text.now) }
{
    let e = at(text, 1);
    match short_escape(e) {
        Some(c) => Some((Meant::One(c), 2)),
        None => long_escape(e, text),
    }
}

#[tactic(auto, unfolding(kishu_language::specs::tokens::Quoted::item))]
fn item(is_raw: bool, is_triple: bool, text: &[char]) -> Read<'_>
    requires { 0 < length text.now }
    ensures value { option_map read_of result ≡ spec.item is_raw is_triple text.now }
    ensures some { IfSome result (λ r. 0 < r.1) }
    ensures within { IfSome result (λ r. r.1 ≤ length text.now) }
{
    let c = text[0];
    if c == '\\' {
        if text.len() < 2 {
            None
        } else if is_raw {
            kept(text)
        } else {
            escape(text)
        }
    } else if c == '\n' && !is_triple {
        None
    } else {
        Some((Meant::One(c), 1))
    }
}

fn push_meant(out: &mut String, characters: Meant<'_>) -> Result<(), AllocError>
    ensures { OnOk result (string_bytes out.new ≡ string_bytes out.old ++ encode_utf8_all (meant characters.entry)) }
{
    match characters {
        Meant::Nothing => {}
        Meant::One(c) => out.push(c)?,
        Meant::Kept(kept) => push_all(out, kept)?,
    }
    Ok(())
}

fn push_all(out: &mut String, characters: &[char]) -> Result<(), AllocError>
    ensures { OnOk result (string_bytes out.new ≡ string_bytes out.old ++ encode_utf8_all characters.now) }
{
    for c in characters {
        out.push(*c)?;
    }
    Ok(())
}

fn is_threefold(quote: char, text: &[char]) -> bool
    ensures value { result ≡ spec.is_threefold quote text.now }
    ensures within { IsTrue result → 0 < quote → 3 ≤ length text.now }
{
    at(text, 0) == quote && at(text, 1) == quote && at(text, 2) == quote
}

#[tactic(auto, unfolding(kishu_language::specs::tokens::Quoted::closes))]
fn closes(quote: char, is_triple: bool, text: &[char]) -> bool
    ensures value { result ≡ spec.closes quote is_triple text.now }
    ensures within { IsTrue result → 0 < quote → spec.quotes is_triple ≤ length text.now }
{
    if is_triple {
        is_threefold(quote, text)
    } else {
        at(text, 0) == quote
    }
}

fn quotes(is_triple: bool) -> usize
    ensures value { result ≡ spec.quotes is_triple }
    ensures small { result ≤ 3 }
{
    if is_triple { 3 } else { 1 }
}

// What stands up to the closing quotes, with its escapes read, and how many characters it takes
// with them; none where the text doesn't end or an escape is wrong.
fn body(
    alloc: Global,
    is_raw: bool,
    quote: char,
    is_triple: bool,
    text: &[char],
) -> Result<Option<(String, usize)>, AllocError>
    requires quote { 0 < quote }
    requires room { length text.now < 2 ^ 60 }
    ensures value { IfOk result (λ r. option_map found_of r ≡ spec.body is_raw quote is_triple text.now) }
    ensures within { IfOk result (λ r. IfSome r (λ p. p.1 ≤ length text.now)) }
{
    let mut out = String::new(alloc);
    let mut len = 0;
    let mut rest = text;
    while !rest.is_empty() {
        if closes(quote, is_triple, rest) {
            return Ok(Some((out, len + quotes(is_triple))));
        }
        let Some((characters, n)) = item(is_raw, is_triple, rest) else {
            return Ok(None);
        };
        push_meant(&mut out, characters)?;
        let (_, after) = rest.split_at(n);
        rest = after;
        len += n;
    }
    Ok(None)
}

/// The text whose opening quote comes first, and how many characters it takes.
#[tactic(auto, unfolding(kishu_language::specs::tokens::Quoted::quoted))]
pub(crate) fn quoted(
    alloc: Global,
    is_raw: bool,
    text: &[char],
) -> Result<Option<(String, usize)>, AllocError>
    requires quote { 0 < slice_index text.now 0 }
    requires room { length text.now < 2 ^ 60 }
    ensures value { IfOk result (λ r. option_map found_of r ≡ spec.quoted is_raw text.now) }
    ensures some { IfOk result (λ r. IfSome r (λ p. 0 < p.1)) }
    ensures within { IfOk result (λ r. IfSome r (λ p. p.1 ≤ length text.now)) }
{
    let quote = at(text, 0);
    let is_triple = is_threefold(quote, text);
    let opening = quotes(is_triple);
    let inside = behind(text, opening, text.len());
    match body(alloc, is_raw, quote, is_triple, inside)? {
        Some((value, len)) => Ok(Some((value, opening + len))),
        None => Ok(None),
    }
}
