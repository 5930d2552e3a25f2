// Numbers and their text.
ghost use Rattle.std.specs.Prelude.{◌≡◌, IfOk};
ghost use Rattle.std.specs.Fmt.{signed_decimal};
ghost use Rattle.std.specs.String.{string_bytes};
ghost use Rattle.kishu_meaning.specs.values.Numbers.{signed_read, if_whole, number_read};
ghost use Rattle.kishu_meaning.specs.values.White.{is_white, without_front, without_back, stripped};

use std::alloc::{AllocError, Global};

fn is_white(c: u8) -> bool
    ensures { result ≡ is_white c }
{
    matches!(c, b' ' | b'\t'..=b'\r')
}

fn without_leading_white(text: &[u8]) -> &[u8]
    ensures { result.now ≡ without_front text.now }
{
    let mut start = 0;
    while start < text.len() && is_white(text[start]) {
        start += 1;
    }
    &text[start..]
}

fn without_trailing_white(text: &[u8]) -> &[u8]
    ensures { result.now ≡ without_back text.now }
{
    let mut end = text.len();
    while 0 < end && is_white(text[end - 1]) {
        end -= 1;
    }
    &text[..end]
}

fn strip(text: &[u8]) -> &[u8]
    ensures { result.now ≡ stripped text.now }
{
    without_trailing_white(without_leading_white(text))
}

// The number that a sign and digits write. What isn't UTF-8 is no digits.
fn signed(text: &[u8]) -> Option<i128>
    ensures { result ≡ if_whole (signed_read text.now) }
{
    match str::from_utf8(text) {
        Ok(text) => text.parse::<i128>().ok(),
        Err(_) => None,
    }
}

/// The number that `int` reads from a text (Python Standard Library, "Built-in Functions", `int`):
/// decimal digits behind an optional `+` or `-`, without the white space (space, `\t`, `\n`, `\r`,
/// `\v`, `\f`) at both ends. `None` where the text is anything else, or the number lies outside
/// -2^127 to 2^127-1.
pub fn read_int(text: &str) -> Option<i128>
    ensures { result ≡ number_read text.now }
{
    signed(strip(text.as_bytes()))
}

/// The decimal text of a number, as `str` writes it (Python Standard Library, "Built-in Types"): no
/// leading zeros, and a `-` where the number is negative. An error says that no memory is left.
pub fn write_int(alloc: Global, n: i128) -> Result<String, AllocError>
    ensures { IfOk result (λ text. string_bytes text ≡ signed_decimal n) }
{
    format!(in alloc; "{n}")
}
