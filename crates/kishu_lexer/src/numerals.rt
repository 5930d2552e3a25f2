// Numbers.
ghost use Rattle.std.specs.Prelude.{◌≡◌, ◌<◌, ◌≤◌, ◌^◌, drop, IfSome, IfNone};
ghost use Rattle.std.specs.Char.{digit_value};
ghost use Rattle.kishu_language.specs.tokens.Numerals as spec;

use crate::lines::at;

// The numbers are below this.
const BOUND: u128 = 170_141_183_460_469_231_731_687_303_715_884_105_728;

fn are_digits(base: u32, wanted: bool, text: &[char]) -> bool
    requires low { 2 ≤ base }
    requires high { base ≤ 16 }
    ensures { result ≡ spec.are_digits base wanted text.now }
{
    let mut wants = wanted;
    for c in text {
        if *c == '_' {
            if wants {
                return false;
            }
            wants = true;
        } else if c.is_digit(base) {
            wants = false;
        } else {
            return false;
        }
    }
    !wants
}

fn digit_value(c: char) -> u32
    ensures { result ≡ digit_value c }
{
    match c.to_digit(36) {
        Some(value) => value,
        None => 36,
    }
}

fn with_digit(base: u32, n: u128, c: char) -> Option<u128>
    ensures some { IfSome result (λ m. m ≡ spec.with_digit base n c) }
    ensures none { IfNone result (2 ^ 127 ≤ spec.with_digit base n c) }
{
    if c == '_' {
        return Some(n);
    }
    n.checked_mul(base as u128)?
        .checked_add(digit_value(c) as u128)
}

/// The value of digits, or none where it is far too large.
pub(crate) fn digits_value(base: u32, digits: &[char]) -> Option<u128>
    requires { 2 ≤ base }
    ensures some { IfSome result (λ n. n ≡ spec.digits_value base digits.now) }
    ensures none { IfNone result (2 ^ 127 ≤ spec.digits_value base digits.now) }
{
    let mut n: u128 = 0;
    for c in digits {
        n = with_digit(base, n, *c)?;
    }
    Some(n)
}

fn small_value(base: u32, digits: &[char]) -> Option<i128>
    requires { 2 ≤ base }
    ensures { result ≡ spec.small_value base digits.now }
{
    match digits_value(base, digits) {
        Some(n) if n < BOUND => Some(n as i128),
        Some(_) => None,
        None => None,
    }
}

fn prefixed(base: u32, digits: &[char]) -> Option<i128>
    requires low { 2 ≤ base }
    requires high { base ≤ 16 }
    ensures { result ≡ spec.prefixed base digits.now }
{
    if !digits.is_empty() && are_digits(base, false, digits) {
        small_value(base, digits)
    } else {
        None
    }
}

// Whether a zero stands before other digits than zeros.
fn is_padded(digits: &[char]) -> bool
    ensures { result ≡ spec.is_padded digits.now }
{
    if at(digits, 0) != '0' {
        return false;
    }
    match digits_value(10, digits) {
        Some(n) => n != 0,
        None => true,
    }
}

fn decimal(digits: &[char]) -> Option<i128>
    ensures { result ≡ spec.decimal digits.now }
{
    if are_digits(10, true, digits) && !is_padded(digits) {
        small_value(10, digits)
    } else {
        None
    }
}

fn base_of(c: char) -> Option<u32>
    ensures value { result ≡ spec.base_of c }
    ensures low { IfSome result (λ base. 2 ≤ base) }
    ensures high { IfSome result (λ base. base ≤ 16) }
{
    match c {
        'x' | 'X' => Some(16),
        'o' | 'O' => Some(8),
        'b' | 'B' => Some(2),
        _ => None,
    }
}

fn without_prefix(word: &[char]) -> &[char]
    ensures { result.now ≡ drop 2 word.now }
{
    if word.len() < 2 { &[] } else { &word[2..] }
}

/// The number that a run of letters, digits and `_` is.
#[tactic(auto, unfolding(kishu_language::specs::tokens::Numerals::numeral))]
pub(crate) fn numeral(word: &[char]) -> Option<i128>
    ensures { result ≡ spec.numeral word.now }
{
    if at(word, 0) != '0' {
        return decimal(word);
    }
    match base_of(at(word, 1)) {
        Some(base) => prefixed(base, without_prefix(word)),
        None => decimal(word),
    }
}
