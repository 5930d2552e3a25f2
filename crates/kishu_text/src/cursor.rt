// Texts taken apart and put together, a character or a text at a time.
ghost use Rattle.std.specs.Prelude.{◌≡◌, ◌<◌, [], ◌∷◌, ◌++◌, length, MatchOption, IfSome, IfOk, OnOk};
ghost use Rattle.std.specs.Str.{chars};
ghost use Rattle.std.specs.String.{string_bytes};

use std::alloc::{AllocError, Global};

/// The first character, and the text behind it.
pub(crate) fn first_char(text: &str) -> Option<(char, &str)>
    ensures cases { MatchOption result (chars text.now ≡ []) (λ p. chars text.now ≡ p.0 ∷ chars p.1.now) }
    ensures shorter { IfSome result (λ p. length p.1.now < length text.now) }
{
    let mut left = text.chars();
    match left.next() {
        Some(c) => Some((c, left.as_str())),
        None => None,
    }
}

/// The last character, and the text before it.
pub(crate) fn last_char(text: &str) -> Option<(&str, char)>
    ensures cases { MatchOption result (chars text.now ≡ []) (λ p. chars text.now ≡ chars p.0.now ++ p.1 ∷ []) }
    ensures shorter { IfSome result (λ p. length p.0.now < length text.now) }
{
    let mut left = text.chars();
    match left.next_back() {
        Some(c) => Some((left.as_str(), c)),
        None => None,
    }
}

/// Puts a text behind what is there.
pub(crate) fn push_text(out: &mut String, text: &str) -> Result<(), AllocError>
    ensures { OnOk result (chars (string_bytes out.new) ≡ chars (string_bytes out.old) ++ chars text.now) }
{
    out.push_str(text)
}

/// Puts a character behind what is there.
pub(crate) fn push_char(out: &mut String, c: char) -> Result<(), AllocError>
    ensures { OnOk result (chars (string_bytes out.new) ≡ chars (string_bytes out.old) ++ c ∷ []) }
{
    out.push(c)
}

/// A text of its own.
pub(crate) fn owned(alloc: Global, text: &str) -> Result<String, AllocError>
    ensures { IfOk result (λ s. chars (string_bytes s) ≡ chars text.now) }
{
    String::from_str(alloc, text)
}
