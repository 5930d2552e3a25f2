// Questions about texts.
ghost use Rattle.std.specs.Prelude.{◌≡◌, ◌*◌, ◌<◌, ◌&&◌, max, length, reverse, true};
ghost use Rattle.std.specs.List.{list_all};
ghost use Rattle.std.specs.Str.{chars};
ghost use Rattle.kishu_language.specs.tokens.Names.{is_digit};
ghost use Rattle.kishu_meaning.specs.values.Texts.{begins, is_nonempty, replaced};

use kishu_text::{count, occurrences};

/// Whether a text has characters.
pub(crate) fn is_nonempty(text: &str) -> bool
    ensures value { result ≡ is_nonempty (chars text.now) }
    ensures some { result ≡ true → 0 < length text.now }
{
    !text.is_empty()
}

/// Whether a text begins with a part (Library Reference, "String Methods": startswith).
pub(crate) fn begins_with(text: &str, part: &str) -> bool
    ensures { result ≡ begins (chars part.now) (chars text.now) }
{
    text.starts_with(part)
}

/// Whether a text ends with a part (Library Reference, "String Methods": endswith).
pub(crate) fn ends_with(text: &str, part: &str) -> bool
    ensures { result ≡ begins (reverse (chars part.now)) (reverse (chars text.now)) }
{
    text.ends_with(part)
}

/// Whether a text has characters, and all of them are `0` to `9` (Library Reference, "String
/// Methods": isdigit, of ASCII characters).
pub(crate) fn is_digits(text: &str) -> bool
    ensures { result ≡ (is_nonempty (chars text.now) && list_all is_digit (chars text.now)) }
{
    count(text) > 0 && text.chars().all(|c| c.is_ascii_digit())
}

/// The steps that a search takes: the product of the lengths, the part's taken as at least 1.
pub(crate) fn search_steps(text: &str, part: &str) -> u128
    ensures { result ≡ length (chars text.now) * max 1 (length (chars part.now)) }
{
    count(text) as u128 * count(part).max(1) as u128
}

/// How many code points a text has with `by` in place of each occurrence of a part, which isn't
/// empty.
pub(crate) fn replaced_length(text: &str, part: &str, by: &str) -> u128
    requires { 0 < length part.now }
    ensures { result ≡ length (replaced (chars text.now) (chars part.now) (chars by.now)) }
{
    let found = occurrences(text, part) as u128;
    count(text) as u128 + found * count(by) as u128 - found * count(part) as u128
}
