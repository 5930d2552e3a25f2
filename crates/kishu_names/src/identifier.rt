// Which texts are names.
ghost use Rattle.std.specs.Prelude.{◌≡◌};
ghost use Rattle.std.specs.List.{list_all};
ghost use Rattle.kishu_language.specs.tokens.Names.{is_name, is_letter, is_word_char, begins_with_letter};

use kishu_language::is_reserved;

const LONGEST: usize = 255;

fn is_letter(byte: u8) -> bool
    ensures { result ≡ is_letter byte }
{
    byte.is_ascii_alphabetic() || byte == b'_'
}

fn is_word_char(byte: u8) -> bool
    ensures { result ≡ is_word_char byte }
{
    is_letter(byte) || byte.is_ascii_digit()
}

fn begins_with_letter(bytes: &[u8]) -> bool
    ensures { result ≡ begins_with_letter bytes.now }
{
    match bytes.first() {
        Some(byte) => is_letter(*byte),
        None => false,
    }
}

fn are_word_chars(bytes: &[u8]) -> bool
    ensures { result ≡ list_all is_word_char bytes.now }
{
    bytes.iter().all(|byte| is_word_char(*byte))
}

/// Whether a text is a name: a letter or `_`, then letters, digits and `_`, all of ASCII; at most 255
/// bytes, and no reserved word (Python Language Reference 3, "Identifiers and keywords").
pub fn is_name(text: &str) -> bool
    ensures { result ≡ is_name text.now }
{
    let bytes = text.as_bytes();
    begins_with_letter(bytes)
        && are_word_chars(bytes)
        && bytes.len() <= LONGEST
        && !is_reserved(bytes)
}
