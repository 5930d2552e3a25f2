// Numbers among the words.
ghost use Rattle.std.specs.Prelude.{◌≡◌, ◌≤◌, ◌^◌, true, None, IfSome};
ghost use Rattle.std.specs.List.{list_all};
ghost use Rattle.kishu_language.specs.tokens.Names.{is_digit};
ghost use Rattle.kishu_store.specs.References.{is_decimal, number_from};
ghost use Rattle.kishu_words.specs.Words.{number_within};

fn are_digits(bytes: &[u8]) -> bool
    ensures { result ≡ list_all is_digit bytes.now }
{
    bytes.iter().all(|byte| byte.is_ascii_digit())
}

/// Whether a word is decimal digits without leading zeros.
fn is_decimal(word: &[u8]) -> bool
    ensures { result ≡ is_decimal word.now }
{
    match word {
        [] => false,
        [first, rest @ ..] => {
            first.is_ascii_digit() && are_digits(rest) && (*first != b'0' || rest.is_empty())
        }
    }
}

/// The number of decimal digits, where a `u32` holds it.
fn number_of(digits: &str) -> Option<u32>
    requires { is_decimal digits.now ≡ true }
    ensures found { IfSome result (λ n. n ≡ number_from 0 digits.now) }
    ensures none { result ≡ None → 2 ^ 32 ≤ number_from 0 digits.now }
{
    digits.parse::<u32>().ok()
}

/// The number that a word is, up to the largest that is taken.
pub(crate) fn number_within(word: &str, most: u32) -> Option<u32>
    ensures { result ≡ number_within most word.now }
{
    if !is_decimal(word.as_bytes()) {
        return None;
    }
    number_of(word).filter(|number| *number <= most)
}
