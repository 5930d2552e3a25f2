// Which texts are numbers of commits, and which are names of branches.
ghost use Rattle.std.specs.Prelude.{◌≡◌, ◌≤◌, ◌^◌, IsTrue, IfSome, None};
ghost use Rattle.std.specs.List.{list_all};
ghost use Rattle.kishu_language.specs.tokens.Names.{is_digit, is_letter, begins_with_letter};
ghost use Rattle.kishu_store.specs.Branches.{is_branch_char, is_branch_name};
ghost use Rattle.kishu_store.specs.References.{is_decimal, number_from};

const LONGEST_NAME: usize = 64;

fn are_digits(bytes: &[u8]) -> bool
    ensures { result ≡ list_all is_digit bytes.now }
{
    bytes.iter().all(|byte| byte.is_ascii_digit())
}

/// Whether a text is decimal digits without leading zeros.
pub(crate) fn is_decimal(text: &[u8]) -> bool
    ensures { result ≡ is_decimal text.now }
{
    match text {
        [] => false,
        [first, rest @ ..] => {
            first.is_ascii_digit() && are_digits(rest) && (*first != b'0' || rest.is_empty())
        }
    }
}

/// The number of decimal digits, or none where a `u32` doesn't hold it.
pub(crate) fn number_of(digits: &[u8]) -> Option<u32>
    requires { IsTrue (list_all is_digit digits.now) }
    ensures found { IfSome result (λ n. n ≡ number_from 0 digits.now) }
    ensures none { result ≡ None → 2 ^ 32 ≤ number_from 0 digits.now }
{
    let mut number: u32 = 0;
    for digit in digits {
        number = number.checked_mul(10)?.checked_add((*digit - b'0') as u32)?;
    }
    Some(number)
}

fn is_letter(byte: u8) -> bool
    ensures { result ≡ is_letter byte }
{
    byte.is_ascii_alphabetic() || byte == b'_'
}

fn begins_with_letter(bytes: &[u8]) -> bool
    ensures { result ≡ begins_with_letter bytes.now }
{
    match bytes.first() {
        Some(byte) => is_letter(*byte),
        None => false,
    }
}

fn is_branch_char(byte: u8) -> bool
    ensures { result ≡ is_branch_char byte }
{
    is_letter(byte) || byte.is_ascii_digit() || byte == b'-'
}

fn are_branch_chars(bytes: &[u8]) -> bool
    ensures { result ≡ list_all is_branch_char bytes.now }
{
    bytes.iter().all(|byte| is_branch_char(*byte))
}

/// Whether a branch may have this name.
pub(crate) fn is_branch_name(name: &str) -> bool
    ensures { result ≡ is_branch_name name.now }
{
    let bytes = name.as_bytes();
    begins_with_letter(bytes) && are_branch_chars(bytes) && bytes.len() <= LONGEST_NAME
}
