// The reserved words.
ghost use Rattle.std.specs.Prelude.{◌≡◌, map};
ghost use Rattle.std.specs.List.{list_any};
ghost use Rattle.std.specs.Str.{bytes_eq};
ghost use Rattle.kishu_language.specs.tokens.Names.{is_reserved_word};

const RESERVED: [&str; 35] = [
    "False", "None", "True", "and", "as", "assert", "async", "await", "break", "class", "continue",
    "def", "del", "elif", "else", "except", "finally", "for", "from", "global", "if", "import",
    "in", "is", "lambda", "nonlocal", "not", "or", "pass", "raise", "return", "try", "while",
    "with", "yield",
];

/// Whether a word is reserved, so that nothing can have it as its name (Python Language Reference
/// 3, "Keywords").
#[tactic(auto, unfolding(crate::specs::tokens::Names::reserved_words))]
pub fn is_reserved(word: &[u8]) -> bool
    ensures { result ≡ is_reserved_word word.now }
{
    let words: [&str; 35] = RESERVED;
    is_one_of(words.as_slice(), word)
}

fn is_one_of(words: &[&str], word: &[u8]) -> bool
    ensures { result ≡ list_any (λ w. bytes_eq word.now w.now) words.now }
{
    words.iter().any(|other| word == other.as_bytes())
}
