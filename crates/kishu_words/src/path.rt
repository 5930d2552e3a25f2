// The store's path.
ghost use Rattle.std.specs.Prelude.{◌≡◌, Some, option_map};
ghost use Rattle.kishu_words.specs.Words.{Line, texts, begins_with_dash, line_of, store_word};

/// The store's path: the first word that doesn't begin with `-`. Where the words are a command line,
/// it is the line's store.
pub fn store_path(words: &[String]) -> Option<&str>
    ensures first { option_map (λ p. p.now) result ≡ store_word (texts words.now) }
    ensures store { (line : Line) → line_of (texts words.now) ≡ Some line
        → option_map (λ p. p.now) result ≡ Some line.store }
{
    first_path(words)
}

fn first_path(words: &[String]) -> Option<&str>
    ensures { option_map (λ p. p.now) result ≡ store_word (texts words.now) }
{
    for word in words {
        if !begins_with_dash(word.as_str()) {
            return Some(word.as_str());
        }
    }
    None
}

fn begins_with_dash(word: &str) -> bool
    ensures { result ≡ begins_with_dash word.now }
{
    matches!(word.as_bytes(), [b'-', ..])
}
