// Reserved words, operators and delimiters.
ghost use Rattle.std.specs.Prelude.{◌≡◌, ◌≤◌, ◌<◌, IfSome};
ghost use Rattle.kishu_lexer.specs.Views.{spelled};
ghost use Rattle.kishu_language.specs.tokens.Marks as spec;

use kishu_language::Mark;

const RESERVED: [(&str, Mark); 35] = [
    ("False", Mark::False),
    ("None", Mark::None),
    ("True", Mark::True),
    ("and", Mark::And),
    ("as", Mark::As),
    ("assert", Mark::Assert),
    ("async", Mark::Async),
    ("await", Mark::Await),
    ("break", Mark::Break),
    ("class", Mark::Class),
    ("continue", Mark::Continue),
    ("def", Mark::Def),
    ("del", Mark::Del),
    ("elif", Mark::Elif),
    ("else", Mark::Else),
    ("except", Mark::Except),
    ("finally", Mark::Finally),
    ("for", Mark::For),
    ("from", Mark::From),
    ("global", Mark::Global),
    ("if", Mark::If),
    ("import", Mark::Import),
    ("in", Mark::In),
    ("is", Mark::Is),
    ("lambda", Mark::Lambda),
    ("nonlocal", Mark::Nonlocal),
    ("not", Mark::Not),
    ("or", Mark::Or),
    ("pass", Mark::Pass),
    ("raise", Mark::Raise),
    ("return", Mark::Return),
    ("try", Mark::Try),
    ("while", Mark::While),
    ("with", Mark::With),
    ("yield", Mark::Yield),
];

// The mark of the first entry with this spelling.
fn mark_among(table: &[(&str, Mark)], word: &[u8]) -> Option<Mark>
    ensures { result ≡ spec.mark_among (spelled table.now) word.now }
{
    for (spelling, mark) in table {
        if word == spelling.as_bytes() {
            return Some(*mark);
        }
    }
    None
}

/// The mark that a word is, where it is reserved.
#[tactic(auto, unfolding(kishu_language::specs::tokens::Marks::reserved_marks))]
pub(crate) fn reserved_mark(word: &[u8]) -> Option<Mark>
    ensures { result ≡ spec.reserved_mark word.now }
{
    let table: [(&str, Mark); 35] = RESERVED;
    mark_among(table.as_slice(), word)
}

#[tactic(auto, unfolding(kishu_language::specs::tokens::Marks::delimiter))]
fn delimiter(b: char) -> Option<(Mark, usize)>
    ensures value { result ≡ spec.delimiter b }
    ensures one { IfSome result (λ r. r.1 ≡ 1) }
{
    match b {
        '(' => Some((Mark::LeftParenthesis, 1)),
        ')' => Some((Mark::RightParenthesis, 1)),
        '[' => Some((Mark::LeftBracket, 1)),
        ']' => Some((Mark::RightBracket, 1)),
        '{' => Some((Mark::LeftBrace, 1)),
        '}' => Some((Mark::RightBrace, 1)),
        ',' => Some((Mark::Comma, 1)),
        ':' => Some((Mark::Colon, 1)),
        '.' => Some((Mark::Dot, 1)),
        ';' => Some((Mark::Semicolon, 1)),
        _ => None,
    }
}

fn with_equals(next: char, longer: Mark, shorter: Mark) -> Option<(Mark, usize)>
    ensures value { result ≡ spec.with_equals next longer shorter }
    ensures some { IfSome result (λ r. 0 < r.1) }
    ensures small { IfSome result (λ r. r.1 ≤ 2) }
    ensures second { IfSome result (λ r. 1 < r.1 → 0 < next) }
{
    if next == '=' {
        Some((longer, 2))
    } else {
        Some((shorter, 1))
    }
}

fn doubled(next: char, longer: Mark, shorter: Mark) -> Option<(Mark, usize)>
    ensures value { result ≡ spec.doubled next longer shorter }
    ensures some { IfSome result (λ r. 0 < r.1) }
    ensures small { IfSome result (λ r. r.1 ≤ 3) }
    ensures third { IfSome result (λ r. 2 < r.1 → 0 < next) }
{
    if next == '=' {
        Some((longer, 3))
    } else {
        Some((shorter, 2))
    }
}

/// The longest operator or delimiter with which these three characters begin, and how many of them
/// it takes.
#[tactic(auto, unfolding(kishu_language::specs::tokens::Marks::operator))]
pub(crate) fn operator(b: char, c: char, d: char) -> Option<(Mark, usize)>
    ensures value { result ≡ spec.operator b c d }
    ensures some { IfSome result (λ r. 0 < r.1) }
    ensures small { IfSome result (λ r. r.1 ≤ 3) }
    ensures second { IfSome result (λ r. 1 < r.1 → 0 < c) }
    ensures third { IfSome result (λ r. 2 < r.1 → 0 < d) }
{
    match b {
        '+' => with_equals(c, Mark::PlusAssign, Mark::Plus),
        '-' => with_equals(c, Mark::MinusAssign, Mark::Minus),
        '*' if c == '*' => doubled(d, Mark::PowerAssign, Mark::Power),
        '*' => with_equals(c, Mark::StarAssign, Mark::Star),
        '/' if c == '/' => doubled(d, Mark::FloorDivideAssign, Mark::FloorDivide),
        '/' => None,
        '%' => with_equals(c, Mark::PercentAssign, Mark::Percent),
        '=' => with_equals(c, Mark::Equal, Mark::Assign),
        '!' if c == '=' => Some((Mark::NotEqual, 2)),
        '!' => None,
        '<' => with_equals(c, Mark::LessEqual, Mark::Less),
        '>' => with_equals(c, Mark::GreaterEqual, Mark::Greater),
        _ => delimiter(b),
    }
}
