// The tokens of a text.
ghost use Rattle.kishu_language.specs.Limits.{longest_text};
ghost use Rattle.std.specs.Prelude.{◌≡◌, ◌<◌, ◌≤◌, ◌+◌, ◌^◌, length, take, drop, List, IfOk, IfErr, MatchResult};
ghost use Rattle.std.specs.Str.{chars, encode_utf8_all};
ghost use Rattle.kishu_language.specs.tokens.PlainLines.{plain_lines};
ghost use Rattle.kishu_language.specs.tokens.Places.{InOrder};
ghost use Rattle.kishu_language.specs.rules.TokenRules.{ByRules, AllWritten};
ghost use Rattle.kishu_language.specs.tokens.Lexemes as pieces;
ghost use Rattle.kishu_language.specs.tokens.Layout as spec;
ghost use Rattle.kishu_language.specs.tokens.Tokens as tokens;
ghost use Rattle.kishu_lexer.specs.Edges.{Placed};
ghost use Rattle.kishu_lexer.specs.Machine.{state_of, tokens_of, Fails, Answers};

use crate::fault::SyntaxFault;
use crate::layout::Lexer;
use crate::lines::{feeds, plain_chars};
use crate::pieces::piece;
use kishu_language::{Profile, Token};
use std::alloc::Global;

// How many bytes some characters take.
fn width(text: &[char]) -> usize
    requires { length text.now < 2 ^ 60 }
    ensures { result ≡ spec.width text.now }
{
    let mut n = 0;
    for c in text {
        n += c.len_utf8();
    }
    n
}

// What stands behind the first n characters, and its line and place.
fn behind(rest: &[char], n: usize, line: u32, start: u32) -> (&[char], u32, u32)
    requires within { n ≤ length rest.now }
    requires room { length rest.now < 2 ^ 60 }
    requires line_room { line + pieces.feeds rest.now < 2 ^ 32 }
    requires place_room { start + spec.width rest.now < 2 ^ 32 }
    ensures rest { result.0.now ≡ drop n rest.now }
    ensures line { result.1 ≡ line + pieces.feeds (take n rest.now) }
    ensures place { result.2 ≡ start + spec.width (take n rest.now) }
    ensures lines { result.1 + pieces.feeds result.0.now ≡ line + pieces.feeds rest.now }
    ensures places { result.2 + spec.width result.0.now ≡ start + spec.width rest.now }
{
    let (taken, after) = rest.split_at(n);
    let lines = feeds(taken) as u32;
    let bytes = width(taken) as u32;
    (after, line + lines, start + bytes)
}

// Takes the piece at the front, and gives the rest with its line and its place.
fn turn<'a>(
    alloc: Global,
    lexer: &mut Lexer,
    rest: &'a [char],
    line: u32,
    start: u32,
) -> Result<(&'a [char], u32, u32), SyntaxFault>
    requires some { 0 < length rest.now }
    requires room { length rest.now < 2 ^ 60 }
    requires line_room { line + pieces.feeds rest.now < 2 ^ 32 }
    requires place_room { start + spec.width rest.now < 2 ^ 32 }
    ensures goes { IfOk result (λ x. spec.steps (spec.cut line start rest.now) (state_of lexer.old) ≡ spec.steps (spec.cut x.1 x.2 x.0.now) (state_of lexer.new)) }
    ensures shorter { IfOk result (λ x. length x.0.now < length rest.now) }
    ensures lines { IfOk result (λ x. x.1 + pieces.feeds x.0.now ≡ line + pieces.feeds rest.now) }
    ensures places { IfOk result (λ x. x.2 + spec.width x.0.now ≡ start + spec.width rest.now) }
    ensures fails { IfErr result (λ e. Fails (spec.steps (spec.cut line start rest.now) (state_of lexer.old)) e) }
{
    let (lexeme, n) = piece(alloc, rest)?;
    let (after, next, end) = behind(rest, n, line, start);
    lexer.step(lexeme, line, start, end)?;
    Ok((after, next, end))
}

fn layout(alloc: Global, text: &[char]) -> Result<Vec<Token>, SyntaxFault>
    requires { length text.now ≤ longest_text }
    ensures { Answers (spec.layout text.now) result (λ v. v.items) }
{
    let mut lexer = Lexer::new(alloc);
    let mut rest = text;
    let mut line = 1;
    let mut start = 0;
    while !rest.is_empty() {
        let (after, next, end) = turn(alloc, &mut lexer, rest, line, start)?;
        rest = after;
        line = next;
        start = end;
    }
    lexer.finish(line, start)
}

/// The tokens of a text of at most 1,048,576 bytes, under the rules of a profile, which are the same
/// for all (Python Language Reference 3, "Lexical analysis"). Their places count bytes of the text as
/// `plain_lines` gives it; they are in order, at the edges of its characters. Syntax says that the
/// text has no tokens, with the line, from 1, of the fault that comes first; NoMemory says nothing of
/// the text.
pub fn tokens(alloc: Global, profile: Profile, text: &str) -> Result<Vec<Token>, SyntaxFault>
    requires { length text.now ≤ longest_text }
    ensures ok { IfOk result (λ v. tokens.tokens profile text.now ≡ Ok (tokens_of v.items)) }
    ensures err { IfErr result (λ e. Fails (tokens.tokens profile text.now) e) }

    // Their places are in the text with plain line ends.
    ensures places { IfOk result (λ v. InOrder 0 (tokens_of v.items) (length (encode_utf8_all (plain_lines (chars text.now))))) }

    // They begin and end at the edges of its characters.
    ensures boundaries { IfOk result (λ v. Placed (encode_utf8_all (plain_lines (chars text.now))) v.items) }

    // They are those that the rules alone give: the rules of texts, numbers, names and operators, and
    // those of lines, brackets and indentation, as relations in which nothing is read; and where
    // these rules give tokens, the answer is those tokens or NoMemory.
    ensures rules { IfOk result (λ v. ByRules (plain_lines (chars text.now)) (tokens_of v.items)) }
    ensures only { (ts : List spec.Token) → ByRules (plain_lines (chars text.now)) ts → MatchResult result (λ v. tokens_of v.items ≡ ts) (λ e. e ≡ SyntaxFault.NoMemory) }

    // The places of each name, number, text and mark are those of its piece, which the rules relate
    // to its value: a text by its escapes, a number by its digits.
    ensures texts { IfOk result (λ v. AllWritten (plain_lines (chars text.now)) (tokens_of v.items)) }
{
    let plain = plain_chars(alloc, text)?;
    layout(alloc, plain.as_slice())
}
