mod table;

use kishu_language::{Profile, Token, TokenKind};
use kishu_lexer::{SyntaxFault, plain_lines, tokens};
use std::alloc::{AllocError, Global};
use std::fmt::Write;
use std::test::Fail;

fn push_token(out: &mut String, token: &Token) -> Result<(), AllocError> {
    if !out.is_empty() {
        out.push(' ')?;
    }
    match &token.kind {
        TokenKind::Name(name) => out.push_str(name.as_str())?,
        TokenKind::Number(n) => write!(out, "#{n}")?,
        TokenKind::Text(text) => {
            out.push('\'')?;
            out.push_str(text.as_str())?;
            out.push('\'')?;
        }
        TokenKind::Newline => out.push_str("newline")?,
        TokenKind::Indent => out.push_str("indent")?,
        TokenKind::Dedent => out.push_str("dedent")?,
        TokenKind::Mark(mark) => write!(out, "{mark:?}")?,
    }
    let (line, start, end) = (token.line, token.start, token.end);
    write!(out, "@{line}:{start}-{end}")
}

fn shown(alloc: Global, text: &str) -> Result<String, AllocError> {
    let mut out = String::new(alloc);
    if text.len() > 1_048_576 {
        return Ok(out);
    }
    match tokens(alloc, Profile::One, text) {
        Ok(found) => {
            for token in &found {
                push_token(&mut out, token)?;
            }
        }
        Err(SyntaxFault::Syntax { line }) => write!(out, "line {line}")?,
        Err(SyntaxFault::NoMemory) => out.push_str("no memory")?,
    }
    Ok(out)
}

// Whether a row's text has the tokens, or the line of a fault, that the row wants.
fn keeps(alloc: Global, row: &str) -> Result<bool, AllocError> {
    match row.split_once('\x1f') {
        Some((want, text)) => Ok(shown(alloc, text)?.as_str() == want),
        None => Ok(false),
    }
}

#[test]
fn texts_have_their_tokens(rt: HostRuntime) -> Result<(), Fail> {
    let alloc = rt.alloc();
    let mut count: usize = 0;
    for row in table::ROWS.split('\x1e') {
        if !row.is_empty() {
            assert!(rt; keeps(alloc, row)?, "at {row}");
            count = count.wrapping_add(1);
        }
    }
    assert!(rt; count == table::COUNT);
    Ok(())
}

// Whether this is a text with plain line ends.
fn is_plain(alloc: Global, text: &str, want: &str) -> Result<bool, AllocError> {
    Ok(plain_lines(alloc, text)?.as_str() == want)
}

#[test]
fn line_ends_are_plain(rt: HostRuntime) -> Result<(), Fail> {
    let alloc = rt.alloc();
    assert!(rt; is_plain(alloc, "a\r\nb\rc\r\r\n\n\u{e9}\r", "a\nb\nc\n\n\n\u{e9}\n")?);
    Ok(())
}
