mod codes;
mod shown;
mod table;

use kishu_language::Profile;
use kishu_parser::{SyntaxFault, parse, parse_def, parse_pieces};
use std::alloc::{AllocError, Global};
use std::fmt::Write;
use std::test::Fail;

fn tree_of(alloc: Global, text: &str) -> Result<String, AllocError> {
    let mut out = String::new(alloc);
    if text.len() > 1_048_576 {
        return Ok(out);
    }
    match parse(alloc, Profile::One, text) {
        Ok(program) => shown::push_statements(&mut out, program.statements.as_slice())?,
        Err(SyntaxFault::Syntax { line }) => write!(out, "line {line}")?,
        Err(SyntaxFault::NoMemory) => out.push_str("no memory")?,
    }
    Ok(out)
}

// Whether a row's text has the tree, or the line of a fault, that the row wants.
fn keeps(alloc: Global, row: &str) -> Result<bool, AllocError> {
    match row.split_once('\x1f') {
        Some((want, text)) => Ok(tree_of(alloc, text)?.as_str() == want),
        None => Ok(false),
    }
}

#[test]
fn texts_have_their_trees(rt: HostRuntime) -> Result<(), Fail> {
    let alloc = rt.alloc();
    let mut count: usize = 0;
    for row in table::ROWS.split('\x1e') {
        if !row.is_empty() {
            assert!(rt; keeps(alloc, row)?, "at {row}");
            count = count.wrapping_add(1);
        }
    }
    assert!(rt; count == table::COUNT);
    Ok(())
}

// The line of the fault, or 0 where the text is the code of one function.
fn def_line(alloc: Global, text: &str) -> u32 {
    if text.len() > 1_048_576 {
        return 1_000_000;
    }
    match parse_def(alloc, Profile::One, text) {
        Ok(_) => 0,
        Err(SyntaxFault::Syntax { line }) => line,
        Err(SyntaxFault::NoMemory) => 1_000_000,
    }
}

/// Texts, and the lines of their faults.
const DEF_LINES: [(&str, u32); 12] = [
    ("def f(a, b=1):\n  return a", 0),
    ("def f(): pass", 0),
    ("def f(): pass\n", 1),
    (" def f(): pass", 1),
    ("def f(): pass # c", 1),
    ("def f():\r\n  pass", 1),
    ("x = 1", 1),
    ("", 1),
    ("def f(): pass\ndef g(): pass", 1),
    ("def f(): pass\nx = = 1", 2),
    ("\n\ndef f(): break", 3),
    ("def f():\n  return 'a", 2),
];

#[test]
fn only_the_code_of_one_function(rt: HostRuntime) -> Result<(), Fail> {
    let alloc = rt.alloc();
    for (text, want) in &DEF_LINES {
        assert!(rt; def_line(alloc, text) == *want, "at {text}");
    }
    Ok(())
}

// Whether a row's text holds the function that the row's code reads as.
fn holds_code(alloc: Global, row: &str) -> Result<bool, AllocError> {
    match row.split_once('\x1f') {
        Some((text, code)) => {
            let function = tree_of(alloc, code)?;
            let all = tree_of(alloc, text)?;
            Ok(def_line(alloc, code) == 0 && all.as_str().contains(function.as_str()))
        }
        None => Ok(false),
    }
}

#[test]
fn codes_read_as_their_functions(rt: HostRuntime) -> Result<(), Fail> {
    let alloc = rt.alloc();
    let mut count: usize = 0;
    for row in codes::ROWS.split('\x1e') {
        if !row.is_empty() {
            assert!(rt; holds_code(alloc, row)?, "at {row}");
            count = count.wrapping_add(1);
        }
    }
    assert!(rt; count == codes::COUNT);
    Ok(())
}

// The line of each piece and the number of its statements.
fn pieces_of(alloc: Global, text: &str) -> Result<String, AllocError> {
    let mut out = String::new(alloc);
    if text.len() > 1_048_576 {
        return Ok(out);
    }
    match parse_pieces(alloc, Profile::One, text) {
        Ok(all) => {
            for piece in all.as_slice() {
                write!(out, "{}:{} ", piece.line, piece.statements.len())?;
            }
        }
        Err(SyntaxFault::Syntax { line }) => write!(out, "line {line}")?,
        Err(SyntaxFault::NoMemory) => out.push_str("no memory")?,
    }
    Ok(out)
}

/// Texts, and their pieces.
const PIECES: [(&str, &str); 4] = [
    ("", ""),
    ("x = 1", "1:1 "),
    (
        "\nx = 1; y = 2\n\nif x:\n  y = 3\nelse:\n  y = 4\n# c\ndef f(): pass",
        "2:2 4:1 9:1 ",
    ),
    ("x = 1\ny = = 2", "line 2"),
];

// Whether a text has these pieces.
fn has_pieces(alloc: Global, text: &str, want: &str) -> Result<bool, AllocError> {
    Ok(pieces_of(alloc, text)?.as_str() == want)
}

#[test]
fn pieces_have_their_lines(rt: HostRuntime) -> Result<(), Fail> {
    let alloc = rt.alloc();
    for (text, want) in &PIECES {
        assert!(rt; has_pieces(alloc, text, want)?, "at {text}");
    }
    Ok(())
}
