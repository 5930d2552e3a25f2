use std::rc::RcStr;

/// An operator, a delimiter or a reserved word (Python Language Reference 3, "Keywords",
/// "Operators" and "Delimiters").
#[derive(Clone, Copy, Debug, PartialEq, Eq)]
pub enum Mark {
    Plus,
    Minus,
    Star,
    FloorDivide,
    Percent,
    Power,
    Equal,
    NotEqual,
    Less,
    LessEqual,
    Greater,
    GreaterEqual,
    Assign,
    PlusAssign,
    MinusAssign,
    StarAssign,
    FloorDivideAssign,
    PercentAssign,
    PowerAssign,
    LeftParenthesis,
    RightParenthesis,
    LeftBracket,
    RightBracket,
    LeftBrace,
    RightBrace,
    Comma,
    Colon,
    Dot,
    Semicolon,
    False,
    None,
    True,
    And,
    As,
    Assert,
    Async,
    Await,
    Break,
    Class,
    Continue,
    Def,
    Del,
    Elif,
    Else,
    Except,
    Finally,
    For,
    From,
    Global,
    If,
    Import,
    In,
    Is,
    Lambda,
    Nonlocal,
    Not,
    Or,
    Pass,
    Raise,
    Return,
    Try,
    While,
    With,
    Yield,
}

/// What a token is, and the name, number or text that it carries.
#[derive(Drop)]
pub enum TokenKind {
    Name(RcStr),
    Number(i128),
    /// A text with its escapes read.
    Text(RcStr),
    /// The end of a logical line.
    Newline,
    /// A deeper indentation begins.
    Indent,
    /// An indentation ends.
    Dedent,
    Mark(Mark),
}

/// A piece of a text that means something (Python Language Reference 3, "Lexical analysis").
#[derive(Drop)]
pub struct Token {
    pub kind: TokenKind,
    /// The line on which it begins, from 1.
    pub line: u32,
    /// The place of its first byte, from 0, in the text with plain line ends.
    pub start: u32,
    /// The place behind its last byte.
    pub end: u32,
}
