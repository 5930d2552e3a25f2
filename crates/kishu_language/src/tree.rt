use std::rc::{Rc, RcStr};

/// An operator between numbers (Python Language Reference 3, "Binary arithmetic operations").
#[derive(Clone, Copy, Debug, PartialEq, Eq)]
pub enum Operator {
    Add,
    Subtract,
    Multiply,
    FloorDivide,
    Modulo,
    Power,
}

/// A sign before an operand (Python Language Reference 3, "Unary arithmetic operations").
#[derive(Clone, Copy, Debug, PartialEq, Eq)]
pub enum Sign {
    Plus,
    Minus,
}

/// What a comparison asks (Python Language Reference 3, "Comparisons").
#[derive(Clone, Copy, Debug, PartialEq, Eq)]
pub enum Comparison {
    Less,
    LessEqual,
    Greater,
    GreaterEqual,
    Equal,
    NotEqual,
    In,
    NotIn,
    Is,
    IsNot,
}

/// An expression, a target or several of them (Python Language Reference 3, "Expressions"). Each
/// repetition is one list, so it is one level of the tree, however long it is.
#[cycle(expression)]
#[derive(Drop)]
pub enum Expr {
    /// Several with a comma, or `()`.
    Tuple(Vec<Expr>),
    /// `value if test else other`.
    Conditional {
        value: Box<Expr>,
        test: Box<Expr>,
        other: Box<Expr>,
    },
    /// Two operands and more.
    Or(Vec<Expr>),
    /// Two operands and more.
    And(Vec<Expr>),
    Not(Box<Expr>),
    /// An operand and the comparisons after it, one and more.
    Compared(Box<Expr>, Vec<Link>),
    /// A term and those that are added or subtracted, one and more.
    Sum(Box<Expr>, Vec<Operand>),
    /// A factor and those that it is multiplied with or divided by, one and more.
    Product(Box<Expr>, Vec<Operand>),
    Signed(Sign, Box<Expr>),
    /// The base and the exponent.
    Power(Box<Expr>, Box<Expr>),
    /// An atom and what is done with it from left to right, once and more.
    Primary(Box<Expr>, Vec<Trailer>),
    Name(RcStr),
    Int(i128),
    /// Adjacent texts are joined.
    Text(RcStr),
    None,
    True,
    False,
    /// What stands in parentheses.
    Paren(Box<Expr>),
    List(Vec<Expr>),
    Dict(Vec<Pair>),
}

/// An operator and its right operand.
#[cycle(expression)]
#[derive(Drop)]
pub struct Operand {
    pub operator: Operator,
    pub value: Expr,
}

/// A comparison and its right operand.
#[cycle(expression)]
#[derive(Drop)]
pub struct Link {
    pub comparison: Comparison,
    pub value: Expr,
}

/// What stands behind an atom (Python Language Reference 3, "Primaries").
#[cycle(expression)]
#[derive(Drop)]
pub enum Trailer {
    /// `.name`.
    Attribute(RcStr),
    Call(Vec<Argument>),
    Index(Expr),
    Slice {
        start: Option<Expr>,
        stop: Option<Expr>,
        step: Option<Expr>,
    },
}

/// An argument of a call.
#[cycle(expression)]
#[derive(Drop)]
pub enum Argument {
    Plain(Expr),
    Keyword(RcStr, Expr),
}

/// A key and its value in a dict.
#[cycle(expression)]
#[derive(Drop)]
pub struct Pair {
    pub key: Expr,
    pub value: Expr,
}

/// A statement (Python Language Reference 3, "Simple statements" and "Compound statements"). The
/// grammar wants one statement at least in a block, so an empty list stands for an `else` or
/// `finally` that is absent.
#[cycle(statement)]
#[derive(Drop)]
pub enum Stmt {
    Pass,
    Break,
    Continue,
    Return(Option<Expr>),
    Raise(Option<Expr>),
    /// The condition and the message.
    Assert(Expr, Option<Expr>),
    /// The places, each a name, an attribute or an item.
    Del(Vec<Expr>),
    Global(Vec<RcStr>),
    /// Of the class `SimpleNamespace`, and the name after `as`.
    Import(Option<RcStr>),
    /// The place, the operator and the operand.
    Update(Expr, Operator, Expr),
    /// The targets, none or more, and the value.
    Assign(Vec<Expr>, Expr),
    /// The arms of `if` and `elif`, and the block of `else`.
    If(Vec<Arm>, Vec<Stmt>),
    While(Expr, Vec<Stmt>),
    /// The targets, what is walked, and the block.
    For(Expr, Expr, Vec<Stmt>),
    /// The block, its handlers, the block of `else` (`other`) and that of `finally` (`last`).
    Try {
        body: Vec<Stmt>,
        handlers: Vec<Handler>,
        other: Vec<Stmt>,
        last: Vec<Stmt>,
    },
    /// A block without handlers, and the block of `finally`.
    Finally(Vec<Stmt>, Vec<Stmt>),
    /// A function and its code.
    Def(Rc<Def>, RcStr),
}

/// A condition and the block that is run where it holds.
#[cycle(statement)]
#[derive(Drop)]
pub struct Arm {
    pub test: Expr,
    pub body: Vec<Stmt>,
}

/// The class that is caught, the name that the exception gets, and the block.
#[cycle(statement)]
#[derive(Drop)]
pub struct Handler {
    pub class: Option<Expr>,
    pub name: Option<RcStr>,
    pub body: Vec<Stmt>,
}

/// A function: its name, its parameters with their defaults, and its body (Python Language
/// Reference 3, "Function definitions").
#[cycle(statement)]
#[derive(Drop)]
pub struct Def {
    pub name: RcStr,
    pub params: Vec<(RcStr, Option<Expr>)>,
    pub body: Vec<Stmt>,
}

/// The statements of a cell.
#[derive(Drop)]
pub struct Program {
    pub statements: Vec<Stmt>,
}
