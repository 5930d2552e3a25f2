//! What Kishu promises, on top of the language, the meaning of cells, the store and the replay of its
//! commits: requests, answers, one request's step and a whole run. The definitions stand in `specs/`:
//! `Request` and `requests` say what a request does, `Answers` by which line it is answered, `Reading`
//! which line is which request, `notebooks` which bytes are a notebook and how it is run, `generated`
//! which requests are made from a number, `Task` what a run does, `Serve` what is written for it, and
//! `Values` which request and which answer a value of the program is. The types of the crates below are
//! named here again.
#![tactic(auto)]

mod answer;
mod refusal;
mod request;

pub use answer::{Answer, Counted, PathRow};
pub use kishu_language::{
    Argument, Arm, Comparison, Def, Expr, Handler, Link, Mark, Operand, Operator, Pair, Profile,
    Program, Sign, Stmt, Token, TokenKind, Trailer, is_reserved,
};
pub use kishu_meaning::{
    Budget, Builtin, CellResult, ClassId, Key, KeyPart, NodeId, Outcome, Output, Steps, Value,
    builtin_name, builtin_named, class_name, class_named,
};
pub use kishu_store::Target;
pub use refusal::Refusal;
pub use request::Request;
