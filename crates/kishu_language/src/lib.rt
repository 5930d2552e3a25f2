//! The language's text: which tokens a text has, which tree they spell, and how a tree is read. The
//! types of tokens and trees, and in `specs/` the definitions, which know nothing of values.
//! `tokens` cuts a text; `rules` says the same as relations; `trees` has the tree and what is asked of
//! it; `grammar` relates tokens and trees; `reading` reads the tree as a cell's run does.
#![tactic(auto)]

mod limits;
mod names;
mod profile;
mod token;
mod tree;

pub use limits::LONGEST_TEXT;
pub use names::is_reserved;
pub use profile::Profile;
pub use token::{Mark, Token, TokenKind};
pub use tree::{
    Argument, Arm, Comparison, Def, Expr, Handler, Link, Operand, Operator, Pair, Program, Sign,
    Stmt, Trailer,
};
