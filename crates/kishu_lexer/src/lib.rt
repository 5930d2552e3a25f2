//! Cuts a text into its tokens (Python Language Reference 3, "Lexical analysis"): exactly those
//! that `kishu_model`'s definition says, or the line of the fault that comes first in the text.
#![tactic(auto)]

mod blanks;
mod cutting;
mod fault;
mod layout;
mod lines;
mod marks;
mod numerals;
mod pieces;
mod quoted;

pub use cutting::tokens;
pub use fault::SyntaxFault;
pub use lines::plain_lines;
