//! Reads the tree of a text (Python Language Reference 3, "Full Grammar specification"): exactly the
//! one that `kishu_model`'s grammar says, or the line of its fault. However long the text is, its
//! tree is no higher than 611.
#![tactic(auto)]

mod blocks;
mod cursor;
mod expressions;
mod functions;
mod joins;
mod laws;
mod looks;
mod mentions;
mod pieces;
mod primaries;
mod pushes;
mod refusals;
mod simple;
mod targets;
mod texts;
mod top;

pub use kishu_lexer::SyntaxFault;
pub use laws::codes_read;
pub use pieces::Piece;
pub use top::{parse, parse_def, parse_pieces};
