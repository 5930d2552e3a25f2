//! An input as a run reads it: whole, or line by line.
//!
//! `read_input` takes all that a source has left, up to a number of bytes. `LineReader` tells one line
//! after another, and keeps no more of the input than the line that it reads: no line reaches 2^24
//! bytes, and no input 2^30.
#![tactic(auto)]

mod lines;
mod whole;

pub use lines::LineReader;
pub use whole::{InputStop, read_input};
