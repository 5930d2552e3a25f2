//! The words of a command line: `STORE COMMAND ARG..`, and the flag `--together` at any place.
//!
//! `read_words` tells the command that the words are, if they are one; `store_path` tells the store's
//! path. Which words are which command is defined in `specs/Words`, and the words are read by `clap`.
#![tactic(auto)]

mod command;
mod line;
mod number;
mod path;
mod reading;

pub use command::Command;
pub use path::store_path;
pub use reading::read_words;
