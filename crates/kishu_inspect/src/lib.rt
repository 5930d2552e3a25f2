//! What is bound, as the texts that an answer tells.
//!
//! `told` gives the names that are bound, each with its value, and the nodes that they reach, each with
//! what it holds.
#![tactic(auto)]

mod rows;
mod telling;
mod texts;

pub use telling::told;
