//! The loading of a state anew: a heap that has many nodes is replaced by one that has just those which the
//! names reach.
//!
//! `load_anew` takes the pictures of the state's groups, begins an empty heap and loads them. What is left is
//! the same state, sharing and identity included, with other numbers for its nodes.
#![tactic(auto)]

mod pictures;
mod renewing;

pub use renewing::load_anew;
