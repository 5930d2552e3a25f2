//! A run keeps node numbers those of nodes.
#![tactic(auto)]

mod laws;

pub use laws::runs_keep_numbers;
