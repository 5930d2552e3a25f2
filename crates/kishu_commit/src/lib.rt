//! The record of a commit: what it says of the state that its cells left, and its pictures.
//!
//! `commit` drops and stores the groups that are told to have changed, each stored one with its picture.
//! The laws say that such a record fits behind those before it, that the table which it leaves tells the
//! state, and that a session which is attached to a good store stays attached. The first two hold whatever
//! test tells which groups stay, where each that does has a picture of its row's length.
#![tactic(auto)]

mod committing;
mod laws;

pub use committing::{Record, commit};
pub use laws::{
    commits_fit, commits_fit_by_tests, commits_tell_states, commits_tell_states_by_tests,
    sessions_stay_attached,
};
