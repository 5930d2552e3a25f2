//! Requests and answers as lines of JSON.
//!
//! `read_request` finds the request that a line is, if it is one, and `write_answer` gives an answer's
//! line: the compact text of a value, its keys in byte order, and a line feed.
#![tactic(auto)]

mod answers;
mod line;
mod reading;

pub use line::write_answer;
pub use reading::read_request;
