//! Requests that are made from a number, and the line that sums up what they have come to.
//!
//! `Script` makes the requests that the definition `generated` of `kishu_model` lists, one after another, in constant memory.
//! `Summary` takes the lines that would answer them, and tells their digest (SHA-256, FIPS 180-4).
#![tactic(auto)]

mod drawing;
mod script;
mod summary;
#[cfg(test)]
mod tests;
mod wording;

pub use script::Script;
pub use summary::Summary;
