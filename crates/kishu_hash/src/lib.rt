//! A hash of numbers under which neighbours stay neighbours.
//!
//! Nodes that a program makes one after another have numbers in a row, and a walk mostly meets them in a row.
//! Under a hash that scatters all numbers each node of a large table is a place of its own to read. Under
//! [`NearHash`] eight numbers in a row come to one place, so the table is read at an eighth of the places.
#![tactic(auto)]

mod near;
#[cfg(test)]
mod tests;

pub use near::NearHash;
