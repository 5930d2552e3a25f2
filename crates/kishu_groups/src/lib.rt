//! Which names belong together: those from which one can come to another by names that share a node
//! with the next.
//!
//! `groups` walks once over what the names reach. Each node takes the number of the first name from
//! which it was met, and where a walk comes to a node that has another number, the two numbers are
//! joined into one class. The classes are the groups.
#![tactic(auto)]

mod classes;
mod gathering;
mod grouping;
mod marks;
mod walk;

pub use grouping::groups;
