//! The picture of names: their values and the nodes that they reach, as bytes.
//!
//! `order` gives the nodes in the order of first meeting, breadth first, `picture` the bytes of the
//! picture, and `picture_len` how many they are. docs/PICTURES.md describes the format.
#![tactic(auto)]

mod lengths;
mod meeting;
mod parts;
mod rows;
mod values;
mod writing;

pub use lengths::picture_len;
pub use meeting::order;
pub use writing::picture;
