//! Pictures that are loaded into a heap and names.
//!
//! `load` takes the bytes of a picture, puts its nodes behind those of a heap and binds its names, or tells
//! where the bytes aren't a picture. They are read once from the front; docs/PICTURES.md describes the
//! format.
#![tactic(auto)]

mod cursor;
mod fault;
mod functions;
mod keys;
mod kinds;
mod loading;
mod naming;
mod rows;
mod values;

pub use fault::LoadFault;
pub use loading::load;
