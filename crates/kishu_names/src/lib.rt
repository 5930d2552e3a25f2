//! The names that a session has bound, and the record of those that were accessed.
//!
//! `get`, `bind` and `unbind` record the name, also where it isn't bound; `restore` and `peek`
//! don't. `is_name` tells which texts are names.
#![tactic(auto)]

pub mod bindings;
mod identifier;
mod names;
mod record;
#[cfg(test)]
mod tests;

pub use identifier::is_name;
pub use names::Names;
