//! What a cell means: the types of values, of what a run may use up and of what it gives, and in
//! `specs/` the definitions, one line a rule. `values` has values, nodes and states; `moments` what a
//! run holds; `comparing`, `items` and `calls` what is done with values; `cells` what expressions,
//! statements and whole cells mean. `KeyLaws` is no definition: the equality and the hash of keys
//! are proved by it.
#![tactic(auto)]

mod budget;
mod key;
mod names;
mod result;
mod steps;
mod value;

pub use budget::Budget;
pub use key::{Key, KeyPart};
pub use names::{builtin_name, builtin_named, class_name, class_named, constants_are_numbers};
pub use result::{CellResult, Outcome, Output};
pub use steps::Steps;
pub use value::{Builtin, ClassId, NodeId, Value};
