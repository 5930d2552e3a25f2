//! The heap: nodes with an identity, that can be changed, and the comparison of values that lead to
//! them (Python Language Reference 3, "Objects, values and types" and "Value comparisons").
//!
//! Each call that changes the heap changes one node as its name says, or adds nodes at its end, and
//! leaves it as it was where memory runs out. A node of another kind than the call is for stays as
//! it is. `node` alone hands a node out, in one step of the counter.
#![tactic(auto)]

mod compare;
mod edit;
mod fault;
mod function;
mod heap;
mod less;
mod node;
mod plain;
mod taken;

pub use fault::{CallFault, CompareFault};
pub use function::FunctionNode;
pub use heap::{Heap, room_at};
pub use node::Node;
pub use plain::{is_same, pair_steps, range_length};
pub use taken::take_steps;
