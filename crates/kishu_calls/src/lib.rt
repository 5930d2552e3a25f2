//! What is called in a run, with what, and how it ends: parts of primaries, callees and arguments,
//! builtin functions, classes and methods, the names and arguments of functions, exceptions that are
//! raised and caught, and what a cell gives whose run ended.
//!
//! A call changes the run exactly as `kishu_meaning`'s definition changes a moment, and gives or
//! raises what that gives or raises, unless memory runs out. No call here runs a statement: that is
//! `kishu_statements`.
#![tactic(auto)]

mod callees;
mod calls;
mod endings;
mod functions;
mod locals;
mod parts;
mod ways;

pub use callees::{Callee, Given, callee_in};
pub use calls::{call_builtin, call_method, construct};
pub use endings::{ended, fault_output, finish};
pub use functions::{Function, bound_values, function_at};
pub use locals::own_names;
pub use parts::{Part, dotted_part, settled, walked_by};
pub use ways::{Flow, is_caught, object_of, throw_again, throw_value};
