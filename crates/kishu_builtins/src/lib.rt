//! The builtin functions and the classes, as they are called (Library Reference, "Built-in
//! Functions", "Built-in Types" and "Built-in Exceptions"). What each gives or raises, by which steps
//! and with which nodes, `Callees` and `Builtins` of `kishu_meaning` define.
#![tactic(auto)]

mod best;
mod call;
mod characters;
mod classes;
mod deciding;
mod instances;
mod lengths;
mod making;
mod numbers;
mod reading;
mod sorted;
mod sums;
mod walk;

pub use call::call_builtin;
pub use classes::construct;
