//! What a run of a cell holds, and what is done with single values in it.
//!
//! `Machine` has the heap, the names, the local names of the function in progress, the handled
//! exception, the budget and what was printed. Each call over it changes it exactly as
//! `kishu_meaning`'s definition changes a moment, and gives or raises what that gives or raises:
//! steps (`stepping`), exceptions with their texts (`raising`), nodes, names, keys and items, numbers
//! and operators, comparisons, and the texts of values. Of what a call that answers with `NoMemory`
//! left nothing is said but that its values lead to nodes that are there, that the heap didn't
//! shrink, and that no step was given back. Each step of the budget is one of the counter.
#![tactic(auto)]

mod comparing;
mod fault;
mod frame;
mod keys;
mod machine;
mod names;
mod nodes;
mod numbers;
mod operators;
mod products;
mod raising;
mod shows;
mod spending;
mod stepping;
mod sums;
mod texts;

pub use comparing::compare;
pub use fault::{Fault, Thrown, passed};
pub use frame::Frame;
pub use keys::{items_of, key_of, walked};
pub use machine::{MOST_DEPTH, MOST_STEPS, Machine};
pub use names::{assign, delete, forget, is_among, read};
pub use nodes::{list_at, make, new_list, new_tuple, node_at, truth, tuple_at};
pub use operators::{operate, signed_value};
pub use raising::{
    bad_arguments, no_attribute, no_exception, no_key, not_callable, not_iterable,
    not_subscriptable, out_of_range, raise,
};
pub use shows::{print, repr_of, show, show_thrown};
pub use stepping::{spend, tick, too_deep};
pub use texts::{is_same_text, shared};
