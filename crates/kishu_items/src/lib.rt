//! What the calls of methods, of builtin functions and of the interpreter share: values as keys of a
//! dict, the items of sequences, indexes, truth, order, and the exceptions that tell a value's kind.
//! Each step that is taken from the budget is counted. An `AllocError`, or the fault `NoMemory`,
//! says that no memory is left.
#![tactic(auto)]

mod classes;
mod faults;
mod indexes;
mod keys;
mod kinds;
mod lists;
mod ranges;
mod sequences;
mod sorting;
mod spending;
mod truth;
mod walks;

pub use classes::is_within;
pub use faults::{
    bad_arguments, bad_arguments_text, bad_index_text, bad_operands_text, compared,
    not_iterable_text, plain_text, raise, unhashable_text,
};
pub use indexes::{bound_in, index_of, number_in, place_in, place_of};
pub use keys::{copied_key, copied_keys, copied_map, key_of, value_of_key, values_of_keys};
pub use kinds::kind_name;
pub use lists::push_all;
pub use ranges::number_at;
pub use sequences::{
    character_text, copied_all, count_in, items_of, not_iterable, not_iterable_value, walked,
};
pub use sorting::{in_order, sort_steps};
pub use spending::spend;
pub use truth::is_true;
pub use walks::{View, Walk, item_for, walk_of, walk_view};
