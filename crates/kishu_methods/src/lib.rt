//! The methods of lists, tuples, dicts and texts (Library Reference, "Mutable Sequence Types",
//! "Mapping Types" and "String Methods"). As the method's row says (`specs/Methods` of
//! `kishu_meaning`), a call refuses the number and the kinds of its arguments first, then takes its
//! steps, then looks at items, and changes a node last.
#![tactic(auto)]

mod call;
mod dicts;
mod entries;
mod faults;
mod finding;
mod items;
mod join;
mod lists;
mod method;
mod parts;
mod pieces;
mod texts;
mod tuples;

pub use call::{call_method, has_method};
