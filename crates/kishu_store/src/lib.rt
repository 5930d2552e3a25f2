//! The store: commits, branches and the head, the tables of commits, records and the bytes of the file,
//! and what a store holds at most. The definitions stand in `specs/`, and know of the language the
//! profile, the characters of names and line ends alone. `Target` is where a head stands.
#![tactic(auto)]

mod limits;
mod target;

pub use limits::MOST_RECORDS;
pub use target::Target;
