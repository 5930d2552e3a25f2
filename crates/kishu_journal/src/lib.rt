//! The store file, by its gates.
//!
//! A store is a header, a gate, and behind each open gate a record and the next gate. What stands
//! behind a closed gate is no record of the store. `Journal::attach` opens a store and answers its
//! records; it opens only a file that holds a graph. `graph_of` makes the graph of records, with the
//! tables of its commits. `Journal::open_store` opens a store and makes its graph while it reads; the
//! pictures of groups aren't read. `Journal::append` writes a record behind the closed gate, and opens the
//! gate once the record is on the disk: a stop at any moment leaves the records before, with or without
//! the new one. `rows_of` gives the rows of a record's groups. `Journal::read_part` reads a part of the
//! store by its place. `one_graph` says what holds of every store file.
#![tactic(auto)]

mod append;
mod following;
mod graph;
mod head;
mod journal;
mod laws;
mod open_store;
mod opening;
mod part;
mod read;
mod rows;
mod take;
mod window;

pub use following::follow;
pub use graph::graph_of;
pub use journal::{Journal, JournalFault};
pub use kishu_record::{Entry, MoveTo};
pub use laws::one_graph;
pub use open_store::OpenStore;
pub use rows::rows_of;
