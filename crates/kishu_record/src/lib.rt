//! The bytes of a store's records.
//!
//! A record's body is its head behind the head's length, and then the pictures of the groups that it
//! stores. `encode` gives the body of an entry and its pictures, and `head_len` how long its head is.
//! `decode` gives the entry that a head spells, or tells that no entry within the rules has that head
//! and pictures of that length. `commit_in` reads the head of a commit where it stands, and takes no memory
//! for the texts of its cells.
#![tactic(auto)]

mod commits;
mod cursor;
mod entry;
mod groups;
mod lengths;
mod order;
mod parts;
mod reader;
mod writer;

pub use commits::{CommitHead, commit_in};
pub use entry::{Entry, EntryFault, MoveTo};
pub use lengths::head_len;
pub use reader::decode;
pub use writer::encode;

/// The first byte of a head: the kind of the record.
const COMMIT: u8 = 1;

const MOVE: u8 = 2;

const NAME: u8 = 3;

/// The second byte of a move's head: whether it goes to a commit or to a branch.
const TO_COMMIT: u8 = 0;

const TO_BRANCH: u8 = 1;
