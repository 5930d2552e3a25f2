//! Sessions: a store that is open, its graph, and the state at its head.
//!
//! `Session::attach` opens a store and loads the pictures of the groups of its head's table.
//! `Session::apply` answers a request, and records it where it changes the store: at `Ok` the answer and
//! the file's graph are those of one step of the machine that replays each commit from empty, and the live
//! state is the same as that commit's replay. No old cell is run: a checkout keeps the groups that both tables
//! have with one version, and loads the pictures of the others beside them (`carrying`). Opening, and the way
//! back from a state that is too large, do the same from the empty table and an empty heap, and so load the
//! pictures of all of the head's groups (`head`). Beside the live state a session keeps the table of its head
//! and just the digests of its groups' pictures (`keeping`). By these it tells, among the names that cells
//! accessed, how much they leave (`live`) and which groups they changed; where a picture has the digest that
//! is kept, the stored one is read, and tells (`asking`). A commit stores just the groups that changed
//! (`committing`). Before a cell, and before a checkout loads, a heap of more than 8,000,000 nodes is loaded
//! anew from the state's own pictures (`renewing`). What a request leads to is worked out on what the session
//! keeps, before the host is written to (`requests`); then its record is appended (`recording`).
#![tactic(auto)]

mod apply;
mod asking;
mod attach;
mod carrying;
mod committing;
mod counting;
mod halt;
mod head;
mod keeping;
mod laws;
mod live;
mod prepared;
mod preparing;
mod recording;
mod refusing;
mod renewing;
mod requests;
mod session;
mod unprepared;

pub use halt::Halt;
pub use laws::sessions_are_attached;
pub use session::Session;
