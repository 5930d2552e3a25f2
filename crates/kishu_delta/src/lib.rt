//! What cells changed, told among the names that they touched: those that they accessed, and those of
//! the groups of the table before them that hold one of these.
//!
//! `Kept` has the SHA-256 and the length of the picture of each group of a table. `draft` compares the
//! classes of the touched names with it: the groups of the table that went or have another digest are
//! dropped, the classes that are new or have another digest are stored, and those whose digest is the same
//! are asked for. `settle` compares the pictures of the last with those that are stored for them, drops and
//! stores the ones that differ, and `Kept` follows. So nothing rests on digests. `state_len` tells how many
//! bytes the state takes then. None of them looks at a node that no touched name reaches.
//!
//! `Kept::hold`, `draft`, `settle` and `state_len` may find no memory left; `Kept::new` and `Kept::forget`
//! take none.
#![tactic(auto)]

mod asking;
mod comparing;
mod delta;
mod digest;
mod drafting;
mod kept;
mod merging;
mod picturing;
mod sets;
mod settling;
mod sizing;
mod touching;

pub use asking::{Asked, Draft};
pub use delta::{Delta, StoredGroup};
pub use drafting::draft;
pub use kept::Kept;
pub use settling::settle;
pub use sizing::state_len;
