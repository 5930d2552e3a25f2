//! What is proved of trees. `reading`: the reading of a text gives the grammar's tree and no other;
//! `staying`: a reading stays whatever follows it; `trees`: no tree is higher than 611, and what
//! every tree of a text has; `codes`: the code of each function in a tree reads alone as that function.
//! The proofs are in `specs/`, which nobody has to believe; `laws` says of them, a call for each law, what
//! no other public contract names.
#![tactic(auto)]

mod laws;

pub use laws::{reading_is_the_grammar, reading_meets_no_default, trees_have_places};
