//! What is proved of pictures that are read from bytes: they are read exactly where they are pictures, a fault
//! lies inside, and what the pictures of names are. `laws` says it, a call for each law; `specs/` has the proofs.
#![tactic(auto)]

mod laws;

pub use laws::{faults_lie_inside, pictures_are_of_names, pictures_are_read, read_is_written_back};
