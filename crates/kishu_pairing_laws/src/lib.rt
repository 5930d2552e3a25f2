//! What runs can't tell apart, what they leave alone, and that they keep states sound.
#![tactic(auto)]

mod cells;
mod laws;

pub use cells::{cells_are_sound, cells_cannot_tell};
pub use laws::{
    run_cannot_tell, run_is_local, run_leaves, run_leaves_alone, runs_are_sound, runs_go_alike,
};
