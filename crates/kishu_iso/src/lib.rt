//! Whether two states are the same: whether they have the same names, and behind these isomorphic
//! heaps, sharing and identity included.
//!
//! `same` tells it of the states that two heaps with their names hold, by comparing their pictures.
//! The other functions do nothing. The contract of each is a law: what pictures and their bytes tell
//! of states, and that what is loaded from a picture is the same as what was pictured.
#![tactic(auto)]

mod comparing;
mod laws;

pub use comparing::same;
pub use laws::{
    equal_bytes_tell_same_states, equal_pictures_tell_same_states, loads_bring_the_same_back,
    parts_make_the_whole_same, sameness_goes_on,
};
