//! What requests give where their cells run on the state that a session has, told by the head's table; and
//! that this is what they give on the replay of the head, where the session is attached to a good store.
//! `OnStates`, `Refusals` and `Made` in `specs/` have the definitions, which contracts above cite,
//! and `Reached` and `Asked` the counts that their laws speak of. Each function of `laws` does nothing, and
//! its clauses are laws; what they rest on stands in the other files of `specs/`, which the check proves and
//! nobody has to believe.
#![tactic(auto)]

mod laws;

pub use laws::{
    attached_sizes_are_told, cells_run_alike, commits_stay_small, live_states_step,
    loaded_bytes_are_sizes, next_states_make_no_more, pictures_are_asked_alike,
    refusals_change_nothing, requests_commit_what_ran, requests_make_nodes, requests_run_alike,
    same_states_are_told_alike, stored_pictures_can_be_loaded, touched_names_reach_alike,
};
