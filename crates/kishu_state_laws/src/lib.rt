//! What holds of every state, and that runs keep it. `State` of `kishu_objects` has the definition. In
//! `specs/`, `Moments` has what holds within a run; `trees` what every tree of a cell is; `keeping` goes
//! through the whole meaning of a cell, one line a rule; `Whole` has the laws that the functions
//! here say of runs, `Pictures` and `Fitting` those of pictures: these are states, and can be written.
#![tactic(auto)]

mod laws;
mod places;

pub use laws::{
    budgets_stop_runs, calls_never_run_out, cells_cannot_tell_states, cells_keep_states,
    no_step_is_given_back, pictures_are_states, runs_keep_nodes, runs_keep_profiles,
    runs_keep_states, states_are_real, states_fit, trees_are_sound, turns_never_run_out,
    what_reads_is_code,
};
pub use places::places_are_found;
