//! What is proved of sessions over the meaning of cells: each replay is a state, cells leave what they
//! don't access, and a session on a good store stays attached over the cells that it runs, with just
//! the groups told that the new commit drops and stores; and a checkout goes by just the groups that
//! differ between two commits. Where the cells are texts, the stored pictures are states, and can be
//! written. Each function of `laws` does nothing, and its clauses are laws; what they rest on stands in
//! `specs/`, which the check proves and nobody has to believe.
#![tactic(auto)]

mod laws;

pub use laws::{
    cells_are_told, cells_leave, cells_stay_live, checkouts_are_planned, commits_are_told,
    replays_are_states, sessions_stay_attached, stored_pictures_are_states,
    written_stores_are_good,
};
