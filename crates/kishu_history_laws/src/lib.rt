//! What is proved of histories: versions and tables, what a cell changed, checkouts, good stores and
//! sessions attached to them. Each function of `laws` does nothing, and its clauses are laws over the
//! definitions of `kishu_history`; what they rest on stands in `specs/`, which the check proves and
//! nobody has to believe.
#![tactic(auto)]

mod laws;

pub use laws::{
    accesses_are_sets, cells_are_told, cells_stay_live, cells_stay_live_by_tests,
    checkouts_stay_live, commits_are_told, detection_is_exact, files_give_tables,
    good_stores_replay, groups_cut_states, loads_keep_states_sound, paths_are_replays,
    plans_are_exact, records_give_tables, rows_lie_at_their_pictures, runs_leave,
    same_states_change_alike, sessions_stay_attached, sizes_are_told, tables_are_right,
    tests_decide, versions_tell,
};
