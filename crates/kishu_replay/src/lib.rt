//! The machine that replays each commit's whole path of cells from empty: the state of a commit, and the
//! steps that it takes. The definition stands in `specs/`. There is nothing else here.
#![tactic(auto)]
