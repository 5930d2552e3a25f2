//! What commits store of states, and what a checkout does with it, as definitions, one line a rule:
//! the groups that change from one state to another, and the version of a group along a path of
//! commits; tables, with the pictures that lie in the file for their rows; what a cell changed, told
//! among the names that it touched; what a checkout keeps, loads and drops, and what it leaves; what a
//! good store and a session attached to it have. `specs/` has nothing else; what is proved of it
//! stands in `kishu_history_laws`.
#![tactic(auto)]
