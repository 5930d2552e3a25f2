//! What is proved of the store: a file holds at most one graph and gives at most one list of tables, and
//! none where it is broken or foreign; what holds of each graph and table that records give; and where
//! the pictures of records lie. It has laws alone, in `specs/`, which the check proves and nobody has to
//! believe. There is nothing else here.
#![tactic(auto)]
