//! Rows of the definitions of a store's records, graph, tables and requests, computed by the check: each a theorem that a definition
//! gives what its rules say. They stand in a crate of their own, since nothing rests on them. There is nothing else here.
#![tactic(auto)]
