//! Rows of the definitions of requests and of the store, computed by the check: what answers and files give, each a theorem that the
//! definition gives it. They stand in a crate of their own, since nothing rests on them. There is nothing else here.
#![tactic(auto)]
