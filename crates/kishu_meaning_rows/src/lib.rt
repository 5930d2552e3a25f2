//! Rows of the definitions of the meaning, computed by the check: what numbers, values and cells give, each a theorem that the
//! definition gives it. They stand in a crate of their own, since nothing rests on them. There is nothing else here.
#![tactic(auto)]
