//! Rows of the definitions of values that lead to one another, of pictures, groups and histories, computed by the check: each a
//! theorem that a definition gives what its rules say. They stand in a crate of their own, since nothing rests on them. There is
//! nothing else here.
#![tactic(auto)]
