//! Rows of the definitions of the language, computed by the check: what tokens and trees texts have, each a theorem that the
//! definition gives it. They stand in a crate of their own, since nothing rests on them. There is nothing else here.
#![tactic(auto)]
