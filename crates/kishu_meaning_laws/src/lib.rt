//! What is proved of the meaning of values and calls. It has laws alone, in `specs/`, which the check proves and nobody has to
//! believe. There is nothing else here.
#![tactic(auto)]
