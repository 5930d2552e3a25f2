//! What is proved of numbers as bytes: two numbers with the same bytes are one. It has laws alone, in `specs/`, which the check proves and nobody has to
//! believe. There is nothing else here.
#![tactic(auto)]
