//! What is proved of tokens: the rules of tokens, as relations, and the cutting of a text agree. It has laws alone, in `specs/`, which the check proves and nobody has to
//! believe. There is nothing else here.
#![tactic(auto)]
