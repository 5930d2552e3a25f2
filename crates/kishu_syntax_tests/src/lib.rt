//! Tests over the public calls that read a text: tables of texts with their tokens, their trees or
//! the lines of their faults, whose expected values come from outside. They stand in a crate of
//! their own, since a crate with tests is proved twice, and need nothing but what reads texts.
//! There is nothing else here.
#![tactic(auto)]

#[cfg(test)]
mod lexer;
#[cfg(test)]
mod parser;
