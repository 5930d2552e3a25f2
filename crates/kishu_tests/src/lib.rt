//! Tests over the top call: runs of the program in memory, whose answers and files come from
//! outside. They stand in a crate of their own, since a crate with tests is proved twice. There is
//! nothing else here.
#![tactic(auto)]

#[cfg(test)]
mod serve;
