//! Tests over the public calls between a run and the bytes around it: inputs, request and answer
//! lines, notebooks and outputs. They stand in a crate of their own, since a crate with tests is proved
//! twice. There is nothing else here.
#![tactic(auto)]

#[cfg(test)]
mod inputs;
#[cfg(test)]
mod lines;
#[cfg(test)]
mod notebooks;
#[cfg(test)]
mod outputs;
