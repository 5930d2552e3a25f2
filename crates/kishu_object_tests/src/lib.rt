//! Tests of states: tables of cells, with the groups and the pictures of the names that they leave,
//! whether they leave the same, what is loaded from their pictures, what is left of them where it is loaded
//! anew, and which groups they change. They stand in a crate of their own, since a crate with tests is
//! proved twice. There is nothing else here.
#![tactic(auto)]

#[cfg(test)]
mod anew;
#[cfg(test)]
mod cells;
#[cfg(test)]
mod changes;
#[cfg(test)]
mod groups;
#[cfg(test)]
mod loads;
#[cfg(test)]
mod pictures;
#[cfg(test)]
mod questions;
#[cfg(test)]
mod sameness;
