//! Tests over the public calls of the store's bytes, its graph and its journal: tables of records, graphs and
//! files, whose expected values come from outside. They stand in a crate of their own, since a crate with
//! tests is proved twice. There is nothing else here.
#![tactic(auto)]

#[cfg(test)]
mod graph;
#[cfg(test)]
mod journal;
#[cfg(test)]
mod record;
