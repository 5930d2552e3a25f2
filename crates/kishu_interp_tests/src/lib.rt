//! Tests over the public call that runs a cell: tables of cells, whose outputs come from outside.
//! They stand in a crate of their own, since a crate with tests is proved twice, and apart from
//! `kishu_tests`, so that they wait for no proof of the top call. There is nothing else here.
#![tactic(auto)]

#[cfg(test)]
mod interp;
