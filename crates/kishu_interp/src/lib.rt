//! Runs a cell: reads its text's tree, and runs that by steps over a heap and names. Unless memory
//! runs out, a run gives exactly the outcome, the outputs, the heap, the names and the record of
//! accesses that the definition of a cell's run (`kishu_meaning`) says. What its statements do stands in
//! `kishu_statements`, which knows nothing of texts.
#![tactic(auto)]

mod run;

pub use run::run_cell;
