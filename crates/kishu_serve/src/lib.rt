//! The top call: words, an input and a store to answers and a status.
//!
//! `kishu` reads the words, opens the store, and answers the requests: the one that the words tell, the
//! cell that the input is, or those of the input's lines, each as it comes; or it runs the cells of the
//! notebook that the input is, and writes it; or it applies requests that are made from a number, and sums
//! them up. Its clauses are what Kishu promises of a run.
#![tactic(auto)]

mod asking;
mod book;
mod making;
mod notebooks;
mod running;
mod serving;
mod status;
mod top;
mod work;

pub use status::Status;
pub use top::kishu;
