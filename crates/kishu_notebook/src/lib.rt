//! Notebooks (nbformat 4.5): one is read from bytes, or its fault is told; the texts of its code cells
//! are given, what their runs showed is set in it, and it is written. All else in it stays as it was.
//! `specs/notebooks` of `kishu_model` says which bytes are a notebook and what is set.
#![tactic(auto)]

mod cells;
mod faults;
mod floats;
mod notebook;
mod refusal;
mod setting;

pub use notebook::Notebook;
pub use refusal::{NotebookFault, NotebookKey, NotebookRefusal};
