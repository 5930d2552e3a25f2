//! Outputs of cells as a notebook shows them (nbformat 4.5, "Code cell outputs").
#![tactic(auto)]

mod outputs;

pub use outputs::outputs_json;
