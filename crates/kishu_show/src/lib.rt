//! Texts of values: `repr` and `str` (Library Reference, "Built-in Functions": repr, and "Text
//! Sequence Type": str).
//!
//! A text is made from the left, and each of its code points takes a step of the budget when it is
//! made. A node that lies deeper in others than is allowed gives `Depth`, and a budget that is spent
//! gives `Spent`, where the definition does (`specs/Show` of `kishu_meaning`).
#![tactic(auto)]

mod around;
mod draft;
mod fault;
mod functions;
mod keys;
mod plain;
mod pushes;
mod reprs;
mod shows;

pub use fault::ShowFault;
pub use keys::key_text;
pub use plain::plain_text;
pub use reprs::repr_of;
pub use shows::show;
