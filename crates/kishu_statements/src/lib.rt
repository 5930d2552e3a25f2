//! Runs the statements of a cell's tree by steps over a heap and names. Unless memory runs out, they
//! give and leave exactly what the definition of a cell's run (`kishu_meaning`) says. It ends: each turn
//! of a loop takes a step, and each call is one level deeper. How much of the stack it takes, no clause
//! bounds.
//!
//! One cycle has a function for each form of the language, over what `kishu_machine`,
//! `kishu_access` and `kishu_calls` do with values: `expressions`, with `displays`, `operators`,
//! `primaries` and `calls`; `targets`; `statements`, with `loops` and `tries`. Its functions are kept
//! apart, and pass faults on by `match` where `?` would copy them, so that their frames stay small.
//! `cell` is what the statements of a whole cell do.
#![tactic(auto)]

mod calls;
mod cell;
mod displays;
mod expressions;
mod loops;
mod operators;
mod primaries;
mod statements;
mod targets;
mod tries;

pub use cell::run_statements;
