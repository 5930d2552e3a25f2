//! The loading of groups from the store, and what a checkout keeps, loads and drops.
//!
//! `plan` tells what a checkout from one table to another keeps, loads and drops, by their groups and
//! versions. `fetch` reads the pictures that are loaded; `place` unbinds what is dropped and loads them, beside
//! what is kept; `carry_out` does both.
#![tactic(auto)]

mod carrying;
mod fault;
mod fetching;
mod group;
mod placing;
mod planning;
mod plans;
mod unbinding;

pub use carrying::{carry_out, fetch, place};
pub use fault::CheckoutFault;
pub use fetching::fetch_row;
pub use planning::plan;
pub use plans::Plan;
