//! The operators on whole numbers, and numbers as text.
//!
//! Whole numbers lie in -2^127 to 2^127-1. What this crate promises:
//!
//! - Each operator answers the true result, as the Python Language Reference 3 has it for numbers of
//!   any size, and [`NumFault::Overflow`] exactly where that lies outside the range.
//! - [`floor_div`] and [`modulo`] answer [`NumFault::ZeroDivisor`] exactly where the divisor is 0,
//!   and else the one quotient and the one remainder that `a == (a // b) * b + a % b` leaves, where
//!   the remainder lies between 0 and the divisor.
//! - [`power`] answers [`NumFault::NegativePower`] exactly where the exponent is negative.
//! - [`read_int`] reads the texts that its rule allows, and no other, and [`write_int`] writes the
//!   decimal text.
//! - No call but `write_int` can fail for want of memory.
//!
//! `specs/Numbers` of `kishu_model` says what the operators and the reading of a text mean, and
//! `specs/NumberLaws` that quotient and remainder are the only ones. `specs/Results` has the answers.
#![tactic(auto)]

mod fault;
mod powers;
mod quotients;
mod remainders;
mod sums;
mod text;

pub use fault::NumFault;
pub use powers::power;
pub use quotients::floor_div;
pub use remainders::modulo;
pub use sums::{add, mul, sub};
pub use text::{read_int, write_int};
