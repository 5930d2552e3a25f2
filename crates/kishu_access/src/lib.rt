//! Items, attributes and walks of values in a run: `kishu_meaning`'s rules of subscripts, slices,
//! attributes, places, `op=`, unpacking and `for`, each as a call over a `Machine`.
//!
//! A call changes the run exactly as the definition changes a moment, and gives or raises what that
//! gives or raises, unless memory runs out.
#![tactic(auto)]

mod attributes;
mod places;
mod slices;
mod stores;
mod subscripts;
mod updates;
mod walks;

pub use attributes::{attribute, is_object};
pub use places::{Place, delete_place, read_place, store_in};
pub use slices::{Bounds, slice};
pub use subscripts::item;
pub use updates::updated;
pub use walks::{item_for, unpacked, walk_of, walk_view};
