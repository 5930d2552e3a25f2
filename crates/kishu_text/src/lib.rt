//! Work on texts by their code points: length, element, slice, order, occurrences of a part, white
//! space and the repr. Each call gives exactly what its definition gives for the text's list of
//! code points; places and lengths count code points, and never bytes.
#![tactic(auto)]

mod cursor;
mod index;
mod ordering;
mod repr;
mod search;
mod space;

pub use index::{at, count, next_place, slice};
pub use ordering::order;
pub use repr::quote;
pub use search::{find, occurrences, replace, split};
pub use space::{split_space, strip};
