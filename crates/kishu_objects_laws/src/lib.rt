//! What is proved of pictures, groups and sameness: pictures are equal exactly where states are the same, what
//! is loaded is the same, and groups are what a chain of names that share nodes links. `laws` says it, a call for
//! each law; `specs/` has the proofs, from lists up to bytes.
#![tactic(auto)]

mod laws;

pub use laws::{
    bytes_tell, groups_are_apart, groups_are_components, groups_cut, groups_of_a_part,
    groups_of_the_same, orders_list_what_is_reached, pictures_are_their_own, pictures_glue,
    pictures_load, pictures_read_in_order, pictures_stay, pictures_tell, pictures_tell_all,
    plain_names_are_alone, same_goes_on, soundness_is_tested,
};
