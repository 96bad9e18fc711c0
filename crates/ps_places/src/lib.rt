//! Where a byte of a text stands, and which part of a condition is the first that is false.
#![tactic(auto)]

mod laws;
mod parts;
mod places;

pub use laws::{first_false_parts_are_first, places_are_one};
pub use parts::{first_false, first_false_of};
pub use places::{Place, line_of, place_of};
