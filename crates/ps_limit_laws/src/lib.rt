//! What is read is within the limits of a session.
#![tactic(auto)]

mod laws;

pub use laws::{lines_are_sound, members_are_sound, plans_are_short};
