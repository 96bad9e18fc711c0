//! What a journal tells of a plan: in which order its acts start and end, and that a plan that was good where it begins goes well.
#![tactic(auto)]

mod laws;

pub use laws::{journals_go_in_order, journals_go_well, told_is_known};
