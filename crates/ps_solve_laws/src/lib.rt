//! Laws of what a planner answers, and of how far its search goes.
#![tactic(auto)]

mod laws;

pub use laws::{levels_go_on, no_plan_is_none, reaches_as_many, sample_answers, tells_how_far};
