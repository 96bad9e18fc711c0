//! What three planners at once answer in the mode `plan`, and the text of it.
#![tactic(auto)]

mod asking;
mod telling;

pub use asking::{Told, plan_told};
