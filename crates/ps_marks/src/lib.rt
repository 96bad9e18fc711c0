//! Landmarks: facts that every good plan makes true.
#![tactic(auto)]

mod asked;
mod candidates;
mod laws;
mod making;
mod marks;
mod places;
mod reach;
mod rules;

pub use laws::{adds_are_declared, closures_are_least, landmarks_are_made};
pub use marks::{goal_marks, landmarks};
pub use reach::out_of_reach;
