//! What a plan is worth after the edits of a script.
#![tactic(auto)]

mod known;
mod verdicts;

pub use known::known_after;
pub use verdicts::{Invalid, verdict};
