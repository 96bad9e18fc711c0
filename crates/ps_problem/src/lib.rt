//! The problem expert: what a session knows, and the edits and effects on it.
#![tactic(auto)]

mod change;
mod laws;
mod problem;

pub use change::Change;
pub use laws::{edits_change_what_they_say, edits_keep_well_known, puts_keep_well_known};
pub use problem::Problem;
