//! The editor: each line of a script in turn, what it makes of a problem that is prepared, and its text.
#![tactic(auto)]

mod answers;
mod laws;
mod lines;
mod runs;
mod texts;

pub use answers::{Answer, Why};
pub use laws::runs_are_of_lines;
pub use runs::run_edits;
