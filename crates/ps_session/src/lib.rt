//! The session: each line of the terminal in turn, with the run that it opens, its entries and their replies.
#![tactic(auto)]

mod laws;
mod lines;
mod session;
mod texts;
mod ways;

pub use laws::{histories_tell_success, one_journal, sessions_go_well};
pub use session::{run, run_to_board, run_unwritten, status_of};
pub use ways::Turns;
