//! The behaviour tree of a plan: an act waits for others, and the root tells how all of them fare.
#![tactic(auto)]

mod laws;
mod status;
mod text;
mod tree;
mod waits;

pub use laws::{all_done_is_success, one_done_has_three_lines, unharmed_is_no_failure};
pub use tree::{ActView, Tree};
