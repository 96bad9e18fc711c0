//! The calls that show a journal: the picture of its runs.
#![tactic(auto)]

mod asked;
mod faults;
mod pictures;
mod showing;
mod telling;

pub use asked::{USAGE, VERSION};
pub use showing::show;
pub use telling::{give_up, tell};
