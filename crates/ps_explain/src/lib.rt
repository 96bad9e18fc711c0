//! Explanations, for people: what of a call was refused or went wrong, where it stands, and why.
#![tactic(auto)]

mod called;
mod calls;
mod faults;
mod kept;
mod named;
mod plans;
mod replays;
mod runs;
mod scripts;
mod sessions;
mod tallies;
mod usage;

pub use calls::explain;
pub use usage::USAGE;
