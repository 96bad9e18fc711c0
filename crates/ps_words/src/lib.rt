//! What the words of the command line ask for.
#![tactic(auto)]

mod asked;
mod commands;
mod form;
mod numbers;
mod usage;

pub use asked::{Asked, ReplaySettings, Settings, read_words};
pub use usage::{USAGE, VERSION};
