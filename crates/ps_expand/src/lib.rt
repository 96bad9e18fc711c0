//! A search over something that expands what is known, which keeps each state as its difference from the start.
#![tactic(auto)]

mod differences;
mod during;
mod expander;
mod expanding;
mod joining;
mod listing;
mod reached;
mod store;
mod tree;

pub use expander::Expander;
pub use expanding::{Child, Expand};
pub use tree::search_from;
