//! The solver that looks forward, over anything that expands what is known.
#![tactic(auto)]

mod searching;

pub use searching::Search;
