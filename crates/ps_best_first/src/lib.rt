//! The search that expands first what misses the fewest marks.
#![tactic(auto)]

mod leaves;
mod searching;

pub use searching::best_first;
