//! Replay: the judge that says of the entries of a journal, one after another, whether they are a history of an input.
#![tactic(auto)]

mod judge;
mod queries;
mod verdict;

pub use judge::Judge;
pub use verdict::Verdict;
