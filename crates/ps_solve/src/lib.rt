//! A solver that looks forward, level by level, for the least of the shortest good plans.
#![tactic(auto)]

mod expansion;
mod flags;
mod forward;
mod reached;
mod roaming;
mod rows;
mod steps;
mod store;
mod task;
mod values;

pub use forward::Forward;
pub use reached::Reached;
pub use task::Task;
