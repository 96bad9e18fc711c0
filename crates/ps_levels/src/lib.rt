//! A search by levels, over any store of the nodes that it reaches, and the trail by which nodes were reached.
#![tactic(auto)]

mod frontier;
mod searching;
mod trail;

pub use frontier::Frontier;
pub use searching::{Found, search};
pub use trail::Trail;
