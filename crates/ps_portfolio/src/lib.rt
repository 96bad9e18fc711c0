//! Three planners at once.
#![tactic(auto)]

mod choosing;
mod greedy;
mod joining;
mod levels;
mod planning;

pub use greedy::{Greedy, Marks};
pub use joining::{Chosen, portfolio};
pub use levels::Levels;
pub use planning::Planner;
pub use ps_greedy::Found;
