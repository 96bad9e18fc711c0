//! Plans: their texts, their judging and their times.
#![tactic(auto)]

mod faults;
mod judging;
mod laws;
mod lines;
mod parts;
mod printing;
mod reading;
mod solving;
mod steps;
mod timing;

pub use faults::MOST_STEPS;
pub use judging::check_plan;
pub use laws::{printed_plans_are_read, timed_plans_rise};
pub use printing::print_plan;
pub use reading::read_plan;
pub use solving::Solver;
pub use timing::timed;
