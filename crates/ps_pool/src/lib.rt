//! Runs until their end: by turns in order, where each member takes a turn, then the ticker, again and again; or by
//! workers, each in a thread of its own.
#![tactic(auto)]

mod alone;
mod crew;
mod gate;
mod holds;
mod laws;
mod lead;
mod ordered;
mod outline;
mod round_place;
mod searches;
mod workers;

pub use gate::{Gate, NoGate};
pub use laws::{one_end, plans_go_well};
pub use ordered::{RunStop, go_on, run_ordered};
pub use workers::{run_workers, work};
