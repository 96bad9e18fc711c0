//! Reporting: each unit that a performer does is reported over a belt beside the board.
#![tactic(auto)]

mod gate;
mod reporting;

pub use gate::ReportGate;
pub use reporting::Reporting;
