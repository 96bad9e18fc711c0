//! The lines that tell the reports of a session: each that its journal bears out, and how many units no report tells
//! of.
#![tactic(auto)]

mod lines;
mod performers;
mod units;

pub use lines::report_lines;
pub use performers::reporters;
