//! What a journal bears out of the reports that performers sent: which units were done as they were reported, which were reported but
//! not recorded since the performer was stopped, and how many no report tells of.
#![tactic(auto)]

mod audited;
mod auditing;
mod counting;
mod firsts;
mod keeping;
mod laws;
mod stints;

pub use audited::Audit;
pub use auditing::{audit, audit_numbered};
pub use laws::{all_are_summed, numbered_stand_once, sameness_decides, turns_are_begun};
