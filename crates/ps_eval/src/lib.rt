//! Conditions and effects over what a session knows.
#![tactic(auto)]

mod effects;
mod evaluation;
mod laws;
mod touched;

pub use effects::{changed_by, read_by_effects};
pub use evaluation::{apply, defined, duration, holds, holds_all, unfold};
pub use laws::{flat_reads_what_is_named, truth_reads_what_is_named};
pub use touched::{edited_by, reads};
