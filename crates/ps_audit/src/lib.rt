//! What the text of a journal is worth: whether it is the text of a whole history of an input, and where it isn't.
#![tactic(auto)]

mod audits;
mod differences;
mod entry_lines;
mod findings;
mod texts;

pub use audits::{Audited, audit};
pub use findings::{Finding, finding_status};
