//! The plain data of the planning machine: its input, its members, and the entries of its journal, with their texts.
#![tactic(auto)]

mod grows;
mod inputs;
mod journal;
mod members;

pub use grows::Grows;
pub use inputs::{Command, Input, Line, LineCause, Query};
pub use journal::{By, CancelWhy, Entry, Event, FailWhy, Outcome, PassWhy, Refusal, RunKind};
pub use members::{Member, Observer, Performer, Unit};
