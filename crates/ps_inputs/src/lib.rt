//! The input of a call, read from its words and its files, or why there is none.
#![tactic(auto)]

mod causes;
mod crowds;
mod faults;
mod judging;
mod laws;
mod loading;
mod reading;
mod works;

pub use faults::{Fault, fault_line};
pub use laws::{members_are_sound, scripts_are_read_as_one};
pub use loading::load;
pub use works::{Check, Editing, Generation, Planning, Replay, Session, Validation, Work};
