//! Reading member scripts: a performer's jobs and an observer's edits, with the first fault of a bad script.
#![tactic(auto)]

mod args;
mod feedback;
mod forms;
mod laws;
mod lines;
mod moves;
mod parts;
mod places;
mod reading;
mod refusals;

pub use laws::{members_are_whole, texts_are_one_member};
pub use reading::read_member;
pub use refusals::ScriptRefusal;
