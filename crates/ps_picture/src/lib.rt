//! The picture of a run, as plain data: for each plan the bars and marks of its acts and of the members.
#![tactic(auto)]

mod courses;
mod laws;
mod members;
mod rows;
mod touches;

pub use courses::{Close, Course, Opening, picture};
pub use laws::{acts_have_rows, bars_go_forward};
pub use rows::{Bar, Label, Mark, Row};
pub use touches::{Ending, Sign};
