//! Lines of the terminal and of scripts: what each is read as, with the first fault of a bad one.
#![tactic(auto)]

mod commands;
mod fact_lines;
mod files;
mod forms;
mod goals;
mod judging;
mod kinds;
mod laws;
mod names;
mod reading;
mod scopes;

pub use commands::command_of;
pub use files::{FileName, after_run, first_run, reads_as, trimmed, without_end};
pub use forms::{Form, form_of};
pub use goals::first_condition;
pub use judging::{judged, marks_of_words, place};
pub use kinds::{Kind, kind_of};
pub use laws::lines_are_read_as_one;
pub use reading::{Read, cause_of, is_nothing, read_line};
