//! An editor of what is known, with undo and redo, and the edits that save what it made.
#![tactic(auto)]

mod changes;
mod editing;
mod laws;
mod lines;
mod saving;
mod steps;
mod undo;

pub use editing::{Editing, UndoRefusal};
pub use laws::{calls_are_of_runs, editors_stay_suited, edits_are_undone, saved_edits_give_it};
pub use saving::save;
pub use undo::Undo;
