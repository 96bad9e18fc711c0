//! The words that begin a line of an editor alone.
#![tactic(auto)]

mod words;

pub use words::{EditWord, edit_word};
