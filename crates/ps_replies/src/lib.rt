//! The text of an entry with the lines that answer it, of what it asks for.
#![tactic(auto)]

mod replies;

pub use replies::push_entry;
