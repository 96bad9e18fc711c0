//! The slow functions on what is known that equal the definitions: edits, conditions and effects over plain knowledge.
#![tactic(auto)]

mod edits;
mod effect_lists;
mod effects;
mod lists;

pub use edits::edit_plain;
pub use effects::{apply_plain, holds_plain};
