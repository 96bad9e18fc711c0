//! Large values in boxes.
#![tactic(auto)]

mod boxes;

pub use boxes::Boxed;
