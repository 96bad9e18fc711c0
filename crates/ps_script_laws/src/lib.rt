//! What lines of the terminal come to: laws that stand above the definitions of what a line says and of how it is printed.
#![tactic(auto)]

mod laws;

pub use laws::{
    acts_are_read_back, edits_are_read_back, queries_are_read_back, word_names_are_kept,
};
