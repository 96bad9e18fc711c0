//! The words of a domain's text, and the nested lists that they write.
#![tactic(auto)]

mod blocks;
mod laws;
mod lexemes;
mod places;
mod trees;

pub use laws::{grammatical_texts_are_judged, judged_texts_are_grammatical, lists_are_told};
pub use lexemes::{Lexeme, lexemes_of, mark_of};
pub use places::{after, at, count, head, items, items_at, rest, section, word_of};
pub use trees::{Tree, Trees, trees_of};
