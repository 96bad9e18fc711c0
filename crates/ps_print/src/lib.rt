//! The canonical text of a domain, and the texts of its parts (PDDL 2.1, sections 2 to 5).
#![tactic(auto)]

mod actions;
mod conditions;
mod declared;
mod domains;
mod effects;
mod expressions;
mod laws;
mod terms;
mod writer;

pub use actions::push_action;
pub use conditions::push_condition;
pub use declared::push_decl;
pub use domains::print_domain;
pub use laws::canonical_words_are;
