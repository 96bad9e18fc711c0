//! The closure of rules over places: what they give one after another, where one place may be left out.
#![tactic(auto)]

mod closing;
mod rule;
mod rules;
mod users;

pub use rule::{Rule, all_set, is_used};
pub use rules::Rules;
