//! The texts of planning domains: reading one, with the first fault, and printing one (PDDL 2.1, sections 2 to 5).
#![tactic(auto)]

mod laws;
mod meaning;
mod reading;
mod refusals;

pub use laws::{
    canonical_texts_are_read, domains_are_well_formed, meanings_have_own_faults, readings_are_one,
    readings_are_well_formed,
};
pub use ps_grammar::Form;
pub use ps_print::{print_domain, push_action, push_condition, push_decl};
pub use reading::read_domain;
pub use refusals::{Cap, DomainRefusal};
