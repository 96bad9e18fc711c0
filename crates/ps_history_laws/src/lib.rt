//! The entries of a history are those that its text is read as: laws that stand above the rules of histories and the reading of journals,
//! scripts and members.
#![tactic(auto)]

mod laws;

pub use laws::{
    domains_are_sayable, first_entries_print_alike, histories_are_in_form, lines_are_sayable,
    members_are_sayable, plans_are_sayable, printed_histories_are_one, printed_histories_are_read,
    sayable_inputs_stay_so,
};
