//! The acts that use each thing: facts, values and instances, and places of them, each with the places of the acts that use it.
#![tactic(auto)]

mod marks;
mod single;
mod users;

pub use users::Users;
