//! What is kept of a session beside its entries, how an event changes it, and what is asked of it.
#![tactic(auto)]

mod acts;
mod auctions;
mod forced;
mod lines;
mod members;
mod settled;
mod state;
mod taking;
mod trees;
mod work;

pub use lines::count_due;
pub use members::{matches, performer_of};
pub use state::State;
pub use work::same_flag;
