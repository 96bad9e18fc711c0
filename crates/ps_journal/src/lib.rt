//! The texts of the journal's entries and of the replies to queries.
#![tactic(auto)]

mod causes;
mod entries;
mod facts;
mod heads;
mod known;
mod printed;
mod replies;

pub use entries::print_entry;
pub use heads::{push_head, push_settings};
pub use printed::{Printed, name_text, push_after, push_number};
pub use replies::{Told, entry_text, push_known, push_replies};
