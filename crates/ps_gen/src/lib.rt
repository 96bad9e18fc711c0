//! A generated session: its domain, its members and its script, in which carts are brought through a warehouse one after the other, and
//! the summary of its entries.
#![tactic(auto)]

mod counts;
mod scripts;
mod texts;

pub use counts::summary;
pub use scripts::script_lines;
pub use texts::{carrier_text, domain_text, helper_text};
