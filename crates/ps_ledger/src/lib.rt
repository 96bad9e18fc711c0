//! What the entries of a journal tell, kept entry by entry.
#![tactic(auto)]

mod acts;
mod answers;
mod ends;
mod laws;
mod ledger;
mod lines;
mod members;
mod offers;
mod requests;
mod runs;
mod work;

pub use acts::Acts;
pub use answers::{Answer, Answers};
pub use ends::Ends;
pub use laws::legal_events_speak_of_ledgers;
pub use ledger::Ledger;
pub use lines::Lines;
pub use members::{Observers, Performers, place_in};
pub use offers::{Offer, Offers};
pub use requests::{Request, Requests};
pub use runs::Run;
pub use work::{Job, Work};
