//! Reading journals: the entry of each line, and the first line that is none.
#![tactic(auto)]

mod acts;
mod causes;
mod entries;
mod events;
mod forms;
mod heads;
mod journals;
mod laws;
mod numbered;
mod words;

pub use entries::read_entry;
pub use heads::settings_in;
pub use journals::{JournalRefusal, JournalText, read_journal};
pub use laws::lines_are_one_entry;
pub use numbered::Numbered;
