//! What the lines of a journal come to: laws that stand above the definitions of what an entry's line is and of how it is printed.
#![tactic(auto)]

mod laws;

pub use laws::{
    faults_are_one, histories_are_printed_apart, journals_have_no_fault, printed_entries_are_read,
    printed_journals_are_read, texts_are_one_journal,
};
