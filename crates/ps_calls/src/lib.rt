//! The top calls: a session, a check, a validation, a replay, a migration and an editor, from words and files to bytes and a status.
#![tactic(auto)]

mod calls;
mod laws;
mod performing;
mod reported;
mod reporting;
mod telling;
mod verdicts;

pub use calls::{plansys, plansys_quiet};
pub use laws::{
    failed_reads_are_told, failed_writes_are_told, faults_write_nothing, first_words_decide,
    modes_decide, ordered_sessions_are_one, refused_writes_are_told, reports_are_told,
    statuses_are_few, texts_decide, unread_is_counted, unwritten_is_counted, words_decide,
    work_is_done_in_silence, written_sessions_go_well,
};
pub use reporting::give_up;
pub use telling::{tell, told_of_itself};
