//! Laws of the headline: each is the contract of a function that does nothing.
ghost use Rattle.ps_calls.specs.Laws.{FailedReadsAreTold, FailedWritesAreTold, FaultsWriteNothing, FirstWordsDecide, ModesDecide, OrderedSessionsAreOne, RefusedWritesAreTold, ReportsAreTold, StatusesAreFew, TextsDecide, UnreadIsCounted, UnwrittenIsCounted, WordsDecide, WorkIsDoneInSilence, WrittenSessionsGoWell};

use ps_session::{one_journal, sessions_go_well};

/// Where the count of failed reads changes, the answer is 4, 5 or 6.
pub fn failed_reads_are_told()
    ensures { FailedReadsAreTold }
{}

/// Where the count of failed writes to `out` changes, the answer is 5.
pub fn failed_writes_are_told()
    ensures { FailedWritesAreTold }
{}

/// Where the count of refused writes to `out` or to `err` changes, the answer is 5 or 6.
pub fn refused_writes_are_told()
    ensures { RefusedWritesAreTold }
{}

/// With the answers 0, 1 and 7 neither a read nor a write has failed, and where no reports are asked for, `err` is as
/// it was.
pub fn work_is_done_in_silence()
    ensures { WorkIsDoneInSilence }
{}

/// Where reports are asked for, the answers 0, 1 and 7 come only where `err` took the lines of some reports against the
/// journal that `out` took.
pub fn reports_are_told()
    ensures { ReportsAreTold }
{}

/// The answers 2, 3 and 4 leave `out` as it was.
pub fn faults_write_nothing()
    ensures { FaultsWriteNothing }
{}

/// The answer 4 comes only where a read failed.
pub fn unread_is_counted()
    ensures { UnreadIsCounted }
{}

/// The answer 5 comes only where a write to `out` failed, or where one to `err` did and nothing was written to `out`,
/// or reports were to be told.
pub fn unwritten_is_counted()
    ensures { UnwrittenIsCounted }
{}

/// The answer 2 comes only where the words aren't in the grammar, and there comes nothing else but 5 or 6.
pub fn words_decide()
    ensures { WordsDecide }
{}

/// The texts of the files decide the status, unless it is 5 or 6.
pub fn texts_decide()
    ensures { TextsDecide }
{}

/// The answer 1 comes only to a session, a generation or an editor, and 7 only to a plan or a journal that is judged.
pub fn modes_decide()
    ensures { ModesDecide }
{}

/// The answer 1 doesn't come where the first word is `check`, `validate`, `replay` or `migrate`, and 7 nowhere else.
pub fn first_words_decide()
    ensures { FirstWordsDecide }
{}

/// No answer is more than 7.
pub fn statuses_are_few()
    ensures { StatusesAreFew }
{}

/// With `--ordered` the journal is a function of the input: two such sessions of one input write the same bytes and end with the same status.
pub fn ordered_sessions_are_one()
    ensures { OrderedSessionsAreOne }
{
    one_journal();
}

/// In the journal that a session writes good plans go well, and the starts and ends of each plan follow an order that its arcs allow.
pub fn written_sessions_go_well()
    ensures { WrittenSessionsGoWell }
{
    sessions_go_well();
}
