//! Laws of the definitions: each is the contract of a function that does nothing.
ghost use Rattle.ps_entry_laws.specs.Laws.{FaultsAreOne, HistoriesArePrintedApart, JournalsHaveNoFault, PrintedEntriesAreRead, PrintedJournalsAreRead, TextsAreOneJournal};

/// What is printed of an entry is read as that entry's line.
pub fn printed_entries_are_read()
    ensures { PrintedEntriesAreRead }
{}

/// The text of a history is read as a journal of its entries.
pub fn printed_journals_are_read()
    ensures { PrintedJournalsAreRead }
{}

/// A text is a journal of one list of entries at most.
pub fn texts_are_one_journal()
    ensures { TextsAreOneJournal }
{}

/// Two histories that are printed with the same text are the same.
pub fn histories_are_printed_apart()
    ensures { HistoriesArePrintedApart }
{}

/// A text that is a journal has no fault.
pub fn journals_have_no_fault()
    ensures { JournalsHaveNoFault }
{}

/// A text has one fault at most.
pub fn faults_are_one()
    ensures { FaultsAreOne }
{}
