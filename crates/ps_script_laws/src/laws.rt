//! Laws of the definitions: each is the contract of a function that does nothing.
ghost use Rattle.ps_script_laws.specs.Laws.{ActsAreReadBack, EditsAreReadBack, QueriesAreReadBack, WordNamesAreKept};

/// A table with the names of words keeps those that it had.
pub fn word_names_are_kept()
    ensures { WordNamesAreKept }
{}

/// What is printed of an edit is read as the line that sets it.
pub fn edits_are_read_back()
    ensures { EditsAreReadBack }
{}

/// What is printed of a query is read as the line that asks it.
pub fn queries_are_read_back()
    ensures { QueriesAreReadBack }
{}

/// What is printed of an act, after `run action`, is read as the line that runs it.
pub fn acts_are_read_back()
    ensures { ActsAreReadBack }
{}
