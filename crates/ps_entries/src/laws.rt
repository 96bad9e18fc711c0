//! Laws of the definitions: each is the contract of a function that does nothing.
ghost use Rattle.ps_entries.specs.Laws.{LinesAreOneEntry};

/// A line is one entry's at most, with one table of names after it.
pub fn lines_are_one_entry()
    ensures { LinesAreOneEntry }
{}
