//! Laws of the definitions: each is the contract of a function that does nothing.
ghost use Rattle.ps_script.specs.Laws.{LinesAreReadAsOne};

/// A line is read as one thing at most, with one table of names after it.
pub fn lines_are_read_as_one()
    ensures { LinesAreReadAsOne }
{}
