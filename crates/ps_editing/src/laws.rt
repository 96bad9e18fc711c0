//! Laws of the definitions: each is the contract of a function that does nothing.
ghost use Rattle.ps_editing.specs.Laws.{RunsAreOfLines};

/// What an editor holds after each of its lines is a function of the domain and the lines.
pub fn runs_are_of_lines()
    ensures { RunsAreOfLines }
{}
