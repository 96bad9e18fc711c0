//! Laws of edits and of effects. A call does nothing: its contract is the law.
ghost use Rattle.ps_problem.specs.Changes.{EditsChange};
ghost use Rattle.ps_problem.specs.WellKnown.{EditsKeepWellKnown, PutsKeepWellKnown};

/// An accepted edit changes what it says and nothing else, in lists of any order, and lists that rise still rise.
pub fn edits_change_what_they_say()
    ensures { EditsChange }
{}

/// What is known suits the domain, when a session opens and after each edit: nothing stands twice, at most 1,000
/// instances are there, the constants among them, each head and type is declared, each argument is an instance that
/// fits, and the goal is one that could be set now.
pub fn edits_keep_well_known()
    ensures { EditsKeepWellKnown }
{}

/// What is known goes on to suit the domain after a list of effects is made, where each fact that is added and each term
/// that is given a value is declared, with an instance that fits for each argument.
pub fn puts_keep_well_known()
    ensures { PutsKeepWellKnown }
{}
