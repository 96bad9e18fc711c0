//! Laws of editors. A call does nothing: its contract is the law.
ghost use Rattle.ps_undo.specs.Laws.{EditorsStaySuited, EditsAreUndone};
ghost use Rattle.ps_undo.specs.Runs.{CallsAreOfRuns};
ghost use Rattle.ps_undo.specs.Saved.{SavedGiveIt};

/// After an edit that changed what is known, an undo gives the same knowledge as before it; a redo after an undo gives back all that was held
/// before the undo, and an undo after a redo all that was held before the redo.
pub fn edits_are_undone()
    ensures { EditsAreUndone }
{}

/// What an editor holds suits the domain where what it begins with does, and at most 64 edits can be undone or redone.
pub fn editors_stay_suited()
    ensures { EditorsStaySuited }
{}

/// A call that isn't broken off leaves what a run of calls says.
pub fn calls_are_of_runs()
    ensures { CallsAreOfRuns }
{}

/// The edits that save what is known are all accepted where a session opens, and give the same knowledge.
pub fn saved_edits_give_it()
    ensures { SavedGiveIt }
{}
