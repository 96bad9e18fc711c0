//! Laws of the definitions: each is the contract of a function that does nothing.
ghost use Rattle.ps_stale_plan_laws.specs.Asked.{
  AskedForGood,
  EditsAreMade,
  KnowledgeDecides,
  OnlyEditsCount,
  OthersLeave,
  StillAsked,
};

/// Whoever asked the solver after so many entries has asked it so, whatever entries follow.
pub fn asked_for_good()
    ensures { AskedForGood }
{}

/// In a history, while nothing counts since the solver was asked, it is asked still, and what is known is the same.
pub fn still_asked()
    ensures { StillAsked }
{}

/// In a history, while nothing counts since the solver was asked, nothing comes but edits, refusals, passes, and what
/// ends the plan.
pub fn only_edits_count()
    ensures { OnlyEditsCount }
{}

/// Each edit of a history was accepted, and what is known after it is what it makes.
pub fn edits_are_made()
    ensures { EditsAreMade }
{}

/// An entry that is no edit, start or end leaves what is known.
pub fn others_leave()
    ensures { OthersLeave }
{}

/// Two states of what is known are equal where they can't differ.
pub fn knowledge_decides()
    ensures { KnowledgeDecides }
{}
