//! Laws of landmarks. A call does nothing: its contract is the law.
ghost use Rattle.ps_marks.specs.Laws.{AddsAreDeclared, ClosuresAreLeast, LandmarksAreMade};

/// A closure has the facts that are known, and what a ground action that is usable in it can make, and every list that has these has it.
pub fn closures_are_least()
    ensures { ClosuresAreLeast }
{}

/// Every good plan makes each landmark true after the start effect or the end effect of some step, as long as no action and no instance
/// stands twice and what ground actions add is of declared arguments.
pub fn landmarks_are_made()
    ensures { LandmarksAreMade }
{}

/// What ground actions add is of declared arguments where the adds of the domain's actions suit their predicates, no action and no instance
/// stands twice, and the domain's constants are instances.
pub fn adds_are_declared()
    ensures { AddsAreDeclared }
{}
