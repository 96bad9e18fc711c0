//! Laws of journals. A call does nothing: its contract is the law.
ghost use Rattle.ps_good_plan_laws.specs.Beginnings.{JournalsGoInOrder};
ghost use Rattle.ps_good_plan_laws.specs.Segments.{JournalsGoWell};
ghost use Rattle.ps_good_plan_laws.specs.Telling.{ToldIsKnown};

/// In every history, where no edit changes what is known, a plan that is good where it begins doesn't go wrong by itself: no act fails at
/// its end, no over-all condition breaks, and the run isn't blocked; and where no act fails at all, the plan isn't left without success.
pub fn journals_go_well()
    ensures { JournalsGoWell }
{}

/// In every history the starts and ends of a plan, of whatever kind, are a beginning of an order that the plan's arcs allow, and such an
/// order where each act has ended: each act starts at most once, after the end of each act with an arc to it, and ends at most once,
/// after its start.
pub fn journals_go_in_order()
    ensures { JournalsGoInOrder }
{}

/// What is known after some entries and after others tells the same exactly where it is equal.
pub fn told_is_known()
    ensures { ToldIsKnown }
{}
