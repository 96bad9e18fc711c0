//! Laws of plans. A call does nothing: its contract is the law.
ghost use Rattle.ps_plan.specs.Laws.{PrintedPlansAreRead, TimedPlansRise};

/// A printed plan of at most 256 steps whose times rise is read as itself, and puts no new name into the table.
pub fn printed_plans_are_read()
    ensures { PrintedPlansAreRead }
{}

/// The times of a plan rise: each is at most each later one. Neither times nor durations are negative, and the times are in range.
/// There are at most as many steps as acts, and where no step fails there is one for each act, in their order.
pub fn timed_plans_rise()
    ensures { TimedPlansRise }
{}
