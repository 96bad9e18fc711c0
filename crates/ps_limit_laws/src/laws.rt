//! Laws of what is read: each is the contract of a function that does nothing.
ghost use Rattle.ps_limit_laws.specs.Sound.{LinesAreSound, MembersAreSound, PlansAreShort};

/// A line that is read is one that a script may have: in the goal that its edit sets no variable is free and at most two are in force at one
/// place, and at most 64 parentheses are open at one place of it.
pub fn lines_are_sound()
    ensures { LinesAreSound }
{}

/// A plan that is read has at most 256 steps.
pub fn plans_are_short()
    ensures { PlansAreShort }
{}

/// A member that is read is sound. A performer has an action of the domain, a pattern with one place for each parameter, and 1 to 64 jobs
/// of 1 to 1,000 sound units, of which the last and no other ends its job; an observer has at most 1,000 sound units.
pub fn members_are_sound()
    ensures { MembersAreSound }
{}
