//! Laws of the definitions: each is the contract of a function that does nothing.
ghost use Rattle.ps_members.specs.Laws.{MembersAreWhole, TextsAreOneMember};

/// A text is one member at most, or has one first fault, with one table of names after it.
pub fn texts_are_one_member()
    ensures { TextsAreOneMember }
{}

/// A performer that is read has 1 to 64 jobs of at most 1,000 units, of which the last is `finish`; an observer has at most 1,000 units.
pub fn members_are_whole()
    ensures { MembersAreWhole }
{}
