//! Laws of the definitions: each is the contract of a function that does nothing.
ghost use Rattle.ps_reports.specs.Laws.{AllAreSummed, NumberedStandOnce, SamenessDecides, TurnsAreBegun};

/// Sameness of units decides equality.
pub fn sameness_decides()
    ensures { SamenessDecides }
{}

/// A performer has a turn on a request exactly where it has begun there.
pub fn turns_are_begun()
    ensures { TurnsAreBegun }
{}

/// A numbered list has no two reports of one performer and request with one number.
pub fn numbered_stand_once()
    ensures { NumberedStandOnce }
{}

/// In a history of a sound input, as many units are recorded as the sum over all requests and performers comes to.
pub fn all_are_summed()
    ensures { AllAreSummed }
{}
