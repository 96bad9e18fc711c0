//! Laws of the definitions: each is the contract of a function that does nothing.
ghost use Rattle.ps_actors.specs.Heard.{HearingStays};

/// What a performer has answered it has answered after the block of any legal event.
pub fn hearing_stays()
    ensures { HearingStays }
{}
