//! Laws of the ledger: each is the contract of a function that does nothing.
ghost use Rattle.ps_ledger.specs.Legal.{LegalEventsSpeakOfLedgers};

/// A ledger that tells of a history may take every event that is legal after it.
pub fn legal_events_speak_of_ledgers()
    ensures { LegalEventsSpeakOfLedgers }
{}
