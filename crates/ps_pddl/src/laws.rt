//! Laws of the definitions: each is the contract of a function that does nothing.
ghost use Rattle.ps_pddl.specs.Laws.{CanonicalTextsAreRead, DomainsAreWellFormed, MeaningsHaveOwnFaults, ReadingsAreOne, ReadingsAreWellFormed};

/// A text is read as one thing at most, with one table of names after it.
pub fn readings_are_one()
    ensures { ReadingsAreOne }
{}

/// The meaning of lists has no fault of a text's words, of its shape or of memory.
pub fn meanings_have_own_faults()
    ensures { MeaningsHaveOwnFaults }
{}

/// What lists mean is well formed, where their numbers are within the limits.
pub fn domains_are_well_formed()
    ensures { DomainsAreWellFormed }
{}

/// What a text is read as is well formed: what it names is declared, and of kinds that suit.
pub fn readings_are_well_formed()
    ensures { ReadingsAreWellFormed }
{}

/// The canonical text of a domain that was read is read as that domain again, with the names that it was read with.
pub fn canonical_texts_are_read()
    ensures { CanonicalTextsAreRead }
{}
