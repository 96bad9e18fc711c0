//! A law of the definitions: it is the contract of a function that does nothing.
ghost use Rattle.ps_print.specs.Laws.{CanonicalWords};

/// The words of a domain's canonical text are those of its parts, in order.
pub fn canonical_words_are()
    ensures { CanonicalWords }
{}
