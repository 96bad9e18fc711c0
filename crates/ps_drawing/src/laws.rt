//! Laws of the definitions: each is the contract of a function that does nothing.
ghost use Rattle.ps_drawing.specs.Laws.{NoBarVanishes};

/// No bar vanishes in the text form.
pub fn no_bar_vanishes()
    ensures { NoBarVanishes }
{}
