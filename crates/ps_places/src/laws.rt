//! Laws of the definitions: each is the contract of a function that does nothing.
ghost use Rattle.ps_places.specs.Laws.{FirstFalsePartsAreFirst, PlacesAreOne};

/// Where a condition has a first false part, that is one of its parts, it is false, and all parts before it are true. It has none exactly where
/// the condition holds.
pub fn first_false_parts_are_first()
    ensures { FirstFalsePartsAreFirst }
{}

/// A byte of a text has one place.
pub fn places_are_one()
    ensures { PlacesAreOne }
{}
