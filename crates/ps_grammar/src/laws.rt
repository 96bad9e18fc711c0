//! Laws of the definitions: each is the contract of a function that does nothing.
ghost use Rattle.ps_grammar.specs.Laws.{FaultsAreTold, FaultsAreFirst, FaultsAreReal, FirstFaultsAreOne, FirstFaultsAreReal};

/// A text's fault is one whatever follows the marks that tell it.
pub fn faults_are_told()
    ensures { FaultsAreTold }
{}

/// A text has one fault at most.
pub fn faults_are_first()
    ensures { FaultsAreFirst }
{}

/// A text with a fault is no domain's, or too deep.
pub fn faults_are_real()
    ensures { FaultsAreReal }
{}

/// Marks have one first fault at most, whatever is wanted.
pub fn first_faults_are_one()
    ensures { FirstFaultsAreOne }
{}

/// Marks with a first fault aren't derived from what is wanted, or are too deep.
pub fn first_faults_are_real()
    ensures { FirstFaultsAreReal }
{}
