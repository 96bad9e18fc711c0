//! Laws of the definitions: each is the contract of a function that does nothing.
ghost use Rattle.ps_text.specs.Laws.{TokensAreOne, FaultsAreOne, TokensAreFaultless, TextsHaveTokens};

/// A text has one list of tokens at most.
pub fn tokens_are_one()
    ensures { TokensAreOne }
{}

/// A text has one first fault at most.
pub fn faults_are_one()
    ensures { FaultsAreOne }
{}

/// A text with a fault has no list of tokens.
pub fn tokens_are_faultless()
    ensures { TokensAreFaultless }
{}

/// A text all of whose words have a class has tokens.
pub fn texts_have_tokens()
    ensures { TextsHaveTokens }
{}
