//! Laws of the definitions: each is the contract of a function that does nothing.
ghost use Rattle.ps_lists.specs.Laws.{ListsAreTold, JudgedTextsAreGrammatical, GrammaticalTextsAreJudged};

/// Words are written by one list of nested lists only, so a text has one meaning.
pub fn lists_are_told()
    ensures { ListsAreTold }
{}

/// The lists of a text that was judged to be a domain's are of the grammar.
pub fn judged_texts_are_grammatical()
    ensures { JudgedTextsAreGrammatical }
{}

/// A text whose lists are of the grammar is judged to be a domain's.
pub fn grammatical_texts_are_judged()
    ensures { GrammaticalTextsAreJudged }
{}
