//! Laws of the definitions: each is the contract of a function that does nothing.
ghost use Rattle.ps_grammar_laws.specs.LineForms.{GrammaticalLinesAreJudged, JudgedLinesAreGrammatical};
ghost use Rattle.ps_grammar_laws.specs.MemberLines.{GrammaticalMemberLinesAreJudged, JudgedMemberLinesAreGrammatical};

/// The nested lists of a line whose words fit a form are a line of that form.
pub fn judged_lines_are_grammatical()
    ensures { JudgedLinesAreGrammatical }
{}

/// The words of a line of a form fit it.
pub fn grammatical_lines_are_judged()
    ensures { GrammaticalLinesAreJudged }
{}

/// The nested lists of a line of a member's text whose words fit a form are a line of that form.
pub fn judged_member_lines_are_grammatical()
    ensures { JudgedMemberLinesAreGrammatical }
{}

/// The words of a line of a form of a member's text fit it.
pub fn grammatical_member_lines_are_judged()
    ensures { GrammaticalMemberLinesAreJudged }
{}
