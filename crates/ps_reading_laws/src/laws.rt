//! Laws of the definitions: each is the contract of a function that does nothing.
ghost use Rattle.ps_reading_laws.specs.Laws.{DepthsAreParentheses, DepthsAreToldThere, DomainsAreReadBack, EveryLineIsRead, EveryMemberIsRead, EveryTextIsRead, LevelsAreParentheses, LineDepthsAreParentheses, MemberDepthsAreParentheses, PrintedDomainsAreOne, ReadDomainsAreWritable};
ghost use Rattle.ps_reading_laws.specs.Samples.{SamplesCount};

/// Every text is read as a domain or has a first fault.
pub fn every_text_is_read()
    ensures { EveryTextIsRead }
{}

/// Every line of a script is read as something.
pub fn every_line_is_read()
    ensures { EveryLineIsRead }
{}

/// Every text is read as a member or has a first fault.
pub fn every_member_is_read()
    ensures { EveryMemberIsRead }
{}

/// The level at a place of a domain's text is the number of parentheses open there, and one more for each of them whose form
/// stands alone.
pub fn levels_are_parentheses()
    ensures { LevelsAreParentheses }
{}

/// In a domain's text a level too many is opened exactly where a level is and as many count as may.
pub fn depths_are_parentheses()
    ensures { DepthsAreParentheses }
{}

/// In a domain's text a level too many is told at the parenthesis to which it belongs.
pub fn depths_are_told_there()
    ensures { DepthsAreToldThere }
{}

/// Samples with forms that stand alone: how many levels count in them.
pub fn samples_count()
    ensures { SamplesCount }
{}

/// In a line of a script a parenthesis opens a level too many exactly where as many stand open as levels may.
pub fn line_depths_are_parentheses()
    ensures { LineDepthsAreParentheses }
{}

/// In a line of a member's text a parenthesis opens a level too many exactly where as many stand open as levels may.
pub fn member_depths_are_parentheses()
    ensures { MemberDepthsAreParentheses }
{}

/// The canonical text of each well-formed domain that can be written with a table of names is read as that domain.
pub fn domains_are_read_back()
    ensures { DomainsAreReadBack }
{}

/// Each domain that is read with a table of names is well formed and can be written with the table after it.
pub fn read_domains_are_writable()
    ensures { ReadDomainsAreWritable }
{}

/// Two well-formed domains that can be written with a table of names are the same where they have one canonical text.
pub fn printed_domains_are_one()
    ensures { PrintedDomainsAreOne }
{}
