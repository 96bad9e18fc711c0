//! Laws of the definitions: each is the contract of a function that does nothing.
ghost use Rattle.ps_history_laws.specs.Laws.{
  DomainsAreSayable,
  FirstEntriesPrintAlike,
  HistoriesAreInForm,
  LinesAreSayable,
  MembersAreSayable,
  PlansAreSayable,
  PrintedHistoriesAreOne,
  PrintedHistoriesAreRead,
  SayableInputsStaySo,
};

/// An entry has the same line with the first of the causes that print as its own does.
pub fn first_entries_print_alike()
    ensures { FirstEntriesPrintAlike }
{}

/// The entries of a history are in form, and what they say can be said.
pub fn histories_are_in_form()
    ensures { HistoriesAreInForm }
{}

/// The text of a history is read as a journal of its entries.
pub fn printed_histories_are_read()
    ensures { PrintedHistoriesAreRead }
{}

/// Two histories that are printed with the same text have the same entries.
pub fn printed_histories_are_one()
    ensures { PrintedHistoriesAreOne }
{}

/// What a line that is read says can be said.
pub fn lines_are_sayable()
    ensures { LinesAreSayable }
{}

/// The steps of a plan that is read can be said.
pub fn plans_are_sayable()
    ensures { PlansAreSayable }
{}

/// What a member that is read says can be said.
pub fn members_are_sayable()
    ensures { MembersAreSayable }
{}

/// Of a domain that is read the constants and the acts of each action can be said.
pub fn domains_are_sayable()
    ensures { DomainsAreSayable }
{}

/// What can be said of an input with a table can be said with each table that keeps its names.
pub fn sayable_inputs_stay_so()
    ensures { SayableInputsStaySo }
{}
