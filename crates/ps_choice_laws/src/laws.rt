//! Laws of the definitions: each is the contract of a function that does nothing.
ghost use Rattle.ps_choice_laws.specs.Choosing.{
  ObserversLeaveNothing,
  PerformersLeaveNothing,
  PerformersListAll,
  TickerLeavesNothing,
  TickerListsAll,
};
ghost use Rattle.ps_choice_laws.specs.Whose.{EachEventIsSomebodys, MembersAloneAct};

/// Each event is the terminal's, the ticker's, a performer's or an observer's, or a cancel.
pub fn each_event_is_somebodys()
    ensures { EachEventIsSomebodys }
{}

/// After a history each legal event of a performer is by a performer of the input, and each one of an observer by an observer of it.
pub fn members_alone_act()
    ensures { MembersAloneAct }
{}

/// After a history the ticker chooses the first legal event of a list, in which each legal event of its own stands, but for a new plan or
/// an end that rests on the solver's answer: where one of these is legal, the solver is asked.
pub fn ticker_lists_all()
    ensures { TickerListsAll }
{}

/// Where the ticker chooses nothing after a history, and the solver isn't asked, no event of the ticker is legal.
pub fn ticker_leaves_nothing()
    ensures { TickerLeavesNothing }
{}

/// After a history a performer chooses, before any work, the first legal event of a list, in which each legal event of its own stands, but
/// for units: each of these is on the request that it works on.
pub fn performers_list_all()
    ensures { PerformersListAll }
{}

/// Where a performer does nothing in its turn after a history, no event of that performer is legal.
pub fn performers_leave_nothing()
    ensures { PerformersLeaveNothing }
{}

/// Where an observer does nothing in its turn, no event of that observer is legal.
pub fn observers_leave_nothing()
    ensures { ObserversLeaveNothing }
{}
