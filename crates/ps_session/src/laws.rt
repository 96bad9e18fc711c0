//! Laws of sessions: each is the contract of a function that does nothing.
ghost use Rattle.ps_session.specs.Laws.{HistoriesTellSuccess, OneJournal, SessionsGoWell};

/// In every history a run that ends is told to have succeeded exactly where its goal holds then.
pub fn histories_tell_success()
    ensures { HistoriesTellSuccess }
{}

/// The journal of a session is a function of its input.
pub fn one_journal()
    ensures { OneJournal }
{}

/// In the journal of a session good plans go well, and the starts and ends of each plan follow an order that its arcs allow.
pub fn sessions_go_well()
    ensures { SessionsGoWell }
{}
