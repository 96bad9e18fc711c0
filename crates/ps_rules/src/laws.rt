//! Laws of the definitions: each is the contract of a function that does nothing.
ghost use Rattle.ps_rules.specs.Cart.{IsCartRight};
ghost use Rattle.ps_rules.specs.Laws.{
  ActiveActsMayGoOn,
  ActsStartOnce,
  EntriesAreLegal,
  EntriesAreReadBack,
  FewEventsChange,
  FirstOfferWins,
  HistoriesAreReadBack,
  LegalEventsSpeak,
  LinesForceNothing,
  NoneIsActiveBetweenRuns,
  OnlyTheConfirmedWork,
  RequestsCountUp,
  SamenessDecides,
  SessionsAreOrderly,
  StartsAreSound,
  TurnsAreLegal,
};
ghost use Rattle.ps_rules.specs.Prefixes.{GoodLengthIsLongest, HistoriesLead, PrefixesGoOn};
ghost use Rattle.ps_rules.specs.Rooms.{ReplannedIsRight, SharedIsRight};
ghost use Rattle.ps_rules.specs.Sample.{IsSampleRight};

/// Nothing but edits, starts and ends changes what is known.
pub fn few_events_change()
    ensures { FewEventsChange }
{}

/// A request has at most one confirmation, which names the first offer.
pub fn first_offer_wins()
    ensures { FirstOfferWins }
{}

/// Nobody works on a request but the performer that was confirmed on it.
pub fn only_the_confirmed_work()
    ensures { OnlyTheConfirmedWork }
{}

/// Requests count up from 0.
pub fn requests_count_up()
    ensures { RequestsCountUp }
{}

/// A legal event after a history speaks of requests that are there.
pub fn legal_events_speak()
    ensures { LegalEventsSpeak }
{}

/// A legal start has its start condition true and its start effects defined.
pub fn starts_are_sound()
    ensures { StartsAreSound }
{}

/// An act is started at most once a plan.
pub fn acts_start_once()
    ensures { ActsStartOnce }
{}

/// After each block the over-all condition of each active act holds.
pub fn active_acts_may_go_on()
    ensures { ActiveActsMayGoOn }
{}

/// Where no run is open, no act is active.
pub fn none_is_active_between_runs()
    ensures { NoneIsActiveBetweenRuns }
{}

/// An event that answers a line of the terminal forces no cancel.
pub fn lines_force_nothing()
    ensures { LinesForceNothing }
{}

/// Each entry of a history but the cancels is legal after those before it.
pub fn entries_are_legal()
    ensures { EntriesAreLegal }
{}

/// A journal is a history exactly where, read from its beginning, its entries lead from nothing to nothing due.
pub fn histories_lead()
    ensures { HistoriesLead }
{}

/// A prefix of a history, and then the cancels that are due after it, are a history.
pub fn prefixes_go_on()
    ensures { PrefixesGoOn }
{}

/// So many of the first entries are a prefix of a history exactly where they are no more than the good ones.
pub fn good_length_is_longest()
    ensures { GoodLengthIsLongest }
{}

/// The entries that stand in the text of a journal are those of the journal.
pub fn entries_are_read_back()
    ensures { EntriesAreReadBack }
{}

/// The entries that stand in the text of a history of a sound input are those of the history.
pub fn histories_are_read_back()
    ensures { HistoriesAreReadBack }
{}

/// The sample session of README has the journal that README shows.
pub fn sample_is_right()
    ensures { IsSampleRight }
{}

/// The sample run of one act has the journal that it should have.
pub fn cart_is_right()
    ensures { IsCartRight }
{}

/// The sample run that is planned anew goes as it should.
pub fn replanned_is_right()
    ensures { ReplannedIsRight }
{}

/// The sample run of two acts for one worker goes as it should.
pub fn shared_is_right()
    ensures { SharedIsRight }
{}

/// Sameness decides equality; of causes it decides whether they print as the same first cause.
pub fn sameness_decides()
    ensures { SamenessDecides }
{}

/// What a member or the ticker does in its turn is legal.
pub fn turns_are_legal()
    ensures { TurnsAreLegal }
{}

/// The journal of a session in order is a history, and a whole one where its last run has ended.
pub fn sessions_are_orderly()
    ensures { SessionsAreOrderly }
{}
