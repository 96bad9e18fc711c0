//! Laws of the definitions: each is the contract of a function that does nothing.
ghost use Rattle.ps_progress_laws.specs.DeadEnd.{NoDeadEnd};
ghost use Rattle.ps_progress_laws.specs.Engaged.{EngagedOnOne};
ghost use Rattle.ps_progress_laws.specs.Working.{
  IdleHasNoWork,
  OlderHasNoWork,
  OneWork,
  SomebodyGoesOn,
  WhoWorksCanRecord,
};

/// A performer is engaged exactly where it is engaged on some request, and it is so on one request at a time.
pub fn engaged_on_one()
    ensures { EngagedOnOne }
{}

/// A performer that can stop, begin or do a unit on a request is engaged on it, and it is so on one request at a time.
pub fn one_work()
    ensures { OneWork }
{}

/// A performer that isn't engaged can neither stop nor begin, and has no next unit, on any request.
pub fn idle_has_no_work()
    ensures { IdleHasNoWork }
{}

/// On a request that is for no act of the present plan nobody can stop or begin, and nobody has a next unit.
pub fn older_has_no_work()
    ensures { OlderHasNoWork }
{}

/// While a performer works on a request, in a history of a sound input, a run is open, its job has a next unit, and what it
/// records next is legal.
pub fn who_works_can_record()
    ensures { WhoWorksCanRecord }
{}

/// While a run of a sound input is open, the ticker, the solver or some member has something to do.
pub fn no_dead_end()
    ensures { NoDeadEnd }
{}

/// Where neither the ticker nor the solver has anything to do in an open run of a sound input, some member, known by its number
/// among the performers or the observers, has.
pub fn somebody_goes_on()
    ensures { SomebodyGoesOn }
{}
