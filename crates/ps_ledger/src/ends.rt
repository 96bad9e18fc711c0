//! What the entries so far tell of how runs ended.
ghost use Rattle.std.specs.Prelude.{◌≡◌, true, false, is_some, List, []};
ghost use Rattle.std.specs.Option.{option_or};
ghost use Rattle.ps_machine.specs.declared.journal.Entry.{Entry};
ghost use Rattle.ps_ledger.specs.Kept.{Takes};
ghost use Rattle.ps_ledger.specs.Ends.{last_outcome, outcome_of, TellsEnds};

use ps_machine::{Event, Outcome};

/// How runs ended.
#[derive(Clone, Copy)]
pub struct Ends {
    /// How the last one that has ended did.
    pub last: Option<Outcome>,
}

/// How an event ends a run, if it ends one.
fn outcome_of(event: &Event) -> Option<Outcome>
    ensures { result ≡ outcome_of event.now }
{
    match event {
        Event::Over(how) => Some(*how),
        _ => None,
    }
}

/// The first of these outcomes, if there is one.
fn first_outcome(one: Option<Outcome>, other: Option<Outcome>) -> Option<Outcome>
    ensures { result ≡ option_or one other }
{
    match one {
        Some(how) => Some(how),
        None => other,
    }
}

impl Ends {
    /// What an empty journal tells.
    pub fn new() -> Ends
        ensures { TellsEnds [] result }
    {
        Ends { last: None }
    }

    /// How the last run that has ended did.
    pub fn last(&self) -> Option<Outcome>
        ensures { (es : List Entry) → TellsEnds es self.now → result ≡ last_outcome es }
    {
        self.last
    }

    /// Takes one more event.
    pub fn take(&mut self, event: &Event)
        ensures { Takes TellsEnds event.now self.old self.new }
    {
        self.last = first_outcome(outcome_of(event), self.last);
    }
}
