//! What is chosen in a turn.
ghost use Rattle.std.specs.Prelude.{◌≡◌, if◌then◌else◌, IfSome, None, Some};
ghost use Rattle.ps_ledger.specs.Ends.{outcome_of};
ghost use Rattle.ps_actors.specs.Choice.{event_of};
ghost use Rattle.ps_actors.specs.Ticks.{IsTickers};

use ps_machine::{Event, FailWhy, Outcome, PassWhy};
use ps_world::Name;
use std::marker::Model;

/// A kind of event that the ticker or a performer chooses, with what it says.
#[derive(Clone, Copy)]
pub enum Chosen {
    Offer { r: u64, by: Name },
    Pass { r: u64, by: Name, why: PassWhy },
    Confirm { r: u64, by: Name },
    Reject { r: u64, by: Name },
    Begin { r: u64, by: Name },
    Stopped { r: u64, by: Name },
    Unserved(u64),
    Request { r: u64, act: u32 },
    Start(u32),
    End(u32),
    Fail { act: u32, why: FailWhy },
    Over(Outcome),
}

/// An event that is chosen. It is small, where an event has place for edits and texts: a turn hands it from call to call, and looks at
/// many before it does one. Contracts see the event.
#[derive(Drop)]
pub struct Choice {
    chosen: Chosen,
}

impl Model for Choice {
    ghost use Rattle.ps_machine.specs.declared.journal.Event.{Event};
    ghost use Rattle.ps_machine.specs.contracts.journal.Event.{the_row};

    ghost Value = { Event };

    ghost coded = { the_row.coded };

    ghost use Rattle.ps_actors.specs.Choice.{event_of};

    ghost view = { λ c. event_of c.chosen };
}

impl Choice {
    /// This choice.
    pub fn of(chosen: Chosen) -> Choice
        ensures { result ≡ event_of chosen }
    {
        Choice { chosen }
    }

    /// How the event ends the run, if it ends it.
    pub fn outcome(&self) -> Option<Outcome>
        ensures { result ≡ outcome_of self.now }
    {
        match self.chosen {
            Chosen::Over(how) => Some(how),
            _ => None,
        }
    }

    /// The event.
    pub fn event(&self) -> Event
        ensures { result ≡ self.now }
    {
        match self.chosen {
            Chosen::Offer { r, by } => Event::Offer { r, by },
            Chosen::Pass { r, by, why } => Event::Pass { r, by, why },
            Chosen::Confirm { r, by } => Event::Confirm { r, by },
            Chosen::Reject { r, by } => Event::Reject { r, by },
            Chosen::Begin { r, by } => Event::Begin { r, by },
            Chosen::Stopped { r, by } => Event::Stopped { r, by },
            Chosen::Unserved(r) => Event::Unserved(r),
            Chosen::Request { r, act } => Event::Request { r, act },
            Chosen::Start(act) => Event::Start(act),
            Chosen::End(act) => Event::End(act),
            Chosen::Fail { act, why } => Event::Fail { act, why },
            Chosen::Over(how) => Event::Over(how),
        }
    }
}

/// What the ticker chooses, if it may come.
pub fn chosen_if(may: bool, chosen: Chosen) -> Option<Choice>
    ensures event { result ≡ (if may then Some (event_of chosen) else None) }
    ensures its { IsTickers (event_of chosen) → IfSome result IsTickers }
{
    if may { Some(Choice::of(chosen)) } else { None }
}
