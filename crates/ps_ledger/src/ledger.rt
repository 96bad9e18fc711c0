//! What the entries so far tell, whole.
ghost use Rattle.std.specs.Prelude.{◌≡◌, ◌<◌, IfOk, List, [], length, OnOk};
ghost use Rattle.ps_machine.specs.declared.journal.Entry.{Entry};
ghost use Rattle.ps_rules.specs.Auctions.{has_answered, has_offered, is_for_active, is_for_cancelled, is_open, is_rejected, pass_of};
ghost use Rattle.ps_rules.specs.Runs.{is_active, is_cancelled};
ghost use Rattle.ps_ledger.specs.Acts.{IsCancelled};
ghost use Rattle.ps_ledger.specs.Kept.{Keeps, Takes, TakesCancel};
ghost use Rattle.ps_ledger.specs.Ledger.{HasRoom, HasSameMembers, HasSpare, KeepsSpare, pass_where, PassesFor, Speaks, TakesOne, TellsAll};

use super::acts::{Acts, is_active};
use super::answers::Answers;
use super::ends::Ends;
use super::lines::Lines;
use super::members::{Observers, Performers};
use super::offers::Offers;
use super::requests::Requests;
use super::runs::Run;
use super::work::Work;
use ps_action::ActState;
use ps_machine::{Event, PassWhy};
use ps_world::Name;
use std::alloc::{AllocError, Global};

/// All that is kept of a journal but its entries and what is known.
#[derive(Drop)]
pub struct Ledger {
    pub run: Run,
    pub acts: Acts,
    pub requests: Requests,
    pub work: Work,
    pub performers: Performers,
    pub observers: Observers,
    pub answers: Answers,
    pub lines: Lines,
    pub offers: Offers,
    pub ends: Ends,
}

fn is_cancelled(state: ActState) -> bool
    ensures { result ≡ is_cancelled state }
{
    match state {
        ActState::Cancelled => true,
        _ => false,
    }
}

/// Why a request is passed, if it is.
fn pass_where(is_open: bool, matches: bool, engaged: bool) -> Option<PassWhy>
    ensures { result ≡ pass_where is_open matches engaged }
{
    if !is_open {
        Some(PassWhy::Late)
    } else if !matches {
        Some(PassWhy::Other)
    } else if engaged {
        Some(PassWhy::Busy)
    } else {
        None
    }
}

impl Ledger {
    /// What an empty journal tells of members with these names.
    pub fn new(
        alloc: Global,
        performers: Vec<Name>,
        observers: Vec<Name>,
    ) -> Result<Ledger, AllocError>
        ensures told { IfOk result (λ l. TellsAll [] l) }
        ensures performers { IfOk result (λ l. l.performers.names.items ≡ performers.items) }
        ensures observers { IfOk result (λ l. l.observers.names.items ≡ observers.items) }
    {
        Ok(Ledger {
            run: Run::new(),
            acts: Acts::new(alloc),
            requests: Requests::new(alloc),
            work: Work::new(alloc),
            performers: Performers::new(alloc, performers)?,
            observers: Observers::new(alloc, observers)?,
            answers: Answers::new(alloc),
            lines: Lines::new(),
            offers: Offers::new(alloc),
            ends: Ends::new(),
        })
    }

    /// Whether the act of a request is active in the present plan.
    pub fn is_for_active(&self, r: u64) -> bool
        ensures { (es : List Entry) → TellsAll es self.now → result ≡ is_for_active r es }
    {
        match self.requests.act_of(r) {
            Some(act) => is_active(self.acts.state(act)),
            None => false,
        }
    }

    /// Whether the act of a request was cancelled in the present plan.
    pub fn is_for_cancelled(&self, r: u64) -> bool
        ensures { (es : List Entry) → TellsAll es self.now → result ≡ is_for_cancelled r es }
    {
        match self.requests.act_of(r) {
            Some(act) => is_cancelled(self.acts.state(act)),
            None => false,
        }
    }

    /// Whether a request is open.
    pub fn is_open(&self, r: u64) -> bool
        ensures { (es : List Entry) → TellsAll es self.now → result ≡ is_open r es }
    {
        let active = self.is_for_active(r);
        let confirmed = self.requests.confirmed(r);
        let unserved = self.requests.is_unserved(r);
        active && (confirmed.is_none() && !unserved)
    }

    /// Whether a performer answered a request.
    pub fn has_answered(&self, r: u64, by: Name) -> bool
        ensures { (es : List Entry) → TellsAll es self.now → result ≡ has_answered r by es }
    {
        self.answers.has_answered(&self.performers.names, r, by)
    }

    /// Whether a performer offered on a request.
    pub fn has_offered(&self, r: u64, by: Name) -> bool
        ensures { (es : List Entry) → TellsAll es self.now → result ≡ has_offered r by es }
    {
        self.answers.has_offered(&self.performers.names, r, by)
    }

    /// Why a performer passed a request, if it did.
    pub fn pass_of(&self, r: u64, by: Name) -> Option<PassWhy>
        ensures { (es : List Entry) → TellsAll es self.now → result ≡ pass_of r by es }
    {
        self.answers.pass_of(&self.performers.names, r, by)
    }

    /// Whether a performer was rejected on a request.
    pub fn is_rejected(&self, r: u64, by: Name) -> bool
        ensures { (es : List Entry) → TellsAll es self.now → result ≡ is_rejected r by es }
    {
        self.answers.is_rejected(&self.performers.names, r, by)
    }

    /// Why a performer would pass a request, where it does the request's act or where it doesn't;
    /// nothing where it would offer.
    pub fn pass_reason(&self, r: u64, by: Name, matches: bool) -> Option<PassWhy>
        ensures { PassesFor self.now r by matches result }
    {
        let open = self.is_open(r);
        let engaged = self.performers.is_engaged(by);
        pass_where(open, matches, engaged)
    }

    /// Makes room for so many events that make no plan.
    pub fn reserve(&mut self, more: usize) -> Result<(), AllocError>
        ensures ok { OnOk result (HasSpare more self.new) }
        ensures told { Keeps TellsAll self.old self.new }
        ensures acts { self.new.acts ≡ self.old.acts }
        ensures members { HasSameMembers self.old self.new }
        ensures spare { KeepsSpare self.old self.new }
    {
        self.requests.reserve(more)?;
        self.work.reserve(more)?;
        self.answers.reserve(more)?;
        self.offers.reserve(more)
    }

    /// Makes room for an event.
    pub fn make_room(&mut self, event: &Event) -> Result<(), AllocError>
        ensures ok { OnOk result (HasRoom event.now self.new) }
        ensures told { Keeps TellsAll self.old self.new }
        ensures members { HasSameMembers self.old self.new }
        ensures spare { KeepsSpare self.old self.new }
    {
        let acts = match event {
            Event::Run { kind: _, acts } => acts.len(),
            Event::Replan(acts) => acts.len(),
            _ => 0,
        };
        self.acts.make_room(acts)?;
        self.reserve(1)
    }

    /// Takes one more event, which speaks of what is there.
    pub fn take(&mut self, event: &Event)
        requires room { HasRoom event.now self.now }
        requires speaks { Speaks event.now self.now }
        ensures told { Takes TellsAll event.now self.old self.new }
        ensures members { HasSameMembers self.old self.new }
        ensures spare { TakesOne self.old self.new }
    {
        self.run.take(event);
        self.acts.take(event);
        self.requests.take(event);
        self.work.take(event);
        self.answers.take(&self.performers.names, event);
        self.performers.take(event);
        self.observers.take(event);
        self.lines.take(event);
        self.offers.take(event);
        self.ends.take(event);
    }

    /// Takes the cancel of an act.
    pub fn cancel(&mut self, act: u32)
        requires { act < length self.now.acts.states.items }
        ensures told { TakesCancel TellsAll act self.old self.new }
        ensures states { IsCancelled act self.old.acts self.new.acts }
        ensures members { HasSameMembers self.old self.new }
        ensures spare { KeepsSpare self.old self.new }
    {
        self.acts.cancel(act);
    }
}
