//! What a journal tells of a performer's work on requests.
ghost use Rattle.std.specs.Prelude.{◌≡◌, ◌+◌, ◌-◌, ◌^◌, ◌<◌, if◌then◌else◌, List, [], IfOk, OnOk};
ghost use Rattle.ps_machine.specs.declared.journal.Entry.{Entry};
ghost use Rattle.ps_rules.specs.Auctions.{begins_by, is_begin, is_unit};
ghost use Rattle.ps_reports.specs.Stints.{HasCounts, TakesEvent, TellsStints, is_stopped, stint_at, unit_by, with_event, work_by};

use ps_machine::{By, Entry, Event};
use ps_world::Name;
use std::alloc::{AllocError, Global};
use std::collections::HashMap;

/// A performer's work on a request.
#[derive(Clone, Copy)]
pub struct Stint {
    /// Which of its beginnings it is, counted from 1, if it has begun.
    pub turn: Option<u64>,
    /// How many of its units are recorded.
    pub units: u64,
    /// Whether the performer stopped.
    pub stopped: bool,
}

/// A performer's work on all requests.
#[derive(Drop)]
pub struct Stints {
    pub name: Name,
    /// How often it has begun.
    pub begun: u64,
    pub all: HashMap<u64, Stint>,
}

impl Stints {
    /// What an empty journal tells.
    fn new(alloc: Global, name: Name) -> Stints
        ensures name { result.name ≡ name }
        ensures tells { TellsStints [] result }
    {
        Stints {
            name,
            begun: 0,
            all: HashMap::new(alloc),
        }
    }

    /// What a journal tells of a performer.
    pub fn of(alloc: Global, name: Name, h: &[Entry]) -> Result<Stints, AllocError>
        ensures name { IfOk result (λ stints. stints.name ≡ name) }
        ensures tells { IfOk result (λ stints. TellsStints h.now stints) }
    {
        let mut stints = Stints::new(alloc, name);
        for entry in h {
            stints.take(&entry.what)?;
        }
        Ok(stints)
    }

    /// The performer's work on a request.
    pub fn on(&self, r: u64) -> Stint
        ensures { result ≡ stint_at self.now r }
    {
        match self.all.get(&r) {
            Some(stint) => *stint,
            None => Stint {
                turn: None,
                units: 0,
                stopped: false,
            },
        }
    }

    // Takes one more event.
    fn take(&mut self, event: &Event) -> Result<(), AllocError>
        requires { HasCounts self.now }
        ensures { OnOk result (TakesEvent event.now self.old self.new) }
    {
        let Some((r, by)) = work_by(event) else {
            return Ok(());
        };
        if by != self.name {
            return Ok(());
        }
        let stint = with_event(r, by, self.begun, event, self.on(r));
        self.all.insert(r, stint)?;
        self.begun = with_begin(by, self.begun, event);
        Ok(())
    }
}

// How often a performer has begun after an event, where it had begun so often before.
fn with_begin(name: Name, begun: u64, event: &Event) -> u64
    requires { begun < 2 ^ 64 - 1 }
    ensures { result ≡ (if begins_by name event.now then begun + 1 else begun) }
{
    if begins_by(name, event) {
        begun + 1
    } else {
        begun
    }
}

// A performer's stint on a request, after an event.
fn with_event(r: u64, name: Name, begun: u64, event: &Event, stint: Stint) -> Stint
    requires begun { begun < 2 ^ 64 - 1 }
    requires units { stint.units < 2 ^ 64 - 1 }
    ensures { result ≡ with_event r name begun event.now stint }
{
    Stint {
        turn: if is_begin(r, name, event) {
            Some(begun + 1)
        } else {
            stint.turn
        },
        units: if is_unit(r, name, event) {
            stint.units + 1
        } else {
            stint.units
        },
        stopped: stint.stopped || is_stopped(r, name, event),
    }
}

// The request and the performer of whose work an event tells, if it does.
fn work_by(event: &Event) -> Option<(u64, Name)>
    ensures { result ≡ work_by event.now }
{
    match event {
        Event::Begin { r, by } => Some((*r, *by)),
        Event::Stopped { r, by } => Some((*r, *by)),
        _ => unit_by(event),
    }
}

/// The request and the performer of a unit, where an event is one.
pub fn unit_by(event: &Event) -> Option<(u64, Name)>
    ensures { result ≡ unit_by event.now }
{
    match event {
        Event::Edit {
            by: By::Performer(r, by),
            edit: _,
        } => Some((*r, *by)),
        Event::Refused {
            by: By::Performer(r, by),
            why: _,
        } => Some((*r, *by)),
        Event::UnitWork { r, by } => Some((*r, *by)),
        Event::Feedback {
            r,
            by,
            percent: _,
            text: _,
        } => Some((*r, *by)),
        Event::Finish { r, by, ok: _ } => Some((*r, *by)),
        _ => None,
    }
}

fn is_begin(r: u64, name: Name, event: &Event) -> bool
    ensures { result ≡ is_begin r name event.now }
{
    match event {
        Event::Begin { r: s, by } => r == *s && name == *by,
        _ => false,
    }
}

fn begins_by(name: Name, event: &Event) -> bool
    ensures { result ≡ begins_by name event.now }
{
    match event {
        Event::Begin { r: _, by } => name == *by,
        _ => false,
    }
}

fn is_unit(r: u64, name: Name, event: &Event) -> bool
    ensures { result ≡ is_unit r name event.now }
{
    match event {
        Event::Edit {
            by: By::Performer(s, by),
            edit: _,
        } => r == *s && name == *by,
        Event::Refused {
            by: By::Performer(s, by),
            why: _,
        } => r == *s && name == *by,
        Event::UnitWork { r: s, by } => r == *s && name == *by,
        Event::Feedback {
            r: s,
            by,
            percent: _,
            text: _,
        } => r == *s && name == *by,
        Event::Finish { r: s, by, ok: _ } => r == *s && name == *by,
        _ => false,
    }
}

fn is_stopped(r: u64, name: Name, event: &Event) -> bool
    ensures { result ≡ is_stopped r name event.now }
{
    match event {
        Event::Stopped { r: s, by } => r == *s && name == *by,
        _ => false,
    }
}
