//! What the entries so far tell of performers and observers.
ghost use Rattle.std.specs.Prelude.{◌≡◌, ◌<◌, IsTrue, List, [], length, IfOk, replicate};
ghost use Rattle.ps_machine.specs.declared.journal.Entry.{Entry};
ghost use Rattle.ps_rules.specs.Auctions.{begins, is_engaged};
ghost use Rattle.ps_rules.specs.Members.{observed};
ghost use Rattle.ps_ledger.specs.Kept.{Takes};
ghost use Rattle.ps_ledger.specs.Members.{begun_by, begun_with, engaged_with, place_in, seen_by, seen_with, speaks_of_observers, speaks_of_performers, TellsObservers, TellsPerformers};

use ps_machine::{By, Event};
use ps_world::Name;
use std::alloc::{AllocError, Global};

/// The performers, at most 64.
#[derive(Drop)]
pub struct Performers {
    pub names: Vec<Name>,
    /// For each performer whether it is engaged.
    pub engaged: Vec<bool>,
    /// For each performer how often it has begun.
    pub begun: Vec<u64>,
}

/// The observers, at most 16.
#[derive(Drop)]
pub struct Observers {
    pub names: Vec<Name>,
    /// For each observer how many units it has done in the last run.
    pub seen: Vec<u64>,
}

/// The first place of a name, or how many names there are.
pub fn place_in(names: &[Name], name: Name) -> usize
    ensures { result ≡ place_in names.now name }
{
    for place in 0..names.len() {
        if name == names[place] {
            return place;
        }
    }
    names.len()
}

impl Performers {
    /// What an empty journal tells of performers with these names.
    pub fn new(alloc: Global, names: Vec<Name>) -> Result<Performers, AllocError>
        ensures told { IfOk result (λ l. TellsPerformers [] l) }
        ensures names { IfOk result (λ l. l.names.items ≡ names.items) }
    {
        let mut engaged = Vec::new(alloc);
        engaged.resize(names.len(), false)?;
        let mut begun = Vec::new(alloc);
        begun.resize(names.len(), 0)?;
        Ok(Performers {
            names,
            engaged,
            begun,
        })
    }

    /// Whether a performer is engaged.
    pub fn is_engaged(&self, by: Name) -> bool
        ensures { (es : List Entry) → TellsPerformers es self.now → result ≡ is_engaged by es }
    {
        match self.engaged.get(place_in(&self.names, by)) {
            Some(engaged) => *engaged,
            None => false,
        }
    }

    /// How often a performer has begun.
    pub fn begins(&self, by: Name) -> u64
        ensures { (es : List Entry) → TellsPerformers es self.now → result ≡ begins by es }
    {
        match self.begun.get(place_in(&self.names, by)) {
            Some(begun) => *begun,
            None => 0,
        }
    }

    fn engage(&mut self, by: Name, engaged: bool)
        requires { place_in self.now.names.items by < length self.now.engaged.items }
        ensures engaged { self.new.engaged.items ≡ engaged_with self.old by engaged }
        ensures names { self.new.names.items ≡ self.old.names.items }
        ensures begun { self.new.begun.items ≡ self.old.begun.items }
    {
        let place = place_in(&self.names, by);
        self.engaged[place] = engaged;
    }

    fn begin(&mut self, by: Name)
        requires there { place_in self.now.names.items by < length self.now.begun.items }
        requires few { begun_by self.now by < 18446744073709551615 }
        ensures begun { self.new.begun.items ≡ begun_with self.old by }
        ensures names { self.new.names.items ≡ self.old.names.items }
        ensures engaged { self.new.engaged.items ≡ self.old.engaged.items }
    {
        let place = place_in(&self.names, by);
        self.begun[place] += 1;
    }

    /// Takes one more event, which names performers that are there.
    pub fn take(&mut self, event: &Event)
        requires { IsTrue (speaks_of_performers self.now event.now) }
        ensures told { Takes TellsPerformers event.now self.old self.new }
        ensures names { self.new.names.items ≡ self.old.names.items }
    {
        match event {
            Event::Offer { r: _, by } => self.engage(*by, true),
            Event::Reject { r: _, by } => self.engage(*by, false),
            Event::Begin { r: _, by } => self.begin(*by),
            Event::Finish { r: _, by, ok: _ } => self.engage(*by, false),
            Event::Stopped { r: _, by } => self.engage(*by, false),
            _ => {}
        }
    }
}

impl Observers {
    /// What an empty journal tells of observers with these names.
    pub fn new(alloc: Global, names: Vec<Name>) -> Result<Observers, AllocError>
        ensures told { IfOk result (λ l. TellsObservers [] l) }
        ensures names { IfOk result (λ l. l.names.items ≡ names.items) }
    {
        let mut seen = Vec::new(alloc);
        seen.resize(names.len(), 0)?;
        Ok(Observers { names, seen })
    }

    /// How many units an observer has done in the last run.
    pub fn observed(&self, by: Name) -> u64
        ensures { (es : List Entry) → TellsObservers es self.now → result ≡ observed by es }
    {
        match self.seen.get(place_in(&self.names, by)) {
            Some(seen) => *seen,
            None => 0,
        }
    }

    fn see(&mut self, by: Name)
        requires there { place_in self.now.names.items by < length self.now.seen.items }
        requires few { seen_by self.now by < 18446744073709551615 }
        ensures seen { self.new.seen.items ≡ seen_with self.old by }
        ensures names { self.new.names.items ≡ self.old.names.items }
    {
        let place = place_in(&self.names, by);
        self.seen[place] += 1;
    }

    fn begin(&mut self)
        ensures seen { self.new.seen.items ≡ replicate (length self.old.seen.items) 0 }
        ensures names { self.new.names.items ≡ self.old.names.items }
    {
        self.seen.fill(0);
    }

    /// Takes one more event, which names observers that are there.
    pub fn take(&mut self, event: &Event)
        requires { IsTrue (speaks_of_observers self.now event.now) }
        ensures told { Takes TellsObservers event.now self.old self.new }
        ensures names { self.new.names.items ≡ self.old.names.items }
    {
        match event {
            Event::Run { kind: _, acts: _ } => self.begin(),
            Event::Edit {
                by: By::Observer(by),
                edit: _,
            } => self.see(*by),
            Event::Refused {
                by: By::Observer(by),
                why: _,
            } => self.see(*by),
            _ => {}
        }
    }
}
