//! What the entries so far tell of requests.
ghost use Rattle.std.specs.Prelude.{◌≡◌, ◌≤◌, ◌+◌, ◌++◌, ◌<◌, IsTrue, List, [], ◌∷◌, length, OnOk};
ghost use Rattle.ps_machine.specs.declared.journal.Entry.{Entry};
ghost use Rattle.ps_rules.specs.Auctions.{act_of, confirmed, finish_of, is_of_run, is_unserved, requests};
ghost use Rattle.ps_rules.specs.Laws.{speaks_of};
ghost use Rattle.ps_ledger.specs.Kept.{Keeps, room_left, Takes};
ghost use Rattle.ps_ledger.specs.Requests.{asked_for, first_offer_on, HasRequests, TellsRequests, with_confirmed, with_finish, with_offer, with_unserved};

use ps_machine::Event;
use ps_world::Name;
use std::alloc::{AllocError, Global};

/// A request: its act, and how it fares.
#[derive(Clone, Copy)]
pub struct Request {
    /// The act's place in the plan that it was made in.
    pub act: u32,
    /// Who offered first.
    pub first: Option<Name>,
    pub confirmed: Option<Name>,
    pub unserved: bool,
    /// Whether the work was finished, and whether it went well.
    pub finish: Option<bool>,
}

/// All requests so far.
#[derive(Drop)]
pub struct Requests {
    pub all: Vec<Request>,
    /// The first that is of the present plan, or how many there are.
    pub of_plan: usize,
    /// The first that is of the last run, or how many there are.
    pub of_run: usize,
}

impl Requests {
    /// What an empty journal tells.
    pub fn new(alloc: Global) -> Requests
        ensures { TellsRequests [] result }
    {
        Requests {
            all: Vec::new(alloc),
            of_plan: 0,
            of_run: 0,
        }
    }

    /// How many requests there are.
    pub fn count(&self) -> u64
        ensures { (es : List Entry) → TellsRequests es self.now → result ≡ requests es }
    {
        self.all.len() as u64
    }

    /// Who was confirmed on a request.
    pub fn confirmed(&self, r: u64) -> Option<Name>
        ensures { (es : List Entry) → TellsRequests es self.now → result ≡ confirmed r es }
    {
        match self.all.get(r as usize) {
            Some(request) => request.confirmed,
            None => None,
        }
    }

    /// Who offered first on a request.
    pub fn first_offer(&self, r: u64) -> Option<Name>
        ensures { (es : List Entry) → TellsRequests es self.now → result ≡ first_offer_on r es }
    {
        match self.all.get(r as usize) {
            Some(request) => request.first,
            None => None,
        }
    }

    /// Whether a request is of the last run.
    pub fn is_of_run(&self, r: u64) -> bool
        ensures { (es : List Entry) → TellsRequests es self.now → result ≡ is_of_run r es }
    {
        self.of_run as u64 <= r && r < self.all.len() as u64
    }

    /// The act of the present plan that a request is for.
    pub fn act_of(&self, r: u64) -> Option<u32>
        ensures { (es : List Entry) → TellsRequests es self.now → result ≡ act_of r es }
    {
        match self.all.get(r as usize) {
            Some(request) if self.of_plan as u64 <= r => Some(request.act),
            _ => None,
        }
    }

    /// Whether a request is unserved.
    pub fn is_unserved(&self, r: u64) -> bool
        ensures { (es : List Entry) → TellsRequests es self.now → result ≡ is_unserved r es }
    {
        match self.all.get(r as usize) {
            Some(request) => request.unserved,
            None => false,
        }
    }

    /// Whether the work on a request was finished, and whether it went well.
    pub fn finish_of(&self, r: u64) -> Option<bool>
        ensures { (es : List Entry) → TellsRequests es self.now → result ≡ finish_of r es }
    {
        match self.all.get(r as usize) {
            Some(request) => request.finish,
            None => None,
        }
    }

    fn confirm(&mut self, r: u64, by: Name)
        requires { r < length self.now.all.items }
        ensures all { self.new.all.items ≡ with_confirmed self.old.all.items r by }
        ensures plan { self.new.of_plan ≡ self.old.of_plan }
        ensures run { self.new.of_run ≡ self.old.of_run }
        ensures spare { room_left self.old.all ≤ room_left self.new.all }
    {
        self.all[r as usize].confirmed = Some(by);
    }

    fn offer(&mut self, r: u64, by: Name)
        requires { r < length self.now.all.items }
        ensures all { self.new.all.items ≡ with_offer self.old.all.items r by }
        ensures plan { self.new.of_plan ≡ self.old.of_plan }
        ensures run { self.new.of_run ≡ self.old.of_run }
        ensures spare { room_left self.old.all ≤ room_left self.new.all }
    {
        let request = &mut self.all[r as usize];
        if request.first.is_none() {
            request.first = Some(by);
        }
    }

    fn finish(&mut self, r: u64, ok: bool)
        requires { r < length self.now.all.items }
        ensures all { self.new.all.items ≡ with_finish self.old.all.items r ok }
        ensures plan { self.new.of_plan ≡ self.old.of_plan }
        ensures run { self.new.of_run ≡ self.old.of_run }
        ensures spare { room_left self.old.all ≤ room_left self.new.all }
    {
        self.all[r as usize].finish = Some(ok);
    }

    fn leave(&mut self, r: u64)
        requires { r < length self.now.all.items }
        ensures all { self.new.all.items ≡ with_unserved self.old.all.items r }
        ensures plan { self.new.of_plan ≡ self.old.of_plan }
        ensures run { self.new.of_run ≡ self.old.of_run }
        ensures spare { room_left self.old.all ≤ room_left self.new.all }
    {
        self.all[r as usize].unserved = true;
    }

    fn push(&mut self, act: u32)
        requires { HasRequests 1 self.now }
        ensures all { self.new.all.items ≡ self.old.all.items ++ asked_for act ∷ [] }
        ensures plan { self.new.of_plan ≡ self.old.of_plan }
        ensures run { self.new.of_run ≡ self.old.of_run }
        ensures spare { room_left self.old.all ≤ room_left self.new.all + 1 }
    {
        let request = Request {
            act,
            first: None,
            confirmed: None,
            unserved: false,
            finish: None,
        };
        if self.all.push(request).is_err() {
            unreachable!();
        }
    }

    /// Makes room for so many requests more.
    pub fn reserve(&mut self, more: usize) -> Result<(), AllocError>
        ensures ok { OnOk result (HasRequests more self.new) }
        ensures spare { room_left self.old.all ≤ room_left self.new.all }
        ensures told { Keeps TellsRequests self.old self.new }
    {
        self.all.reserve(more)?;
        Ok(())
    }

    /// Takes one more event, which speaks of requests that are there.
    pub fn take(&mut self, event: &Event)
        requires room { HasRequests 1 self.now }
        requires speaks { IsTrue (speaks_of (length self.now.all.items) event.now) }
        ensures told { Takes TellsRequests event.now self.old self.new }
        ensures spare { room_left self.old.all ≤ room_left self.new.all + 1 }
    {
        match event {
            Event::Run { kind: _, acts: _ } => {
                self.of_plan = self.all.len();
                self.of_run = self.all.len();
            }
            Event::Replan(_) => self.of_plan = self.all.len(),
            Event::Request { r: _, act } => self.push(*act),
            Event::Offer { r, by } => self.offer(*r, *by),
            Event::Confirm { r, by } => self.confirm(*r, *by),
            Event::Unserved(r) => self.leave(*r),
            Event::Finish { r, by: _, ok } => self.finish(*r, *ok),
            _ => {}
        }
    }
}
