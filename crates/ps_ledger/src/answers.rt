//! What the entries so far tell of the answers to requests.
ghost use Rattle.std.specs.Prelude.{◌≡◌, ◌≤◌, ◌+◌, ◌<◌, IsTrue, List, [], ◌∷◌, ◌++◌, length, OnOk, replicate};
ghost use Rattle.ps_world.specs.declared.names.Name.{Name as NameView};
ghost use Rattle.ps_rules.specs.Auctions.{has_answered, has_offered, is_rejected, pass_of};
ghost use Rattle.ps_ledger.specs.Kept.{Keeps, room_left, Reads, Takes};
ghost use Rattle.ps_ledger.specs.Members.{place_in};
ghost use Rattle.ps_ledger.specs.Answers.{answer_at, HasRows, no_answer, speaks_of_answers, TellsAnswers, TellsRows, with_answer};

use super::members::place_in;
use ps_machine::{Event, PassWhy};
use ps_world::Name;
use std::alloc::{AllocError, Global};

/// What a performer answered to a request.
#[derive(Clone, Copy)]
pub struct Answer {
    pub offered: bool,
    /// Why it passed, if it did.
    pub passed: Option<PassWhy>,
    pub rejected: bool,
}

impl Answer {
    const NONE: Answer = Answer {
        offered: false,
        passed: None,
        rejected: false,
    };
}

/// The answers to all requests so far, each at the place of its performer's name.
#[derive(Drop)]
pub struct Answers {
    /// For each request a place for each performer, of whom there are at most 64.
    pub rows: Vec<[Answer; 64]>,
}

impl Answers {
    /// What an empty journal tells, whoever the performers are.
    pub fn new(alloc: Global) -> Answers
        ensures rows { TellsRows [] result }
        ensures told { (names : List NameView) → TellsAnswers names [] result }
    {
        Answers {
            rows: Vec::new(alloc),
        }
    }

    /// What a performer, one of these names, answered to a request.
    fn answer(&self, names: &[Name], r: u64, by: Name) -> Answer
        ensures { result ≡ answer_at names.now self.now.rows.items r by }
    {
        match self.rows.get(r as usize) {
            Some(row) => match row.get(place_in(names, by)) {
                Some(answer) => *answer,
                None => Answer::NONE,
            },
            None => Answer::NONE,
        }
    }

    /// Whether a performer answered a request.
    pub fn has_answered(&self, names: &[Name], r: u64, by: Name) -> bool
        ensures { Reads (TellsAnswers names.now) self.now result (has_answered r by) }
    {
        let answer = self.answer(names, r, by);
        answer.offered || answer.passed.is_some()
    }

    /// Whether a performer offered on a request.
    pub fn has_offered(&self, names: &[Name], r: u64, by: Name) -> bool
        ensures { Reads (TellsAnswers names.now) self.now result (has_offered r by) }
    {
        self.answer(names, r, by).offered
    }

    /// Why a performer passed a request, if it did.
    pub fn pass_of(&self, names: &[Name], r: u64, by: Name) -> Option<PassWhy>
        ensures { Reads (TellsAnswers names.now) self.now result (pass_of r by) }
    {
        self.answer(names, r, by).passed
    }

    /// Whether a performer was rejected on a request.
    pub fn is_rejected(&self, names: &[Name], r: u64, by: Name) -> bool
        ensures { Reads (TellsAnswers names.now) self.now result (is_rejected r by) }
    {
        self.answer(names, r, by).rejected
    }

    fn change(&mut self, names: &[Name], r: u64, by: Name, answer: Answer)
        requires row { r < length self.now.rows.items }
        requires place { place_in names.now by < 64 }
        ensures rows { self.new.rows.items ≡ with_answer names.now self.old.rows.items r by answer }
        ensures spare { room_left self.old.rows ≤ room_left self.new.rows }
    {
        let place = place_in(names, by);
        self.rows[r as usize][place] = answer;
    }

    fn push(&mut self)
        requires { HasRows 1 self.now }
        ensures rows { self.new.rows.items ≡ self.old.rows.items ++ replicate 64 no_answer ∷ [] }
        ensures spare { room_left self.old.rows ≤ room_left self.new.rows + 1 }
    {
        if self.rows.push([Answer::NONE; 64]).is_err() {
            unreachable!();
        }
    }

    /// Makes room for the answers to so many requests more.
    pub fn reserve(&mut self, more: usize) -> Result<(), AllocError>
        ensures ok { OnOk result (HasRows more self.new) }
        ensures spare { room_left self.old.rows ≤ room_left self.new.rows }
        ensures rows { Keeps TellsRows self.old self.new }
        ensures told { (names : List NameView) → Keeps (TellsAnswers names) self.old self.new }
    {
        self.rows.reserve(more)?;
        Ok(())
    }

    /// Takes one more event, which speaks of requests and performers that are there.
    pub fn take(&mut self, names: &[Name], event: &Event)
        requires room { HasRows 1 self.now }
        requires speaks { IsTrue (speaks_of_answers names.now self.now.rows.items event.now) }
        ensures rows { Takes TellsRows event.now self.old self.new }
        ensures told { Takes (TellsAnswers names.now) event.now self.old self.new }
        ensures spare { room_left self.old.rows ≤ room_left self.new.rows + 1 }
    {
        match event {
            Event::Request { r: _, act: _ } => self.push(),
            Event::Offer { r, by } => {
                let mut answer = self.answer(names, *r, *by);
                answer.offered = true;
                self.change(names, *r, *by, answer);
            }
            Event::Pass { r, by, why } => {
                let mut answer = self.answer(names, *r, *by);
                answer.passed = Some(*why);
                self.change(names, *r, *by, answer);
            }
            Event::Reject { r, by } => {
                let mut answer = self.answer(names, *r, *by);
                answer.rejected = true;
                self.change(names, *r, *by, answer);
            }
            _ => {}
        }
    }
}
