//! What the entries so far tell of the plan and its acts.
ghost use Rattle.std.specs.Prelude.{◌≡◌, ◌<◌, IsTrue, List, [], count_by, length, None, OnOk, Some, replicate};
ghost use Rattle.ps_action.specs.declared.states.ActState.TheVariants.{Waiting};
ghost use Rattle.ps_machine.specs.declared.journal.Entry.{Entry};
ghost use Rattle.ps_rules.specs.Runs.{is_active, plan, state};
ghost use Rattle.ps_rules.specs.Auctions.{request_of};
ghost use Rattle.ps_ledger.specs.Kept.{Keeps, put, Takes, TakesCancel};
ghost use Rattle.ps_ledger.specs.Acts.{HasActs, IsCancelled, new_acts, speaks_of_acts, TellsActs};

use ps_action::{Act, ActState};
use ps_machine::Event;
use std::alloc::{AllocError, Global};

/// The acts of the plan.
#[derive(Drop)]
pub struct Acts {
    pub plan: Vec<Act>,
    /// For each act its state.
    pub states: Vec<ActState>,
    /// For each act the last request for it.
    pub asked: Vec<Option<u64>>,
}

/// Whether an act in this state is active.
pub fn is_active(state: ActState) -> bool
    ensures { result ≡ is_active state }
{
    match state {
        ActState::Active => true,
        _ => false,
    }
}

impl Acts {
    /// What an empty journal tells.
    pub fn new(alloc: Global) -> Acts
        ensures { TellsActs [] result }
    {
        Acts {
            plan: Vec::new(alloc),
            states: Vec::new(alloc),
            asked: Vec::new(alloc),
        }
    }

    /// The acts of the plan, in order.
    pub fn plan(&self) -> &[Act]
        ensures { (es : List Entry) → TellsActs es self.now → result.now ≡ plan es }
    {
        &self.plan
    }

    /// How many acts the plan has.
    pub fn count(&self) -> usize
        ensures { (es : List Entry) → TellsActs es self.now → result ≡ length (plan es) }
    {
        self.plan.len()
    }

    /// The state of an act of the plan.
    pub fn state(&self, act: u32) -> ActState
        ensures { (es : List Entry) → TellsActs es self.now → result ≡ state act es }
    {
        match self.states.get(act as usize) {
            Some(state) => *state,
            None => ActState::Waiting,
        }
    }

    /// Whether an act is active.
    pub fn is_active(&self, act: u32) -> bool
        ensures { (es : List Entry) → TellsActs es self.now → result ≡ is_active (state act es) }
    {
        match self.states.get(act as usize) {
            Some(ActState::Active) => true,
            _ => false,
        }
    }

    /// How many acts are active.
    pub fn count_active(&self) -> usize
        ensures { result ≡ count_by is_active self.now.states.items }
    {
        self.states
            .iter()
            .filter(|state| is_active(**state))
            .count()
    }

    /// The last request for an act of the plan.
    pub fn request_of(&self, act: u32) -> Option<u64>
        ensures { (es : List Entry) → TellsActs es self.now → result ≡ request_of act es }
    {
        match self.asked.get(act as usize) {
            Some(request) => *request,
            None => None,
        }
    }

    fn set(&mut self, act: u32, state: ActState)
        requires { act < length self.now.states.items }
        ensures states { self.new.states.items ≡ put self.old.states.items act state }
        ensures plan { self.new.plan.items ≡ self.old.plan.items }
        ensures asked { self.new.asked.items ≡ self.old.asked.items }
    {
        self.states[act as usize] = state;
    }

    fn ask(&mut self, r: u64, act: u32)
        requires { act < length self.now.asked.items }
        ensures asked { self.new.asked.items ≡ put self.old.asked.items act (Some r) }
        ensures plan { self.new.plan.items ≡ self.old.plan.items }
        ensures states { self.new.states.items ≡ self.old.states.items }
    {
        self.asked[act as usize] = Some(r);
    }

    fn begin(&mut self, acts: &[Act])
        requires { HasActs (length acts.now) self.now }
        ensures plan { self.new.plan.items ≡ acts.now }
        ensures states { self.new.states.items ≡ replicate (length acts.now) Waiting }
        ensures asked { self.new.asked.items ≡ replicate (length acts.now) None }
    {
        self.plan.clear();
        if self.plan.extend_from_slice(acts).is_err() {
            unreachable!();
        }
        self.states.clear();
        if self.states.resize(acts.len(), ActState::Waiting).is_err() {
            unreachable!();
        }
        self.asked.clear();
        if self.asked.resize(acts.len(), None).is_err() {
            unreachable!();
        }
    }

    /// Makes room for a plan of so many acts.
    pub fn make_room(&mut self, count: usize) -> Result<(), AllocError>
        ensures ok { OnOk result (HasActs count self.new) }
        ensures told { Keeps TellsActs self.old self.new }
    {
        self.plan.reserve(count)?;
        self.states.reserve(count)?;
        self.asked.reserve(count)?;
        Ok(())
    }

    /// Takes one more event, which speaks of acts that are there.
    pub fn take(&mut self, event: &Event)
        requires room { HasActs (new_acts event.now) self.now }
        requires states { IsTrue (speaks_of_acts (length self.now.states.items) event.now) }
        requires asked { IsTrue (speaks_of_acts (length self.now.asked.items) event.now) }
        ensures { Takes TellsActs event.now self.old self.new }
    {
        match event {
            Event::Run { kind: _, acts } => self.begin(acts.as_slice()),
            Event::Replan(acts) => self.begin(acts.as_slice()),
            Event::Start(act) => self.set(*act, ActState::Active),
            Event::Request { r, act } => self.ask(*r, *act),
            Event::End(act) => self.set(*act, ActState::Done),
            Event::Fail { act, why: _ } => self.set(*act, ActState::Failed),
            Event::Cancel { act, why: _ } => self.set(*act, ActState::Cancelled),
            _ => {}
        }
    }

    /// Takes the cancel of an act.
    pub fn cancel(&mut self, act: u32)
        requires { act < length self.now.states.items }
        ensures told { TakesCancel TellsActs act self.old self.new }
        ensures states { IsCancelled act self.old self.new }
    {
        self.set(act, ActState::Cancelled);
    }
}
