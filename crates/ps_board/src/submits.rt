//! What comes of the answer of a solver that was asked.
ghost use Rattle.std.specs.Prelude.{◌≡◌, ◌≢◌, ◌≤◌, ◌<◌, ◌+◌, ◌&&◌, nat_le, true, IsOk, IsTrue, IfOk, IfSome, length, Ok, OnErr, OnOk, Some, take};
ghost use Rattle.std.specs.Bool.{Decides};
ghost use Rattle.std.specs.Option.{option_copied};
ghost use Rattle.ps_world.specs.Knowledge.{edited};
ghost use Rattle.ps_action.specs.Search.{Fits};
ghost use Rattle.ps_rules.specs.Choices.{planned, wants_plan};
ghost use Rattle.ps_rules.specs.Known.{know};
ghost use Rattle.ps_stale_plan_laws.specs.Asked.{Counts, ends_plan, WasAsked};
ghost use Rattle.ps_board.specs.Parts.{BoardStands, Covers, Gains, GainsNothing, MayCome};
ghost use Rattle.ps_board.specs.Submits.{edit_in, IsFirstFrom, IsSubmitted, MayComeAt, NoEditFrom, taken_event};

use super::ticks::Snapshot;
use super::whole::Parts;
use ps_action::Answer;
use ps_domain::Expert;
use ps_machine::{Event, Outcome};
use ps_problem::Problem;
use ps_world::{Edit, Failure};
use std::alloc::{AllocError, Global};

/// What came of the answer of a solver.
#[derive(Clone, Copy)]
pub enum Submitted {
    /// It was taken: the block of the event that follows it was appended.
    Taken,
    /// It came too late, and nothing was appended: the entry at this place is the first since the solver was asked that counts.
    Stale { at: u64 },
}

/// The event that follows an answer: the run goes on with its plan, or ends.
fn event_of(answer: Answer) -> Event
    ensures { planned answer ≡ Some result }
{
    match answer {
        Answer::Plan(acts) => Event::Replan(acts),
        Answer::NoPlan => Event::Over(Outcome::NoPlan),
        Answer::Spent { depth } => Event::Over(Outcome::Spent(depth)),
        Answer::TooMany => Event::Over(Outcome::TooMany),
    }
}

/// Whether an event ends the plan.
fn ends_plan(event: &Event) -> bool
    ensures { result ≡ ends_plan event.now }
{
    match event {
        Event::Replan(_) => true,
        Event::Over(_) => true,
        _ => false,
    }
}

/// The edit that an event records, if it records one.
fn edit_in(event: &Event) -> Option<&Edit>
    ensures { option_copied result ≡ edit_in event.now }
{
    match event {
        Event::Edit { by: _, edit } => Some(edit),
        _ => None,
    }
}

/// Makes an edit that is accepted. Answers whether it changed what is known. The only error is that memory ran out.
fn make(expert: &Expert, problem: &mut Problem, edit: &Edit) -> Result<bool, AllocError>
    requires { IsOk (edited expert.now problem.old edit.now) }
    ensures made { OnOk result (edited expert.now problem.old edit.now ≡ Ok problem.new) }
    ensures changed { IfOk result (λ b. Decides b (problem.new ≢ problem.old)) }
{
    match problem.edit(expert, edit) {
        Ok(changed) => Ok(changed),
        Err(Failure::Refused(_)) => unreachable!(),
        Err(Failure::OutOfMemory) => Err(AllocError),
    }
}

impl Parts {
    /// Whether the entry at this place counts for who asked the solver before it, where this was known there. Then it is what was
    /// known after that entry. The only error is that memory ran out.
    fn counts(&self, problem: &mut Problem, k: usize) -> Result<bool, AllocError>
        requires stands { BoardStands self.now }
        requires there { k < length self.now.entries.items }
        requires may { MayComeAt self.now.entries.items k }
        requires known { problem.old ≡ know self.now.input (take k self.now.entries.items) }
        ensures counts { IfOk result
            (λ b. Decides b (Counts self.now.input self.now.entries.items k)) }
        ensures known { OnOk result
            (problem.new ≡ know self.now.input (take (k + 1) self.now.entries.items)) }
        ensures reserved { NoEditFrom self.now.entries.items k → IsOk result }
    {
        let what = &self.entries[k].what;
        match edit_in(what) {
            Some(edit) => make(&self.state.expert, problem, edit),
            None => Ok(ends_plan(what)),
        }
    }

    /// The first entry from this place on that counts, if one does, where the solver was asked and this was known. The only error is
    /// that memory ran out.
    fn first_to_count(&self, at: u64, problem: &mut Problem) -> Result<Option<u64>, AllocError>
        requires stands { BoardStands self.now }
        requires asked { WasAsked self.now.input self.now.entries.items at }
        requires known { problem.old ≡ know self.now.input (take at self.now.entries.items) }
        ensures first { IfOk result (IsFirstFrom self.now.input self.now.entries.items at) }
        ensures reserved { NoEditFrom self.now.entries.items at → IsOk result }
    {
        for k in at as usize..self.entries.len() {
            if self.counts(problem, k)? {
                return Ok(Some(k as u64));
            }
        }
        Ok(None)
    }

    /// The first entry since a snapshot that counts, if one does. The only error is that memory ran out.
    fn first_since(&self, snapshot: Snapshot) -> Result<Option<u64>, AllocError>
        requires stands { BoardStands self.now }
        requires asked { WasAsked self.now.input self.now.entries.items snapshot.at }
        requires known { snapshot.problem
            ≡ know self.now.input (take snapshot.at self.now.entries.items) }
        ensures first { IfOk result
            (IsFirstFrom self.now.input self.now.entries.items snapshot.at) }
        ensures reserved { NoEditFrom self.now.entries.items snapshot.at → IsOk result }
    {
        let Snapshot { at, problem } = snapshot;
        let mut problem = problem.into_inner();
        self.first_to_count(at, &mut problem)
    }

    /// Appends the block of the event that follows an answer to what is known now. The only error is that memory ran out, and then no
    /// entry is appended.
    fn follow(&mut self, alloc: Global, hand: u8, answer: Answer) -> Result<(), AllocError>
        requires stands { BoardStands self.now }
        requires asked { wants_plan self.now.input self.now.entries.items ≡ true }
        requires fits { Fits self.now.input.domain
            (know self.now.input self.now.entries.items) self.now.input.budget answer }
        requires hand { IsTrue (nat_le 1 hand && nat_le hand 16) }
        ensures stands { BoardStands self.new }
        ensures did { OnOk result (Gains hand (planned answer) self.old self.new) }
        ensures legal { IfSome (planned answer) (MayCome self.old) }
        ensures err { OnErr result (GainsNothing self.old self.new) }
        ensures reserved { Covers self.old hand (planned answer) → IsOk result }
    {
        let event = event_of(answer);
        self.put(alloc, hand, event)
    }

    /// Takes in the answer of a solver that was asked with this snapshot, if no entry since counts. The only error is that memory ran
    /// out, and then no entry is appended.
    pub fn submit(
        &mut self,
        alloc: Global,
        hand: u8,
        snapshot: Snapshot,
        answer: Answer,
    ) -> Result<Submitted, AllocError>
        requires stands { BoardStands self.now }
        requires hand { IsTrue (nat_le 1 hand && nat_le hand 16) }
        requires asked { WasAsked self.now.input self.now.entries.items snapshot.at }
        requires known { snapshot.problem
            ≡ know self.now.input (take snapshot.at self.now.entries.items) }
        requires fits { Fits self.now.input.domain snapshot.problem self.now.input.budget answer }
        ensures stands { BoardStands self.new }
        ensures answer { IfOk result
            (IsSubmitted self.old.input self.old.entries.items snapshot.at) }
        ensures did { IfOk result (λ s. Gains hand (taken_event s answer) self.old self.new) }
        ensures legal { IfOk result (λ s. IfSome (taken_event s answer) (MayCome self.old)) }
        ensures err { OnErr result (GainsNothing self.old self.new) }
        ensures reserved { NoEditFrom self.old.entries.items snapshot.at
            → Covers self.old hand (planned answer) → IsOk result }
    {
        match self.first_since(snapshot)? {
            Some(at) => Ok(Submitted::Stale { at }),
            None => {
                self.follow(alloc, hand, answer)?;
                Ok(Submitted::Taken)
            }
        }
    }
}
