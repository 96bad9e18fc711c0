//! The board.
ghost use Rattle.std.specs.Prelude.{◌≡◌, ◌<◌, ◌≤◌, ◌||◌, ◌&&◌, nat_le, if◌then◌else◌, IsTrue, IsOk, IfErr, IfOk, OnOk, OnErr, None, Some, is_none, is_some, true, false, [], length, map, max, slice_get, slice_index_or, slice_set, take};
ghost use Rattle.std.specs.Bool.{Decides};
ghost use Rattle.std.specs.Option.{option_copied};
ghost use Rattle.ps_board.specs.declared.ticks.Ticked.TheVariants.{Nothing as Idle};
ghost use Rattle.ps_board.specs.declared.works.Grant.{Grant as GrantView};
ghost use Rattle.ps_board.specs.declared.works.Turn.TheVariants.{Did, Nothing, Work as Handed};
ghost use Rattle.ps_board.specs.Board.{answer_of, Appended, commanded, GoesOn, grants_after, grants_without, is_end, is_free, IsAtRest, IsOut, IsReserved, IsStep, nothing_done, observing, performing, performing_answer, recording, shown_tree, still_halted, tick_answer, ticking};
ghost use Rattle.ps_board.specs.Grants.{AreOut, granted, granted_after, performer_names};
ghost use Rattle.ps_progress_laws.specs.Working.{recorded};
ghost use Rattle.ps_action.specs.Search.{Fits};
ghost use Rattle.ps_stale_plan_laws.specs.Asked.{WasAsked};
ghost use Rattle.ps_board.specs.Submits.{IsSubmitted, NoEditFrom, taken_event};
ghost use Rattle.ps_rules.specs.Choices.{planned};
ghost use Rattle.ps_rules.specs.Members.{observers, performers};
ghost use Rattle.ps_rules.specs.History.{IsHistory};
ghost use Rattle.ps_rules.specs.Known.{know};
ghost use Rattle.ps_rules.specs.Lines.{next_line};
ghost use Rattle.ps_rules.specs.Runs.{has_run, is_running};
ghost use Rattle.ps_ledger.specs.Ends.{last_outcome};
ghost use Rattle.ps_ledger.specs.Members.{place_in};
ghost use Rattle.ps_rules.specs.Sound.{IsSound};

use super::submits::Submitted;
use super::ticks::{Snapshot, Ticked, closed_answer};
use super::turns::Step;
use super::whole::Parts;
use super::works::{Grant, Turn};
use ps_action::Answer;
use ps_actors::heard_upto;
use ps_domain::Expert;
use ps_ledger::place_in;
use ps_legal::same_unit;
use ps_machine::{Entry, Grows, Input, Unit};
use ps_monitor::Monitor;
use ps_plan::Solver;
use ps_problem::Problem;
use ps_state::State;
use ps_tree::Tree;
use ps_world::{Name, Seq};
use std::alloc::{AllocError, Global};
use std::marker::Model;

/// What contracts see of a board.
#[derive(Drop)]
pub struct Shown {
    pub input: Input,
    /// The journal.
    pub entries: Seq<Entry>,
    /// For each performer, in the order of the members, the request of its grant that is out, if one is.
    pub grants: Seq<Option<u64>>,
    /// Whether the open run was halted.
    pub halted: bool,
    /// For how many entries more memory is kept.
    pub spare: u64,
}

fn told(did: bool) -> Turn
    ensures { result ≡ (if did then Did else Nothing) }
{
    if did { Turn::Did } else { Turn::Nothing }
}

/// The number at a place, or 0 where there is none.
fn number_at(numbers: &[u64], place: usize) -> u64
    ensures { result ≡ slice_index_or numbers.now place 0 }
{
    match numbers.get(place) {
        Some(number) => *number,
        None => 0,
    }
}

/// Notes the grant that a turn of the performer with this number hands out, if it hands one out.
fn note_grant(grants: &mut Vec<Option<u64>>, p: usize, turn: &Turn)
    requires { p < length grants.old.items }
    ensures { grants.new.items ≡ granted_after grants.old.items p turn.now }
{
    match turn {
        Turn::Work(grant) => grants[p] = Some(grant.r),
        Turn::Did | Turn::Nothing => {}
    }
}

/// Whether this is the request that is given, if one is.
fn is_request(given: Option<u64>, r: u64) -> bool
    ensures { Decides result (given ≡ Some r) }
{
    match given {
        Some(request) => request == r,
        None => false,
    }
}

/// Whether this is the unit that is given, if one is.
fn is_unit(given: Option<&Unit>, unit: &Unit) -> bool
    ensures { Decides result (option_copied given.entry ≡ Some unit.now) }
{
    match given {
        Some(other) => same_unit(other, unit),
        None => false,
    }
}

/// A grant that couldn't be handed in: memory ran out. Its performer still has it.
#[derive(Drop)]
pub struct GrantBack {
    pub grant: Grant,
}

/// The planning machine of one thread.
#[derive(Drop)]
pub struct Board {
    alloc: Global,
    /// In one box, so that whoever hands a board on moves a few words.
    parts: Box<Parts>,
    /// For each performer the request of its grant that is out.
    grants: Vec<Option<u64>>,
    /// For each performer a number below which it has answered all requests of the last run.
    heard: Vec<u64>,
    halted: bool,
}

impl Model for Board {
    ghost use Rattle.ps_board.specs.declared.board.Shown.{Shown};
    ghost use Rattle.ps_board.specs.contracts.board.Shown.{the_row};
    ghost use Rattle.ps_board.specs.Kept.{IsKept};

    ghost Value = { Shown };

    ghost coded = { the_row.coded };

    ghost view = { λ b. record { input = b.parts.value.input; entries = b.parts.value.entries.items; grants = b.grants.items; halted = b.halted; spare = b.parts.value.spare } };

    ghost invariant = { λ b. IsKept b.parts.value b.grants.items b.heard.items b.halted };
}

impl Grows for Board {
    ghost history = { λ b. b.entries };

    ghost input = { λ b. b.input };
}

impl Board {
    /// The board of this input, whose journal is empty. The only error is that memory ran out.
    pub fn open(alloc: Global, input: Input) -> Result<Board, AllocError>
        requires { IsSound input }
        ensures { IfOk result (λ b. b ≡ nothing_done input) }
    {
        let state = State::new(alloc, &input)?;
        let performers = state.ledger.performers.names.len();
        let mut parts = Parts {
            input,
            entries: Vec::new(alloc),
            state,
            monitor: Monitor::new(alloc),
            spare: 0,
        };
        parts.show();
        let parts = Box::new(alloc, parts)?;
        let grants = vec![in alloc; None; performers]?;
        let heard = vec![in alloc; 0; performers]?;
        Ok(Board {
            alloc,
            parts,
            grants,
            heard,
            halted: false,
        })
    }

    /// What is known.
    pub fn problem(&self) -> &Problem
        ensures { result.now ≡ know self.now.input self.now.entries }
    {
        &self.parts.state.problem
    }

    /// The domain.
    pub fn expert(&self) -> &Expert
        ensures { result.now ≡ self.now.input.domain }
    {
        &self.parts.state.expert
    }

    /// The journal, which is a history of the input.
    pub fn entries(&self) -> &[Entry]
        ensures entries { result.now ≡ self.now.entries }
        ensures history { IsHistory self.now.input self.now.entries }
    {
        &self.parts.entries
    }

    /// The input, which is sound.
    pub fn input(&self) -> &Input
        ensures input { result.now ≡ self.now.input }
        ensures sound { IsSound self.now.input }
    {
        &self.parts.input
    }

    /// Whether a run is open. Where none is, the board is at rest: it isn't halted, and no grant is out.
    pub fn is_running(&self) -> bool
        ensures running { result ≡ is_running self.now.entries }
        ensures rest { is_running self.now.entries ≡ false → IsAtRest self.now }
    {
        self.parts.state.ledger.run.is_running()
    }

    /// Marks the open run as halted: from then on neither the ticker nor a member's turn does anything until the run has ended; a unit
    /// of work that is out may still be handed in. Changes nothing where no run is open.
    pub fn halt(&mut self)
        ensures { self.new
            ≡ record self.old { halted = is_running self.old.entries || self.old.halted } }
    {
        if self.is_running() {
            self.halted = true;
        }
    }

    /// Keeps memory for at least so many entries more. Each block lowers what is spare by its number of entries, as long as there is
    /// some, and a call that appends nothing leaves it. An event other than an edit, its refusal, a question, a start, an end, a
    /// feedback, a run and a new plan, whose block has at most as many entries as are spare, takes no memory; where an edit was recorded
    /// since a solver was asked, its answer may take some before it ends the run. The only error is that memory ran out, also where no
    /// memory has place for so many, and then nothing changes.
    pub fn reserve(&mut self, n: u64) -> Result<(), AllocError>
        ensures ok { OnOk result (self.new ≡ record self.old { spare = max self.old.spare n }) }
        ensures err { OnErr result (self.new ≡ self.old) }
    {
        let parts = &mut *self.parts;
        parts.reserve(n as usize)
    }

    /// For how many entries more memory is kept.
    pub fn spare(&self) -> u64
        ensures { result ≡ self.now.spare }
    {
        self.parts.spare as u64
    }

    /// Does the next line of the terminal's script, where one is left and none before it was `quit`. A run for the goal has the plan
    /// that the solver answers, and a query for a plan is answered by it: the solver is asked at most once. The only error is that
    /// memory ran out, and then nothing changes.
    pub fn command<S: Solver>(&mut self, solver: &S) -> Result<Step, AllocError>
        requires closed { is_running self.now.entries ≡ false }
        ensures answer { IfOk result
            (IsStep (S.says solver.now) self.old.input self.old.entries) }
        ensures end { IfOk result
            (λ s. is_end s ≡ is_none (next_line self.old.input self.old.entries)) }
        ensures did { OnOk result
            (Appended 0 (commanded (S.says solver.now) self.old) self.old self.new) }
        ensures reserved { IsReserved self.old 0 (commanded (S.says solver.now) self.old)
            → IsOk result }
        ensures err { OnErr result (self.new ≡ self.old) }
    {
        let parts = &mut *self.parts;
        let result = parts.command(self.alloc, solver);
        parts.show();
        result
    }

    /// Does the turn of the ticker in the open run: appends the block of the first legal one of the events that it chooses among. The
    /// only error is that memory ran out, and then nothing changes.
    pub fn tick(&mut self, hand: u8) -> Result<Ticked, AllocError>
        requires hand { IsTrue (nat_le 1 hand && nat_le hand 16) }
        requires opened { has_run self.now.entries ≡ true }
        ensures answer { IfOk result (λ t. t ≡ tick_answer self.old) }
        ensures ended { is_running self.old.entries ≡ false
            → is_some (last_outcome self.old.entries) ≡ true }
        ensures nobody_stuck { IfOk result (λ t. t ≡ Idle → GoesOn self.old) }
        ensures did { OnOk result (Appended hand (ticking self.old) self.old self.new) }
        ensures reserved { IsReserved self.old hand (ticking self.old) → IsOk result }
        ensures err { OnErr result (self.new ≡ self.old) }
    {
        if !self.is_running() {
            Ok(closed_answer(self.parts.state.ledger.ends.last()))
        } else if self.halted {
            Ok(Ticked::Halted)
        } else {
            let parts = &mut *self.parts;
            let result = parts.tick(self.alloc, hand);
            parts.show();
            result
        }
    }

    /// Does the turn of an observer, by its number in the order of the members: makes and records its next edit, where the edit's
    /// condition holds; does nothing where no run is open or the board is halted. The only error is that memory ran out, and then
    /// nothing changes.
    pub fn observer_turn(&mut self, hand: u8, o: u32) -> Result<Turn, AllocError>
        requires hand { IsTrue (nat_le 1 hand && nat_le hand 16) }
        requires there { o < length (observers self.now.input) }
        ensures answer { IfOk result (λ t. t ≡ answer_of (observing self.old o)) }
        ensures did { OnOk result (Appended hand (observing self.old o) self.old self.new) }
        ensures err { OnErr result (self.new ≡ self.old) }
    {
        if self.is_running() && !self.halted {
            let name = self.observer_name(o as usize);
            let parts = &mut *self.parts;
            let result = parts.observe(self.alloc, hand, name);
            parts.show();
            Ok(told(result?))
        } else {
            Ok(Turn::Nothing)
        }
    }

    /// The tree of the plan with the states of its acts, if a run was opened.
    pub fn tree(&self) -> Option<&Tree>
        ensures { option_copied result ≡ shown_tree self.now }
    {
        if self.parts.state.ledger.run.has_run() {
            Some(&self.parts.state.tree)
        } else {
            None
        }
    }

    /// For each performer, in the order of the members, the request of its grant that is out, if one is. Each works on that request.
    pub fn grants(&self) -> &[Option<u64>]
        ensures grants { result.now ≡ self.now.grants }
        ensures out { AreOut self.now.input self.now.entries self.now.grants }
    {
        &self.grants
    }

    /// Does the turn of a performer, by its number in the order of the members: the first of these that applies. It answers the first
    /// request of the run that it hasn't answered, it stops the work on a cancelled act, it begins, or it is handed its next unit of
    /// work. It does nothing where no run is open, the board is halted or its grant is out. The only error is that memory ran out, and
    /// then nothing changes.
    pub fn performer_turn(&mut self, hand: u8, p: u32) -> Result<Turn, AllocError>
        requires hand { IsTrue (nat_le 1 hand && nat_le hand 16) }
        requires there { p < length (performers self.now.input) }
        ensures answer { IfOk result (λ t. t ≡ performing_answer self.old p) }
        ensures did { OnOk result (Appended hand (performing self.old p)
            (record self.old { grants = grants_after self.old p }) self.new) }
        ensures out { IfOk result (λ t. (g : GrantView) → t ≡ Handed g → IsOut self.new g) }
        ensures reserved { IsReserved self.old hand (performing self.old p) → IsOk result }
        ensures err { OnErr result (self.new ≡ self.old) }
    {
        if self.is_free(p as usize) {
            self.perform(hand, p as usize)
        } else {
            Ok(Turn::Nothing)
        }
    }

    /// Takes in a grant and records its unit, or, where the act was cancelled meanwhile, that its performer stopped. A grant that isn't
    /// out is dropped. The only error is that memory ran out: it hands the grant back, and nothing changes.
    pub fn after_unit(&mut self, hand: u8, grant: Grant) -> Result<(), GrantBack>
        requires hand { IsTrue (nat_le 1 hand && nat_le hand 16) }
        ensures did { OnOk result (IsOut self.old grant → Appended hand (recording self.old grant)
            (record self.old { grants = grants_without self.old grant }) self.new) }
        ensures dropped { (IsOut self.old grant → ⊥) → OnOk result (self.new ≡ self.old) }
        ensures reserved { IsReserved self.old hand (recording self.old grant) → IsOk result }
        ensures err { OnErr result (self.new ≡ self.old) }
        ensures back { IfErr result (λ b. b.grant ≡ grant) }
    {
        if !self.is_out(&grant) {
            return Ok(());
        }
        match self.take_in(hand, grant.r, grant.by) {
            Ok(()) => Ok(()),
            Err(AllocError) => Err(GrantBack { grant }),
        }
    }

    /// Takes in the answer of a solver that was asked with this snapshot, which a tick handed out: appends the block of what follows
    /// it, if no entry since then counts, that is, changed what is known, planned anew or ended the run. An end of the run takes the
    /// mark of a halted one away. The only error is that memory ran out, and then nothing changes.
    pub fn submit(
        &mut self,
        hand: u8,
        snapshot: Snapshot,
        answer: Answer,
    ) -> Result<Submitted, AllocError>
        requires hand { IsTrue (nat_le 1 hand && nat_le hand 16) }
        requires asked { WasAsked self.now.input self.now.entries snapshot.at }
        requires known { snapshot.problem ≡ know self.now.input (take snapshot.at self.now.entries) }
        requires fits { Fits self.now.input.domain snapshot.problem self.now.input.budget answer }
        ensures answer { IfOk result (IsSubmitted self.old.input self.old.entries snapshot.at) }
        ensures did { IfOk result (λ s. Appended hand (taken_event s answer)
            (record self.old { halted = still_halted self.old hand (taken_event s answer) })
            self.new) }
        ensures reserved { NoEditFrom self.old.entries snapshot.at
            → IsReserved self.old hand (planned answer) → IsOk result }
        ensures err { OnErr result (self.new ≡ self.old) }
    {
        let parts = &mut *self.parts;
        let result = parts.submit(self.alloc, hand, snapshot, answer);
        parts.show();
        let running = parts.state.ledger.run.is_running();
        self.halted &= running;
        result
    }

    /// Whether a performer may do something.
    fn is_free(&self, p: usize) -> bool
        ensures { result ≡ is_free self.now p }
    {
        let out = self.grant_of(p).is_some();
        self.is_running() && (!self.halted && !out)
    }

    /// The request of the grant of a performer that is out, if one is.
    fn grant_of(&self, p: usize) -> Option<u64>
        ensures { result ≡ granted self.now.grants p }
    {
        match self.grants.get(p) {
            Some(grant) => *grant,
            None => None,
        }
    }

    /// The number of the performer of this name.
    fn number_of(&self, name: Name) -> usize
        ensures { result ≡ place_in (performer_names self.now.input) name }
    {
        place_in(&self.parts.state.ledger.performers.names, name)
    }

    /// The name of the performer with this number.
    fn performer_name(&self, p: usize) -> Name
        requires { p < length (performers self.now.input) }
        ensures { slice_get (performer_names self.now.input) p ≡ Some result }
    {
        self.parts.state.ledger.performers.names[p]
    }

    /// The name of the observer with this number.
    fn observer_name(&self, o: usize) -> Name
        requires { o < length (observers self.now.input) }
        ensures { slice_get (map (λ w. w.name) (observers self.now.input)) o ≡ Some result }
    {
        self.parts.state.ledger.observers.names[o]
    }

    /// Does the turn of a performer that may do something.
    fn perform(&mut self, hand: u8, p: usize) -> Result<Turn, AllocError>
        requires hand { IsTrue (nat_le 1 hand && nat_le hand 16) }
        requires there { p < length (performers self.now.input) }
        requires free { is_free self.now p ≡ true }
        ensures answer { IfOk result (λ t. t ≡ performing_answer self.old p) }
        ensures did { OnOk result (Appended hand (performing self.old p)
            (record self.old { grants = grants_after self.old p }) self.new) }
        ensures out { IfOk result (λ t. (g : GrantView) → t ≡ Handed g → IsOut self.new g) }
        ensures reserved { IsReserved self.old hand (performing self.old p) → IsOk result }
        ensures err { OnErr result (self.new ≡ self.old) }
    {
        let name = self.performer_name(p);
        let parts = &mut *self.parts;
        let upto = heard_upto(&parts.state, name, number_at(&self.heard, p));
        self.heard[p] = upto;
        let result = parts.perform(self.alloc, hand, name, upto);
        parts.show();
        let turn = result?;
        note_grant(&mut self.grants, p, &turn);
        Ok(turn)
    }

    /// Whether this grant is out.
    fn is_out(&self, grant: &Grant) -> bool
        ensures { Decides result (IsOut self.now grant.now) }
    {
        let request = self.grant_of(self.number_of(grant.by));
        let unit = self.parts.unit_due(grant.r, grant.by);
        is_request(request, grant.r) && is_unit(unit, grant.unit.get())
    }

    /// Records what the performer of a grant that is out does, and takes the grant in.
    fn take_in(&mut self, hand: u8, r: u64, by: Name) -> Result<(), AllocError>
        requires hand { IsTrue (nat_le 1 hand && nat_le hand 16) }
        requires out { granted self.now.grants (place_in (performer_names self.now.input) by) ≡ Some r }
        ensures did { OnOk result
            (Appended hand (recorded self.old.input self.old.entries r by)
            (record self.old {
              grants = slice_set self.old.grants
                  (place_in (performer_names self.old.input) by) None;
            }) self.new) }
        ensures reserved { IsReserved self.old hand
            (recorded self.old.input self.old.entries r by) → IsOk result }
        ensures err { OnErr result (self.new ≡ self.old) }
    {
        let place = self.number_of(by);
        let parts = &mut *self.parts;
        let result = parts.record_work(self.alloc, hand, r, by);
        parts.show();
        result?;
        self.grants[place] = None;
        Ok(())
    }
}
