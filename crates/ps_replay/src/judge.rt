//! The judge of a journal's entries, one after another.
ghost use Rattle.std.specs.Prelude.{◌≡◌, ◌<◌, List, ◌++◌, [], ◌∷◌, ◌&&◌, ◌↔◌, ◌==◌, IfOk, IsTrue, length, slice_index_or};
ghost use Rattle.ps_machine.specs.declared.inputs.Input.{Input as InputView};
ghost use Rattle.ps_machine.specs.declared.journal.Entry.{Entry as EntryView};
ghost use Rattle.ps_machine.specs.declared.journal.Event.TheVariants.{Cancel};
ghost use Rattle.ps_rules.specs.History.{IsHistory, IsWhole};
ghost use Rattle.ps_rules.specs.Legal.{has_hand, is_legal};
ghost use Rattle.ps_rules.specs.Prefixes.{is_due, same_cancel, same_why};
ghost use Rattle.ps_rules.specs.Sound.{IsSound};
ghost use Rattle.ps_rules.specs.Choices.{Says};
ghost use Rattle.ps_state.specs.State.{Says as SaysOf, Stands};
ghost use Rattle.ps_replay.specs.Judge.{cancelled_act, Comes, ForcedBy, is_over, is_quiet, Reaches, TellsPlan};

use super::queries::{asks_plan, judge_plan_query};
use ps_action::Act;
use ps_legal::{has_hand, is_legal};
use ps_machine::{CancelWhy, Entry, Event, Input};
use ps_plan::Solver;
use ps_state::State;
use ps_world::Seq;
use std::alloc::{AllocError, Global};

/// Judges entry by entry: what those so far have come to.
#[derive(Drop)]
pub struct Judge {
    pub state: State,
    /// The cancels that the last legal event forced.
    pub forced: Vec<Entry>,
    /// How many of them have come.
    pub met: usize,
    /// The plan that answers the last entry, where that is the query for a plan.
    pub plan: Seq<Act>,
}

fn same_why(why: CancelWhy, other: CancelWhy) -> bool
    ensures { result ≡ same_why why other }
{
    match (why, other) {
        (CancelWhy::OverAll, CancelWhy::OverAll) => true,
        (CancelWhy::Stop, CancelWhy::Stop) => true,
        _ => false,
    }
}

/// Whether an event is the cancel of this act for this reason.
fn is_cancel_of(event: &Event, act: u32, why: CancelWhy) -> bool
    ensures { result ≡ same_cancel (Cancel act why) event.now }
{
    match event {
        Event::Cancel {
            act: other,
            why: reason,
        } => {
            let same = same_why(why, *reason);
            act == *other && same
        }
        _ => false,
    }
}

/// Whether an entry is this cancel.
fn is_due(due: &Entry, entry: &Entry) -> bool
    ensures { result ≡ is_due due.now entry.now }
{
    let same = match &due.what {
        Event::Cancel { act, why } => is_cancel_of(&entry.what, *act, *why),
        _ => false,
    };
    due.hand == entry.hand && same
}

/// The act that an event cancels; the first where it cancels none.
fn cancelled_act(event: &Event) -> u32
    ensures { result ≡ cancelled_act event.now }
{
    match event {
        Event::Cancel { act, why: _ } => *act,
        _ => 0,
    }
}

/// Whether an entry that isn't the query for a plan may come next where no cancel is due. If so it is taken.
fn judge_other<S: Solver>(
    alloc: Global,
    solver: &S,
    input: &Input,
    before: &[Entry],
    entry: &Entry,
    state: &mut State,
) -> Result<bool, AllocError>
    requires sound { IsSound input.now }
    requires few { length before.now < 18446744073709551615 }
    requires history { IsHistory input.now before.now }
    requires stands { Stands input.now before.now state.now }
    ensures legal { IfOk result (λ b. b ≡ (is_legal input.now before.now entry.now.what
        && has_hand entry.now.what entry.now.hand)) }
    ensures stands { IfOk result (λ b. IsTrue b
        → Stands input.now (before.now ++ entry.now ∷ []) state.new) }
{
    let fits = has_hand(&entry.what, entry.hand);
    let legal = is_legal(state, alloc, solver, input, &entry.what)?;
    if legal && fits {
        state.make_room(&entry.what)?;
        state.take(alloc, &entry.what)?;
        Ok(true)
    } else {
        Ok(false)
    }
}

/// Whether an entry may come next where no cancel is due. If so it is taken, and where it is the query for a plan, that is kept.
fn judge_any<S: Solver>(
    alloc: Global,
    solver: &S,
    input: &Input,
    before: &[Entry],
    entry: &Entry,
    state: &mut State,
    plan: &mut Seq<Act>,
) -> Result<bool, AllocError>
    requires sound { IsSound input.now }
    requires few { length before.now < 18446744073709551615 }
    requires history { IsHistory input.now before.now }
    requires stands { Stands input.now before.now state.now }
    ensures legal { IfOk result (λ b. b ≡ (is_legal input.now before.now entry.now.what
        && has_hand entry.now.what entry.now.hand)) }
    ensures stands { IfOk result (λ b. IsTrue b
        → Stands input.now (before.now ++ entry.now ∷ []) state.new) }
    ensures told { IfOk result (λ b. IsTrue b
        → TellsPlan (S.says solver.now) input.now before.now entry.now.what plan.new) }
{
    if !asks_plan(&entry.what) {
        return judge_other(alloc, solver, input, before, entry, state);
    }
    match judge_plan_query(alloc, solver, input, before, entry, state)? {
        Some(acts) => {
            *plan = acts;
            Ok(true)
        }
        None => Ok(false),
    }
}

/// Whether an event leaves what is known, the plan and the states of its acts.
fn is_quiet(event: &Event) -> bool
    ensures { result ≡ is_quiet event.now }
{
    match event {
        Event::Edit { by: _, edit: _ } => false,
        Event::Run { kind: _, acts: _ } => false,
        Event::Replan(_) => false,
        Event::Start(_) => false,
        Event::End(_) => false,
        Event::Fail { act: _, why: _ } => false,
        Event::Cancel { act: _, why: _ } => false,
        _ => true,
    }
}

/// The cancels that an entry forces which came after a history.
fn forced_by(alloc: Global, state: &State, entry: &Entry) -> Result<Vec<Entry>, AllocError>
    ensures { IfOk result (λ all. ForcedBy state.now entry.now all.items) }
{
    if is_quiet(&entry.what) {
        return Ok(Vec::new(alloc));
    }
    let forced = state.forced(alloc, entry.hand, &entry.what)?;
    Ok(forced)
}

/// The cancel that is due at this place.
fn due_at(forced: &[Entry], met: usize) -> &Entry
    requires { met < length forced.now }
    ensures { result.now ≡ slice_index_or forced.now met result.now }
{
    &forced[met]
}

/// Whether every line that is due is answered, and no run is open.
fn is_over(state: &State) -> bool
    ensures { SaysOf state.now result is_over }
{
    let answered = state.ledger.lines.answered();
    let running = state.ledger.run.is_running();
    answered == state.due as u64 && !running
}

fn both(one: bool, other: bool) -> bool
    ensures { result ≡ (one && other) }
{
    one && other
}

impl Judge {
    /// The judge before the first entry.
    pub fn new(alloc: Global, input: &Input) -> Result<Judge, AllocError>
        ensures { IfOk result (Reaches input.now []) }
    {
        Ok(Judge {
            state: State::new(alloc, input)?,
            forced: Vec::new(alloc),
            met: 0,
            plan: Seq::new(alloc),
        })
    }

    /// Whether an entry is the cancel that is due. If so it is taken.
    fn meet(&mut self, input: &Input, before: &[Entry], entry: &Entry) -> bool
        requires due { self.now.met < length self.now.forced.items }
        requires reaches { Reaches input.now before.now self.now }
        ensures { (says : Says) → Comes says input.now before.now entry.now self.old result self.new }
    {
        let due = due_at(&self.forced, self.met);
        if !is_due(due, entry) {
            return false;
        }
        self.state.cancel(cancelled_act(&entry.what));
        self.met += 1;
        true
    }

    /// Whether an entry may come next. If so it is taken. The solver is asked at most once.
    pub fn step<S: Solver>(
        &mut self,
        alloc: Global,
        solver: &S,
        input: &Input,
        before: &[Entry],
        entry: &Entry,
    ) -> Result<bool, AllocError>
        requires sound { IsSound input.now }
        requires few { length before.now < 18446744073709551615 }
        requires reaches { Reaches input.now before.now self.now }
        ensures { IfOk result (λ b. Comes (S.says solver.now) input.now before.now entry.now
            self.old b self.new) }
    {
        if self.met < self.forced.len() {
            return Ok(self.meet(input, before, entry));
        }
        let state = &mut self.state;
        let legal = judge_any(alloc, solver, input, before, entry, state, &mut self.plan)?;
        if !legal {
            return Ok(false);
        }
        let forced = forced_by(alloc, &self.state, entry)?;
        self.forced = forced;
        self.met = 0;
        Ok(true)
    }

    /// Whether nothing is due.
    fn is_met(&self) -> bool
        ensures { result ≡ (self.now.met == length self.now.forced.items) }
    {
        self.met == self.forced.len()
    }

    /// Whether nothing is due, every line that is due is answered, and no run is open.
    pub fn is_whole(&self) -> bool
        ensures { (i : InputView) (es : List EntryView) → Reaches i es self.now
            → IsTrue result ↔ IsHistory i es × IsWhole i es }
    {
        let met = self.is_met();
        let over = is_over(&self.state);
        both(met, over)
    }
}
