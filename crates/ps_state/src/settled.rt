//! When a run is settled, and how it ends without the solver.
ghost use Rattle.std.specs.Prelude.{◌≡◌, ◌≤◌, ◌||◌, List, None, length, not};
ghost use Rattle.std.specs.List.{list_all, list_any};
ghost use Rattle.ps_action.specs.declared.states.ActState.{ActState as ActStateView};
ghost use Rattle.ps_machine.specs.declared.journal.Entry.{Entry};
ghost use Rattle.ps_action.specs.Arcs.{is_arc};
ghost use Rattle.ps_rules.specs.Known.{grounds};
ghost use Rattle.ps_rules.specs.Runs.{is_active, is_done, is_harmed, is_waiting, plan, state};
ghost use Rattle.ps_rules.specs.Settled.{any_harmed, is_blocked, is_met, is_reached, is_ready, is_settled, places, unreached, verdict};
ghost use Rattle.ps_ledger.specs.Ledger.{TellsAll};
ghost use Rattle.ps_state.specs.Acts.{any_ready, is_free, is_stuck, lets_go, none_sees, none_startable, sees_nothing};
ghost use Rattle.ps_state.specs.Names.{all_free, none_engaged};
ghost use Rattle.ps_state.specs.State.{Says, SaysFor};

use super::state::State;
use ps_action::ActState;
use ps_eval::holds;
use ps_ledger::Ledger;
use ps_machine::{Input, Member, Outcome, RunKind};

fn is_active(state: ActState) -> bool
    ensures { result ≡ is_active state }
{
    match state {
        ActState::Active => true,
        _ => false,
    }
}

fn is_done(state: ActState) -> bool
    ensures { result ≡ is_done state }
{
    match state {
        ActState::Done => true,
        _ => false,
    }
}

fn is_waiting(state: ActState) -> bool
    ensures { result ≡ is_waiting state }
{
    match state {
        ActState::Waiting => true,
        _ => false,
    }
}

fn is_harmed(state: ActState) -> bool
    ensures { result ≡ is_harmed state }
{
    match state {
        ActState::Failed | ActState::Cancelled => true,
        _ => false,
    }
}

fn any_harmed(states: &[ActState]) -> bool
    ensures { result ≡ list_any is_harmed states.now }
{
    states.iter().any(|state| is_harmed(*state))
}

fn any_active(states: &[ActState]) -> bool
    ensures { result ≡ list_any is_active states.now }
{
    states.iter().any(|state| is_active(*state))
}

fn all_done(states: &[ActState]) -> bool
    ensures { result ≡ list_all is_done states.now }
{
    states.iter().all(|state| is_done(*state))
}

/// Whether no performer of the ledger is engaged.
fn none_engaged(ledger: &Ledger) -> bool
    ensures { (es : List Entry) → TellsAll es ledger.now
        → result ≡ none_engaged es ledger.now.performers.names.items }
{
    for name in &ledger.performers.names {
        if ledger.performers.is_engaged(*name) {
            return false;
        }
    }
    true
}

impl State {
    /// How many acts the plan has.
    pub fn count(&self) -> u32
        ensures few { result ≤ 256 }
        ensures count { Says self.now result (λ i es. length (plan es)) }
    {
        let count = self.ledger.acts.count();
        if count > 256 { 256 } else { count as u32 }
    }

    /// Whether an act of the plan failed or was cancelled.
    pub fn any_harmed(&self) -> bool
        ensures { Says self.now result (λ i es. any_harmed es) }
    {
        any_harmed(&self.ledger.acts.states)
    }

    /// Whether no act of the plan is active.
    fn none_active(&self) -> bool
        ensures { Says self.now result
            (λ i es. list_all (λ act. not (is_active (state act es))) (places es)) }
    {
        !any_active(&self.ledger.acts.states)
    }

    /// Whether no performer is engaged.
    fn all_free(&self) -> bool
        ensures { Says self.now result all_free }
    {
        none_engaged(&self.ledger)
    }

    /// Whether all acts of the plan have ended.
    fn all_done(&self) -> bool
        ensures { Says self.now result
            (λ i es. list_all (λ act. is_done (state act es)) (places es)) }
    {
        all_done(&self.ledger.acts.states)
    }

    /// Whether an arc leads from one act of the plan to another.
    fn has_arc(&self, i: u32, j: u32) -> bool
        ensures { Says self.now result
            (λ input es. is_arc (grounds input.domain (plan es)) i j) }
    {
        self.arcs.has(i, j)
    }

    /// Whether an act lets another one start.
    fn lets_go(&self, j: u32, act: u32) -> bool
        ensures { Says self.now result (λ i es. lets_go i es act j) }
    {
        let tied = self.has_arc(j, act);
        let done = is_done(self.ledger.acts.state(j));
        !tied || done
    }

    /// Whether each act before this one lets it start.
    fn is_free(&self, act: u32) -> bool
        ensures { Says self.now result (λ i es. is_free i es act) }
    {
        for j in 0..act {
            if !self.lets_go(j, act) {
                return false;
            }
        }
        true
    }

    /// Whether an act is ready.
    pub fn is_ready(&self, act: u32) -> bool
        ensures { Says self.now result (λ i es. is_ready i es act) }
    {
        let waiting = is_waiting(self.ledger.acts.state(act));
        let free = self.is_free(act);
        waiting && free
    }

    /// Whether some act of the plan is ready.
    fn any_ready(&self) -> bool
        ensures { Says self.now result any_ready }
    {
        for act in 0..self.count() {
            if self.is_ready(act) {
                return true;
            }
        }
        false
    }

    /// Whether an act isn't ready, or may not start.
    fn is_stuck(&self, act: u32) -> bool
        ensures { Says self.now result (λ i es. is_stuck i es act) }
    {
        let ready = self.is_ready(act);
        let startable = self.is_startable(act);
        !ready || !startable
    }

    /// Whether no act that is ready may start.
    fn none_startable(&self) -> bool
        ensures { Says self.now result none_startable }
    {
        for act in 0..self.count() {
            if !self.is_stuck(act) {
                return false;
            }
        }
        true
    }

    /// Whether a member isn't an observer that can edit.
    fn sees_nothing(&self, member: &Member) -> bool
        ensures { Says self.now result (λ i es. sees_nothing i es member.now) }
    {
        match member {
            Member::Observer(observer) => self.seen_by(observer).is_none(),
            Member::Performer(_) => true,
        }
    }

    /// Whether no observer can edit.
    fn none_sees(&self, input: &Input) -> bool
        ensures { SaysFor input.now self.now result (none_sees input.now) }
    {
        for member in input.members.as_slice() {
            if !self.sees_nothing(member) {
                return false;
            }
        }
        true
    }

    /// Whether the run is blocked.
    pub fn is_blocked(&self, input: &Input) -> bool
        ensures { SaysFor input.now self.now result (is_blocked input.now) }
    {
        let harmed = self.any_harmed();
        let ready = self.any_ready();
        let stuck = self.none_startable();
        let unseen = self.none_sees(input);
        !harmed && (ready && (stuck && unseen))
    }

    /// Whether an act was harmed, as this says, or all have ended, as that says, or the run is blocked, which takes longest to find.
    fn is_at_end(&self, input: &Input, harmed: bool, done: bool) -> bool
        ensures { SaysFor input.now self.now result
            (λ es. harmed || (done || is_blocked input.now es)) }
    {
        if harmed {
            return true;
        }
        if done {
            return true;
        }
        self.is_blocked(input)
    }

    /// Whether the run is settled.
    pub fn is_settled(&self, input: &Input) -> bool
        ensures { SaysFor input.now self.now result (is_settled input.now) }
    {
        let idle = self.none_active();
        let free = self.all_free();
        let harmed = self.any_harmed();
        let done = self.all_done();
        let ended = self.is_at_end(input, harmed, done);
        idle && (free && ended)
    }

    /// Whether the goal holds, where there is one.
    fn is_met(&self) -> bool
        ensures { result ≡ is_met self.now.expert self.now.problem self.now.problem.goal }
    {
        match self.problem.goal() {
            None => false,
            Some(goal) => holds(&self.problem, &self.expert, goal),
        }
    }

    /// Whether a run of this kind has reached its goal.
    fn is_reached(&self, kind: Option<RunKind>) -> bool
        ensures { Says self.now result (λ i es. is_reached i es kind) }
    {
        match kind {
            Some(RunKind::Action) => is_done(self.ledger.acts.state(0)),
            _ => self.is_met(),
        }
    }

    /// How a run for a goal that isn't reached ends without the solver; nothing where the solver is asked.
    fn unreached_goal(&self, input: &Input) -> Option<Outcome>
        ensures { SaysFor input.now self.now result (λ es. unreached input.now es None) }
    {
        let replans = self.ledger.run.replans();
        let blocked = self.is_blocked(input);
        if self.problem.goal().is_none() {
            Some(Outcome::NoGoal)
        } else if input.replans <= replans {
            Some(if blocked {
                Outcome::Blocked
            } else {
                Outcome::Replans
            })
        } else {
            None
        }
    }

    /// How a run of this kind that hasn't reached its goal ends without the solver; nothing where the solver is asked.
    fn unreached(&self, input: &Input, kind: Option<RunKind>) -> Option<Outcome>
        ensures { SaysFor input.now self.now result (λ es. unreached input.now es kind) }
    {
        match kind {
            Some(RunKind::Action) => Some(if self.any_harmed() {
                Outcome::Act
            } else {
                Outcome::Blocked
            }),
            _ => self.unreached_goal(input),
        }
    }

    /// How a settled run ends without the solver; nothing where the solver is asked.
    pub fn verdict(&self, input: &Input) -> Option<Outcome>
        ensures { SaysFor input.now self.now result (verdict input.now) }
    {
        let kind = self.ledger.run.kind();
        if self.is_reached(kind) {
            Some(Outcome::Success)
        } else {
            self.unreached(input, kind)
        }
    }
}
