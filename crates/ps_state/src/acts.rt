//! The acts of the plan: which may start, go on and end.
ghost use Rattle.std.specs.Prelude.{◌≡◌};
ghost use Rattle.ps_machine.specs.declared.journal.Event.TheVariants.{End, Fail, Start};
ghost use Rattle.ps_rules.specs.Legal.{is_finished, row_allows};
ghost use Rattle.ps_rules.specs.Settled.{ends_well, is_startable, may_end, may_go_on, may_start, starts_well};
ghost use Rattle.ps_state.specs.Acts.{nobody_serves};
ghost use Rattle.ps_state.specs.State.{Says};

use super::state::State;
use super::work::same_flag;
use ps_eval::{defined, holds_all};
use ps_machine::FailWhy;

impl State {
    /// Whether the start condition of an act holds.
    pub fn may_start(&self, act: u32) -> bool
        ensures { Says self.now result (λ i es. may_start i es act) }
    {
        match self.grounds.get(act as usize) {
            Some(ground) => { holds_all(&self.problem, &self.expert, &ground.conditions.at_start) }
            None => true,
        }
    }

    /// Whether the over-all condition of an act holds.
    pub fn may_go_on(&self, act: u32) -> bool
        ensures { Says self.now result (λ i es. may_go_on i es act) }
    {
        match self.grounds.get(act as usize) {
            Some(ground) => { holds_all(&self.problem, &self.expert, &ground.conditions.over_all) }
            None => true,
        }
    }

    /// Whether the end condition of an act holds.
    pub fn may_end(&self, act: u32) -> bool
        ensures { Says self.now result (λ i es. may_end i es act) }
    {
        match self.grounds.get(act as usize) {
            Some(ground) => { holds_all(&self.problem, &self.expert, &ground.conditions.at_end) }
            None => true,
        }
    }

    /// Whether the start effects of an act are defined.
    pub fn starts_well(&self, act: u32) -> bool
        ensures { Says self.now result (λ i es. starts_well i es act) }
    {
        match self.grounds.get(act as usize) {
            Some(ground) => {
                let effects = ground.effects.at_start.as_slice();
                defined(&self.problem, &self.expert, effects)
            }
            None => true,
        }
    }

    /// Whether the end effects of an act are defined.
    pub fn ends_well(&self, act: u32) -> bool
        ensures { Says self.now result (λ i es. ends_well i es act) }
    {
        match self.grounds.get(act as usize) {
            Some(ground) => {
                let effects = ground.effects.at_end.as_slice();
                defined(&self.problem, &self.expert, effects)
            }
            None => true,
        }
    }

    /// Whether an act is startable.
    pub fn is_startable(&self, act: u32) -> bool
        ensures { Says self.now result (λ i es. is_startable i es act) }
    {
        let may = self.may_start(act);
        let well = self.starts_well(act);
        may && well
    }

    /// Whether an act may start.
    pub fn may_begin_act(&self, act: u32) -> bool
        ensures { Says self.now result (λ i es. row_allows i es (Start act)) }
    {
        let there = (act as usize) < self.ledger.acts.count();
        let ready = self.is_ready(act);
        let startable = self.is_startable(act);
        let harmed = self.any_harmed();
        there && (ready && (startable && !harmed))
    }

    /// Whether the work on an act was finished, and well or badly as this says.
    pub fn is_finished(&self, ok: bool, act: u32) -> bool
        ensures { Says self.now result (λ i es. is_finished ok es act) }
    {
        match self.ledger.acts.request_of(act) {
            Some(r) => match self.ledger.requests.finish_of(r) {
                Some(well) => same_flag(ok, well),
                None => false,
            },
            None => false,
        }
    }

    /// Whether an act may end.
    pub fn may_end_act(&self, act: u32) -> bool
        ensures { Says self.now result (λ i es. row_allows i es (End act)) }
    {
        let active = self.ledger.acts.is_active(act);
        let finished = self.is_finished(true, act);
        let goes_on = self.may_go_on(act);
        let may = self.may_end(act);
        let well = self.ends_well(act);
        active && (finished && (goes_on && (may && well)))
    }

    /// Whether the last request for an act was passed by all, and by none since it was engaged.
    fn nobody_serves(&self, act: u32) -> bool
        ensures { Says self.now result (λ i es. nobody_serves i es act) }
    {
        match self.ledger.acts.request_of(act) {
            Some(r) => {
                let passed = self.is_passed(r);
                let busy = self.was_busy(r);
                passed && !busy
            }
            None => false,
        }
    }

    /// Whether an act may fail for this reason.
    pub fn may_fail(&self, act: u32, why: FailWhy) -> bool
        ensures { Says self.now result (λ i es. row_allows i es (Fail act why)) }
    {
        let active = self.ledger.acts.is_active(act);
        match why {
            FailWhy::NoPerformer => {
                let nobody = self.nobody_serves(act);
                active && nobody
            }
            FailWhy::Script => {
                let finished = self.is_finished(false, act);
                active && finished
            }
            FailWhy::AtEnd => {
                let finished = self.is_finished(true, act);
                let may = self.may_end(act);
                active && (finished && !may)
            }
            FailWhy::Effect => {
                let finished = self.is_finished(true, act);
                let may = self.may_end(act);
                let well = self.ends_well(act);
                active && (finished && (may && !well))
            }
        }
    }
}
