//! What the ticker does about requests.
ghost use Rattle.std.specs.Prelude.{◌∷◌, flat_map, IfSome};
ghost use Rattle.ps_machine.specs.declared.journal.Event.TheVariants.{Unserved};
ghost use Rattle.ps_rules.specs.Choices.{all_requests};
ghost use Rattle.ps_actors.specs.Ticks.{fails_on, IsTickers, on_request};
ghost use Rattle.ps_actors.specs.Turns.{Chooses, first_legal};
ghost use Rattle.ps_actors.specs.declared.requests.AboutRequest.TheVariants.{Confirm as ToConfirm, Leave as ToLeave};

use super::choice::{Choice, Chosen, chosen_if};
use ps_machine::FailWhy;
use ps_state::State;

/// What the ticker may do about a request.
#[derive(Clone, Copy)]
pub enum AboutRequest {
    /// Confirm its first offer.
    Confirm,
    /// Leave it, where every performer passed it.
    Leave,
}

/// The confirmation of the first offer on a request, if it may come.
fn confirm_on(state: &State, r: u64) -> Option<Choice>
    ensures first { Chooses state.now result
        (λ i es. first_legal i es (on_request ToConfirm es r)) }
    ensures its { IfSome result IsTickers }
{
    match state.ledger.requests.first_offer(r) {
        Some(by) => chosen_if(state.may_confirm(r, by), Chosen::Confirm { r, by }),
        None => None,
    }
}

/// The failure of the act of a request that every performer passed, if it may come.
fn fail_on(state: &State, r: u64) -> Option<Choice>
    ensures first { Chooses state.now result (λ i es. first_legal i es (fails_on es r)) }
    ensures its { IfSome result IsTickers }
{
    match state.ledger.requests.act_of(r) {
        Some(act) => {
            let why = FailWhy::NoPerformer;
            chosen_if(state.may_fail(act, why), Chosen::Fail { act, why })
        }
        None => None,
    }
}

/// How an open request is given up, if it may be.
fn leave_open(state: &State, r: u64) -> Option<Choice>
    ensures first { Chooses state.now result
        (λ i es. first_legal i es (Unserved r ∷ fails_on es r)) }
    ensures its { IfSome result IsTickers }
{
    match chosen_if(state.may_leave(r), Chosen::Unserved(r)) {
        Some(event) => Some(event),
        None => fail_on(state, r),
    }
}

/// How a request is given up, if it is open and may be.
fn leave_on(state: &State, r: u64) -> Option<Choice>
    ensures first { Chooses state.now result
        (λ i es. first_legal i es (on_request ToLeave es r)) }
    ensures its { IfSome result IsTickers }
{
    if state.ledger.is_open(r) {
        leave_open(state, r)
    } else {
        None
    }
}

/// What may be done about a request, if something may.
fn on_request(state: &State, about: AboutRequest, r: u64) -> Option<Choice>
    ensures first { Chooses state.now result
        (λ i es. first_legal i es (on_request about es r)) }
    ensures its { IfSome result IsTickers }
{
    match about {
        AboutRequest::Confirm => confirm_on(state, r),
        AboutRequest::Leave => leave_on(state, r),
    }
}

/// The first thing that may be done about requests. Only those of the present plan are looked at: nothing may be about others.
pub fn first_on_requests(state: &State, about: AboutRequest) -> Option<Choice>
    ensures first { Chooses state.now result
        (λ i es. first_legal i es (flat_map (on_request about es) (all_requests es))) }
    ensures its { IfSome result IsTickers }
{
    let count = state.ledger.requests.count();
    for r in state.ledger.requests.of_plan as u64..count {
        match on_request(state, about, r) {
            Some(event) => return Some(event),
            None => {}
        }
    }
    None
}
