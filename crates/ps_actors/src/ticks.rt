//! What the ticker does.
ghost use Rattle.std.specs.Prelude.{IfSome};
ghost use Rattle.ps_rules.specs.Choices.{ticked};
ghost use Rattle.ps_actors.specs.Ticks.{asks_on, confirms_on, ends_on, IsTickers, leaves_on, starts_on};
ghost use Rattle.ps_actors.specs.Turns.{ChoosesFor, first_legal};

use super::acts::{AboutAct, first_on_acts};
use super::choice::Choice;
use super::overs::first_over;
use super::rejects::first_reject;
use super::requests::{AboutRequest, first_on_requests};
use ps_machine::Input;
use ps_state::State;

/// What the ticker does from the starts on, if it does something.
fn from_starts(state: &State, input: &Input) -> Option<Choice>
    ensures first { ChoosesFor input.now state.now result
        (λ es. first_legal input.now es (starts_on input.now es)) }
    ensures its { IfSome result IsTickers }
{
    match first_on_acts(state, input, AboutAct::Begin) {
        Some(event) => Some(event),
        None => first_over(state, input),
    }
}

/// What it does from the requests for performers on.
fn from_asks(state: &State, input: &Input) -> Option<Choice>
    ensures first { ChoosesFor input.now state.now result
        (λ es. first_legal input.now es (asks_on input.now es)) }
    ensures its { IfSome result IsTickers }
{
    match first_on_acts(state, input, AboutAct::Ask) {
        Some(event) => Some(event),
        None => from_starts(state, input),
    }
}

/// What it does from the ends of acts on.
fn from_ends(state: &State, input: &Input) -> Option<Choice>
    ensures first { ChoosesFor input.now state.now result
        (λ es. first_legal input.now es (ends_on input.now es)) }
    ensures its { IfSome result IsTickers }
{
    match first_on_acts(state, input, AboutAct::Finish) {
        Some(event) => Some(event),
        None => from_asks(state, input),
    }
}

/// What it does from the requests that are given up on.
fn from_leaves(state: &State, input: &Input) -> Option<Choice>
    ensures first { ChoosesFor input.now state.now result
        (λ es. first_legal input.now es (leaves_on input.now es)) }
    ensures its { IfSome result IsTickers }
{
    match first_on_requests(state, AboutRequest::Leave) {
        Some(event) => Some(event),
        None => from_ends(state, input),
    }
}

/// What it does from the confirmations on.
fn from_confirms(state: &State, input: &Input) -> Option<Choice>
    ensures first { ChoosesFor input.now state.now result
        (λ es. first_legal input.now es (confirms_on input.now es)) }
    ensures its { IfSome result IsTickers }
{
    match first_on_requests(state, AboutRequest::Confirm) {
        Some(event) => Some(event),
        None => from_leaves(state, input),
    }
}

/// What the ticker does in an open run, if it does something.
pub fn ticked(state: &State, input: &Input) -> Option<Choice>
    ensures first { ChoosesFor input.now state.now result (λ es. ticked input.now es) }
    ensures its { IfSome result IsTickers }
{
    match first_reject(state) {
        Some(event) => Some(event),
        None => from_confirms(state, input),
    }
}
