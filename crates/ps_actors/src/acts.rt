//! What the ticker does about acts.
ghost use Rattle.std.specs.Prelude.{[], ◌∷◌, flat_map, IfSome};
ghost use Rattle.ps_machine.specs.declared.journal.Event.TheVariants.{Fail};
ghost use Rattle.ps_machine.specs.declared.journal.FailWhy.TheVariants.{AtEnd, Effect as ByEffect};
ghost use Rattle.ps_rules.specs.Settled.{places};
ghost use Rattle.ps_actors.specs.Ticks.{fails_of, IsTickers, on_act};
ghost use Rattle.ps_actors.specs.Turns.{Chooses, ChoosesFor, first_legal};
ghost use Rattle.ps_actors.specs.declared.acts.AboutAct.TheVariants.{Ask as ToAsk, Begin as ToBegin, Finish as ToFinish};

use super::choice::{Choice, Chosen, chosen_if};
use ps_machine::{FailWhy, Input};
use ps_state::State;

/// What the ticker may do about an act.
#[derive(Clone, Copy)]
pub enum AboutAct {
    /// End it, or fail it.
    Finish,
    /// Ask for a performer.
    Ask,
    /// Start it.
    Begin,
}

/// The failure of an act for this reason, if it may come.
fn fail_for(state: &State, act: u32, why: FailWhy) -> Option<Choice>
    ensures first { Chooses state.now result (λ i es. first_legal i es (Fail act why ∷ [])) }
    ensures its { IfSome result IsTickers }
{
    chosen_if(state.may_fail(act, why), Chosen::Fail { act, why })
}

/// The failure of an act at its end, if it may come.
fn fail_late(state: &State, act: u32) -> Option<Choice>
    ensures first { Chooses state.now result
        (λ i es. first_legal i es (Fail act AtEnd ∷ Fail act ByEffect ∷ [])) }
    ensures its { IfSome result IsTickers }
{
    match fail_for(state, act, FailWhy::AtEnd) {
        Some(event) => Some(event),
        None => fail_for(state, act, FailWhy::Effect),
    }
}

/// The failure of an act whose work was finished, if it may come.
fn fail_of(state: &State, act: u32) -> Option<Choice>
    ensures first { Chooses state.now result (λ i es. first_legal i es (fails_of act)) }
    ensures its { IfSome result IsTickers }
{
    match fail_for(state, act, FailWhy::Script) {
        Some(event) => Some(event),
        None => fail_late(state, act),
    }
}

/// How an act that was finished well ends or fails, if it may.
fn finish_well(state: &State, act: u32) -> Option<Choice>
    ensures first { Chooses state.now result
        (λ i es. first_legal i es (on_act ToFinish es act)) }
    ensures its { IfSome result IsTickers }
{
    match chosen_if(state.may_end_act(act), Chosen::End(act)) {
        Some(event) => Some(event),
        None => fail_of(state, act),
    }
}

/// How an active act ends or fails, if it may. Its conditions are judged only once its work was finished well.
fn finish_active(state: &State, act: u32) -> Option<Choice>
    ensures first { Chooses state.now result
        (λ i es. first_legal i es (on_act ToFinish es act)) }
    ensures its { IfSome result IsTickers }
{
    if state.is_finished(true, act) {
        finish_well(state, act)
    } else {
        fail_for(state, act, FailWhy::Script)
    }
}

/// How an act ends or fails, if it may: only while it is active.
fn finish_of(state: &State, act: u32) -> Option<Choice>
    ensures first { Chooses state.now result
        (λ i es. first_legal i es (on_act ToFinish es act)) }
    ensures its { IfSome result IsTickers }
{
    if state.ledger.acts.is_active(act) {
        finish_active(state, act)
    } else {
        None
    }
}

/// The request for a performer of an act, if it may come.
fn request_of(state: &State, input: &Input, act: u32) -> Option<Choice>
    ensures first { ChoosesFor input.now state.now result
        (λ es. first_legal input.now es (on_act ToAsk es act)) }
    ensures its { IfSome result IsTickers }
{
    let r = state.ledger.requests.count();
    let may = state.may_request(input, r, act);
    chosen_if(may, Chosen::Request { r, act })
}

/// The start of an act that is ready, if it may come.
fn start_ready(state: &State, act: u32) -> Option<Choice>
    ensures first { Chooses state.now result
        (λ i es. first_legal i es (on_act ToBegin es act)) }
    ensures its { IfSome result IsTickers }
{
    chosen_if(state.may_begin_act(act), Chosen::Start(act))
}

/// The start of an act, if it may come. Its conditions are judged only where it is ready.
fn start_of(state: &State, act: u32) -> Option<Choice>
    ensures first { Chooses state.now result
        (λ i es. first_legal i es (on_act ToBegin es act)) }
    ensures its { IfSome result IsTickers }
{
    if state.is_ready(act) {
        start_ready(state, act)
    } else {
        None
    }
}

/// What may be done about an act, if something may.
fn on_act(state: &State, input: &Input, about: AboutAct, act: u32) -> Option<Choice>
    ensures first { ChoosesFor input.now state.now result
        (λ es. first_legal input.now es (on_act about es act)) }
    ensures its { IfSome result IsTickers }
{
    match about {
        AboutAct::Finish => finish_of(state, act),
        AboutAct::Ask => request_of(state, input, act),
        AboutAct::Begin => start_of(state, act),
    }
}

/// The first thing that may be done about acts.
pub fn first_on_acts(state: &State, input: &Input, about: AboutAct) -> Option<Choice>
    ensures first { ChoosesFor input.now state.now result
        (λ es. first_legal input.now es (flat_map (on_act about es) (places es))) }
    ensures its { IfSome result IsTickers }
{
    for act in 0..state.count() {
        match on_act(state, input, about, act) {
            Some(event) => return Some(event),
            None => {}
        }
    }
    None
}
