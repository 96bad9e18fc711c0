//! When the ticker ends the run, and when the solver is asked.
ghost use Rattle.std.specs.Prelude.{◌≡◌, true, false, IfSome, List};
ghost use Rattle.ps_machine.specs.declared.inputs.Input.{Input as InputView};
ghost use Rattle.ps_machine.specs.declared.journal.Entry.{Entry};
ghost use Rattle.ps_rules.specs.Choices.{overs, wants_plan};
ghost use Rattle.ps_rules.specs.Settled.{is_settled};
ghost use Rattle.ps_state.specs.State.{Stands};
ghost use Rattle.ps_actors.specs.Ticks.{IsTickers};
ghost use Rattle.ps_actors.specs.Turns.{ChoosesFor, first_legal};

use super::choice::{Choice, Chosen, chosen_if};
use ps_machine::Input;
use ps_state::State;

/// Whether some act of the plan is active.
fn any_active(state: &State) -> bool
    ensures { (i : InputView) (es : List Entry) → Stands i es state.now
        → result ≡ true → is_settled i es ≡ false }
{
    for act in 0..state.count() {
        if state.ledger.acts.is_active(act) {
            return true;
        }
    }
    false
}

/// The end of a run without an active act, where it is settled and that needs no solver.
fn over_idle(state: &State, input: &Input) -> Option<Choice>
    ensures first { ChoosesFor input.now state.now result
        (λ es. first_legal input.now es (overs input.now es)) }
    ensures its { IfSome result IsTickers }
{
    match state.verdict(input) {
        Some(how) => chosen_if(state.is_settled(input), Chosen::Over(how)),
        None => None,
    }
}

/// The end of the run, where it is settled and that needs no solver: not while an act is active.
pub fn first_over(state: &State, input: &Input) -> Option<Choice>
    ensures first { ChoosesFor input.now state.now result
        (λ es. first_legal input.now es (overs input.now es)) }
    ensures its { IfSome result IsTickers }
{
    if any_active(state) {
        None
    } else {
        over_idle(state, input)
    }
}

/// Whether the solver is asked where no act is active.
fn wants_idle(state: &State, input: &Input) -> bool
    ensures { ChoosesFor input.now state.now result (λ es. wants_plan input.now es) }
{
    let settled = state.is_settled(input);
    let verdict = state.verdict(input);
    settled && verdict.is_none()
}

/// Whether the solver is asked: not while an act is active.
pub fn wants_plan(state: &State, input: &Input) -> bool
    ensures { ChoosesFor input.now state.now result (λ es. wants_plan input.now es) }
{
    if any_active(state) {
        false
    } else {
        wants_idle(state, input)
    }
}
