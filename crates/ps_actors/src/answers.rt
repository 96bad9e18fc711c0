//! How a performer answers requests.
ghost use Rattle.std.specs.Prelude.{◌≡◌, IfSome, IsTrue};
ghost use Rattle.ps_rules.specs.Choices.{answers};
ghost use Rattle.ps_actors.specs.Turns.{answer_by, answers_on, ChoosesFor, ChoosesFrom, first_legal, is_choice_of};

use super::choice::{Choice, Chosen};
use ps_machine::{Input, PassWhy};
use ps_state::{State, performer_of};
use ps_world::Name;

/// The answer to a request that a performer has not answered, by why it would pass it and whether it is of the run.
fn answer_by(name: Name, r: u64, why: Option<PassWhy>, of_run: bool) -> Option<Choice>
    ensures first { result ≡ answer_by name r why of_run }
    ensures its { IfSome result (λ e. IsTrue (is_choice_of name e)) }
{
    match why {
        None => Some(Choice::of(Chosen::Offer { r, by: name })),
        Some(why) => {
            if of_run {
                Some(Choice::of(Chosen::Pass { r, by: name, why }))
            } else {
                None
            }
        }
    }
}

/// How a performer answers a request, if it may.
fn answer_on(state: &State, input: &Input, name: Name, r: u64) -> Option<Choice>
    ensures first { ChoosesFor input.now state.now result
        (λ es. first_legal input.now es (answers_on name r)) }
    ensures its { IfSome result (λ e. IsTrue (is_choice_of name e)) }
{
    if state.ledger.has_answered(r, name) {
        return None;
    }
    match performer_of(input, name) {
        Some(performer) => {
            let why = state.pass_reason(performer, r);
            let of_run = state.ledger.requests.is_of_run(r);
            answer_by(name, r, why, of_run)
        }
        None => None,
    }
}

/// The first answer of a performer that may come. It has answered the requests below `upto`, so only later ones are looked at.
pub fn first_answer(state: &State, input: &Input, name: Name, upto: u64) -> Option<Choice>
    ensures first { ChoosesFrom name upto input.now state.now result
        (λ es. first_legal input.now es (answers name es)) }
    ensures its { IfSome result (λ e. IsTrue (is_choice_of name e)) }
{
    let count = state.ledger.requests.count();
    for r in upto..count {
        match answer_on(state, input, name, r) {
            Some(event) => return Some(event),
            None => {}
        }
    }
    None
}
