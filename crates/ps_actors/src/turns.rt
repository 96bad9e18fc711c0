//! What a performer does before any work.
ghost use Rattle.std.specs.Prelude.{IfSome, IsTrue};
ghost use Rattle.ps_rules.specs.Choices.{performed};
ghost use Rattle.ps_actors.specs.Turns.{ChoosesFrom, is_choice_of};

use super::answers::first_answer;
use super::choice::Choice;
use super::work::stop_or_begin;
use ps_machine::Input;
use ps_state::State;
use ps_world::Name;

/// What a performer does before any work, if it does something. It has answered the requests below `upto`.
pub fn performed(state: &State, input: &Input, name: Name, upto: u64) -> Option<Choice>
    ensures first { ChoosesFrom name upto input.now state.now result
        (λ es. performed input.now name es) }
    ensures its { IfSome result (λ e. IsTrue (is_choice_of name e)) }
{
    match first_answer(state, input, name, upto) {
        Some(event) => Some(event),
        None => stop_or_begin(state, name),
    }
}
