//! The query for a plan: it may come where the solver answers one, which is then kept.
ghost use Rattle.std.specs.Prelude.{◌≡◌, ◌<◌, ◌≤◌, ◌++◌, [], ◌∷◌, ◌&&◌, IfOk, IfSome, IsSome, is_none, is_some, length};
ghost use Rattle.std.specs.Bool.{Decides};
ghost use Rattle.std.specs.Option.{option_copied};
ghost use Rattle.ps_action.specs.declared.answers.Answer.TheVariants.{Plan as Planned};
ghost use Rattle.ps_machine.specs.declared.inputs.Query.TheVariants.{Plan};
ghost use Rattle.ps_machine.specs.declared.journal.Event.TheVariants.{Ask};
ghost use Rattle.ps_rules.specs.History.{IsHistory};
ghost use Rattle.ps_rules.specs.Legal.{has_hand, is_legal, is_query};
ghost use Rattle.ps_rules.specs.Lines.{refusal_of_goal};
ghost use Rattle.ps_rules.specs.Same.{same_query};
ghost use Rattle.ps_rules.specs.Sound.{IsSound};
ghost use Rattle.ps_state.specs.State.{SaysFor, Stands};
ghost use Rattle.ps_replay.specs.Judge.{may_ask_plan, TellsPlan};

use ps_action::{Act, Answer};
use ps_machine::{Command, Entry, Event, Input, Line, Query};
use ps_plan::Solver;
use ps_state::State;
use ps_world::Seq;
use std::alloc::{AllocError, Global};

/// Whether an event is the query for a plan.
pub fn asks_plan(event: &Event) -> bool
    ensures { Decides result (event.now ≡ Ask Plan) }
{
    match event {
        Event::Ask(Query::Plan) => true,
        _ => false,
    }
}

fn is_plan(query: Query) -> bool
    ensures { result ≡ same_query Plan query }
{
    match query {
        Query::Plan => true,
        _ => false,
    }
}

/// Whether a line asks for a plan.
fn is_plan_query(line: Option<&Line>) -> bool
    ensures { result ≡ is_query Plan (option_copied line.entry) }
{
    match line {
        Some(Line::Good(Command::Ask(query))) => is_plan(*query),
        _ => false,
    }
}

/// Whether the query for a plan may come next by this hand, where no cancel is due, if there is a plan.
fn may_ask_plan(state: &State, input: &Input, hand: u8) -> bool
    ensures { SaysFor input.now state.now result (λ es. may_ask_plan input.now es hand) }
{
    let running = state.ledger.run.is_running();
    let asked = is_plan_query(state.next_line(input));
    hand == 0 && (!running && asked)
}

/// The plan that the solver answers, if there is a goal and it answers one.
fn plan_for_goal<S: Solver>(
    alloc: Global,
    solver: &S,
    state: &State,
    budget: u32,
) -> Result<Option<Seq<Act>>, AllocError>
    requires { 1 ≤ budget }
    ensures there { IfOk result (λ o. is_some o
        ≡ is_none (refusal_of_goal state.now.expert state.now.problem budget)) }
    ensures plan { IfOk result (λ o. IfSome o (λ acts.
        S.says solver.now state.now.expert state.now.problem budget ≡ Planned acts)) }
{
    if state.problem.goal().is_none() {
        return Ok(None);
    }
    match solver.solve(alloc, &state.expert, &state.problem, budget)? {
        Answer::Plan(acts) => Ok(Some(acts)),
        _ => Ok(None),
    }
}

/// The plan that answers the query for a plan, if that may come next where no cancel is due. If so it is taken.
pub fn judge_plan_query<S: Solver>(
    alloc: Global,
    solver: &S,
    input: &Input,
    before: &[Entry],
    entry: &Entry,
    state: &mut State,
) -> Result<Option<Seq<Act>>, AllocError>
    requires asks { entry.now.what ≡ Ask Plan }
    requires sound { IsSound input.now }
    requires few { length before.now < 18446744073709551615 }
    requires history { IsHistory input.now before.now }
    requires stands { Stands input.now before.now state.now }
    ensures legal { IfOk result (λ o. is_some o ≡ (is_legal input.now before.now entry.now.what
        && has_hand entry.now.what entry.now.hand)) }
    ensures stands { IfOk result (λ o. IsSome o
        → Stands input.now (before.now ++ entry.now ∷ []) state.new) }
    ensures told { IfOk result (λ o. IfSome o
        (TellsPlan (S.says solver.now) input.now before.now entry.now.what)) }
{
    if !may_ask_plan(state, input, entry.hand) {
        return Ok(None);
    }
    match plan_for_goal(alloc, solver, state, input.budget)? {
        Some(acts) => {
            state.make_room(&entry.what)?;
            state.take(alloc, &entry.what)?;
            Ok(Some(acts))
        }
        None => Ok(None),
    }
}
