//! The work of a performer on requests.
ghost use Rattle.std.specs.Prelude.{◌≡◌, ◌++◌, IfSome, IsTrue, map, option_map};
ghost use Rattle.ps_rules.specs.Choices.{all_requests, beginnings, stops, work_of};
ghost use Rattle.ps_rules.specs.Legal.{row_allows};
ghost use Rattle.ps_state.specs.State.{Says};
ghost use Rattle.ps_actors.specs.Turns.{Chooses, ChoosesFor, first_legal, is_choice_of, work_event};

use super::choice::{Choice, Chosen};
use ps_machine::{Input, Unit};
use ps_state::State;
use ps_world::Name;

/// What a performer may do about the work on a request.
#[derive(Clone, Copy)]
pub enum AboutWork {
    /// Stop it.
    Stop,
    /// Begin it.
    Begin,
}

/// Whether this may be done about the work on a request.
fn may_do(state: &State, about: AboutWork, name: Name, r: u64) -> bool
    ensures { Says state.now result (λ i es. row_allows i es (work_event about name r)) }
{
    match about {
        AboutWork::Stop => state.may_stop(r, name),
        AboutWork::Begin => state.may_begin(r, name),
    }
}

/// The event by which it is done.
fn work_event(about: AboutWork, name: Name, r: u64) -> Choice
    ensures event { result ≡ work_event about name r }
    ensures its { IsTrue (is_choice_of name result) }
{
    match about {
        AboutWork::Stop => Choice::of(Chosen::Stopped { r, by: name }),
        AboutWork::Begin => Choice::of(Chosen::Begin { r, by: name }),
    }
}

/// The first stop, or the first beginning, that may come. Only requests of the present plan are looked at: there is no work on others.
fn first_on_requests(state: &State, about: AboutWork, name: Name) -> Option<Choice>
    ensures first { Chooses state.now result
        (λ i es. first_legal i es (map (work_event about name) (all_requests es))) }
    ensures its { IfSome result (λ e. IsTrue (is_choice_of name e)) }
{
    let count = state.ledger.requests.count();
    for r in state.ledger.requests.of_plan as u64..count {
        if may_do(state, about, name, r) {
            return Some(work_event(about, name, r));
        }
    }
    None
}

/// What an engaged performer stops or begins, if it may.
fn stop_or_begin_engaged(state: &State, name: Name) -> Option<Choice>
    ensures first { Chooses state.now result
        (λ i es. first_legal i es (stops name es ++ beginnings name es)) }
    ensures its { IfSome result (λ e. IsTrue (is_choice_of name e)) }
{
    match first_on_requests(state, AboutWork::Stop, name) {
        Some(event) => Some(event),
        None => first_on_requests(state, AboutWork::Begin, name),
    }
}

/// What a performer stops or begins, if it may. One that is not engaged has no work to stop or begin.
pub fn stop_or_begin(state: &State, name: Name) -> Option<Choice>
    ensures first { Chooses state.now result
        (λ i es. first_legal i es (stops name es ++ beginnings name es)) }
    ensures its { IfSome result (λ e. IsTrue (is_choice_of name e)) }
{
    if state.ledger.performers.is_engaged(name) {
        stop_or_begin_engaged(state, name)
    } else {
        None
    }
}

/// The request that an engaged performer works on, and its next unit there. Only requests of the present plan are looked at.
fn work_engaged<'a>(state: &State, input: &'a Input, name: Name) -> Option<(u64, &'a Unit)>
    ensures { ChoosesFor input.now state.now (option_map (λ w. (w.0, w.1.now)) result)
        (λ es. work_of input.now name es) }
{
    let count = state.ledger.requests.count();
    for r in state.ledger.requests.of_plan as u64..count {
        match state.next_unit(input, r, name) {
            Some(unit) => return Some((r, unit)),
            None => {}
        }
    }
    None
}

/// The request that a performer works on, and its next unit there. One that is not engaged works on none.
pub fn work_of<'a>(state: &State, input: &'a Input, name: Name) -> Option<(u64, &'a Unit)>
    ensures { ChoosesFor input.now state.now (option_map (λ w. (w.0, w.1.now)) result)
        (λ es. work_of input.now name es) }
{
    if state.ledger.performers.is_engaged(name) {
        work_engaged(state, input, name)
    } else {
        None
    }
}
