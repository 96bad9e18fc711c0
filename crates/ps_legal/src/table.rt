//! The table of events: which event may come next.
ghost use Rattle.std.specs.Prelude.{◌≡◌, ◌≤◌, ◌+◌, ◌==◌, length, option_and_then, IfOk, IsSome, IsTrue, Ok};
ghost use Rattle.ps_world.specs.Knowledge.{edited};
ghost use Rattle.ps_machine.specs.declared.journal.Event.TheVariants.{Ask, Edit as Edited, Over, Quit, Refused, Replan, Run};
ghost use Rattle.std.specs.Option.{option_copied};
ghost use Rattle.ps_ledger.specs.Lines.{is_by_terminal};
ghost use Rattle.ps_rules.specs.Legal.{has_hand, is_legal, line_edit, row_allows};
ghost use Rattle.ps_rules.specs.Lines.{answered, answers_line, next_line, refusal_of};
ghost use Rattle.ps_rules.specs.Sound.{IsSound};
ghost use Rattle.ps_state.specs.State.{Says, SaysFor};
ghost use Rattle.ps_state.specs.Awaiting.{after_edit, HasSameRest, MayBegin, MayBePlan};
ghost use Rattle.ps_legal.specs.Table.{follows, is_asked, is_one, refusal_of_edit};

use super::lines::{accepts, line_refusal, make_edit, refusal_of_query};
use super::plans::{can_ground, ending, is_good, is_plan};
use super::same::{are_acts_of, is_cause, is_edit, is_only_act, is_outcome, same_query};
use ps_action::{Act, PlanStep};
use ps_machine::{By, Command, Event, Input, Line, Outcome, Query, Refusal, RunKind};
use ps_plan::Solver;
use ps_state::State;
use ps_world::{Edit, Seq};
use std::alloc::{AllocError, Global};

fn is_by_terminal(by: By) -> bool
    ensures { result ≡ is_by_terminal by }
{
    match by {
        By::Terminal(_) => true,
        _ => false,
    }
}

/// Whether an event answers a line of the terminal.
pub fn answers_line(event: &Event) -> bool
    ensures { result ≡ answers_line event.now }
{
    match event {
        Event::Edit { by, edit: _ } => is_by_terminal(*by),
        Event::Refused { by, why: _ } => is_by_terminal(*by),
        Event::Ask(_) => true,
        Event::Run { kind: _, acts: _ } => true,
        Event::Quit => true,
        _ => false,
    }
}

/// Whether an event may have this hand.
pub fn has_hand(event: &Event, hand: u8) -> bool
    ensures { result ≡ has_hand event.now hand }
{
    if answers_line(event) {
        hand == 0
    } else {
        1 <= hand && hand <= 16
    }
}

/// Whether the line with this number is answered next.
fn is_next(state: &State, n: u32) -> bool
    ensures { Says state.now result (λ i es. n == answered es + 1) }
{
    let answered = state.ledger.lines.answered();
    n >= 1 && u64::from(n) - 1 == answered
}

/// The edit that the next line says, if it says one.
fn line_edit<'a>(state: &State, input: &'a Input) -> Option<&'a Edit>
    ensures { SaysFor input.now state.now (option_copied result)
        (λ es. line_edit (next_line input.now es)) }
{
    match state.next_line(input) {
        Some(Line::Good(Command::Edit(edit))) => Some(edit),
        _ => None,
    }
}

/// Whether this edit is the one that the terminal, a performer or an observer makes next.
fn is_asked(state: &State, input: &Input, by: By, edit: &Edit) -> bool
    ensures { SaysFor input.now state.now result (λ es. is_asked input.now es by edit.now) }
{
    match by {
        By::Terminal(n) => {
            let next = is_next(state, n);
            let said = line_edit(state, input);
            let same = is_edit(edit, said);
            next && same
        }
        By::Performer(r, name) => is_edit(edit, state.next_edit(input, r, name)),
        By::Observer(name) => is_edit(edit, state.next_seen(input, name)),
    }
}

/// Whether an accepted edit may come next. Then it has been made.
fn may_edit(state: &mut State, input: &Input, by: By, edit: &Edit) -> Result<bool, AllocError>
    ensures fits { IfOk result (λ b. SaysFor input.now state.old b
        (λ es. row_allows input.now es (Edited by edit.now))) }
    ensures made { IfOk result (λ b. IsTrue b
        → edited state.old.expert state.old.problem edit.now ≡ Ok state.new.problem) }
    ensures rest { HasSameRest state.old state.new }
{
    if !is_asked(state, input, by, edit) {
        return Ok(false);
    }
    let made = accepts(&state.expert, &mut state.problem, edit)?;
    Ok(made)
}

/// Why the edit that a member makes next is refused, if there is one and it is. Else it has been made.
fn edit_refusal(state: &mut State, edit: Option<&Edit>) -> Result<Option<Refusal>, AllocError>
    ensures why { IfOk result (λ why. why ≡ refusal_of_edit state.old.expert
        state.old.problem (option_copied edit.entry)) }
    ensures kept { IfOk result (λ why. IsSome why → state.new.problem ≡ state.old.problem) }
    ensures rest { HasSameRest state.old state.new }
{
    match edit {
        Some(edit) => match make_edit(&state.expert, &mut state.problem, edit)? {
            Some(refusal) => Ok(Some(Refusal::Edit(refusal))),
            None => Ok(None),
        },
        None => Ok(None),
    }
}

/// Why the next line is refused, if there is one and it is. An edit that isn't refused has been made.
fn refusal_of_next<S: Solver>(
    state: &mut State,
    alloc: Global,
    solver: &S,
    input: &Input,
) -> Result<Option<Refusal>, AllocError>
    requires { IsSound input.now }
    ensures why { IfOk result (λ why. SaysFor input.now state.old why
        (λ es. option_and_then (refusal_of input.now es) (next_line input.now es))) }
    ensures kept { IfOk result (λ why. IsSome why → state.new.problem ≡ state.old.problem) }
    ensures rest { HasSameRest state.old state.new }
{
    let run = state.ledger.run.has_run();
    let budget = input.budget;
    match state.next_line(input) {
        Some(line) => {
            let why = line_refusal(
                alloc,
                solver,
                &state.expert,
                &mut state.problem,
                budget,
                run,
                line,
            )?;
            Ok(why)
        }
        None => Ok(None),
    }
}

/// Whether a refusal may come next. Then nothing has changed.
fn may_refuse<S: Solver>(
    state: &mut State,
    alloc: Global,
    solver: &S,
    input: &Input,
    by: By,
    why: Refusal,
) -> Result<bool, AllocError>
    requires { IsSound input.now }
    ensures fits { IfOk result (λ b. SaysFor input.now state.old b
        (λ es. row_allows input.now es (Refused by why))) }
    ensures kept { IfOk result (λ b. IsTrue b → state.new.problem ≡ state.old.problem) }
    ensures rest { HasSameRest state.old state.new }
{
    match by {
        By::Terminal(n) => {
            let next = is_next(state, n);
            let given = refusal_of_next(state, alloc, solver, input)?;
            let same = is_cause(why, given);
            Ok(next && same)
        }
        By::Performer(r, name) => {
            let edit = state.next_edit(input, r, name);
            let given = edit_refusal(state, edit)?;
            Ok(is_cause(why, given))
        }
        By::Observer(name) => {
            let edit = state.next_seen(input, name);
            let given = edit_refusal(state, edit)?;
            Ok(is_cause(why, given))
        }
    }
}

/// Whether a query may be answered next.
fn may_ask<S: Solver>(
    state: &State,
    alloc: Global,
    solver: &S,
    input: &Input,
    query: Query,
) -> Result<bool, AllocError>
    requires { IsSound input.now }
    ensures { IfOk result (λ b. SaysFor input.now state.now b
        (λ es. row_allows input.now es (Ask query))) }
{
    let run = state.ledger.run.has_run();
    match state.next_line(input) {
        Some(Line::Good(Command::Ask(said))) => {
            let same = same_query(query, *said);
            let why = refusal_of_query(
                alloc,
                solver,
                &state.expert,
                &state.problem,
                input.budget,
                run,
                *said,
            )?;
            Ok(same && why.is_none())
        }
        _ => Ok(false),
    }
}

/// Whether these acts are those of a file's plan, and a good plan.
fn may_follow(state: &State, acts: &[Act], steps: &[PlanStep]) -> Result<bool, AllocError>
    requires { length steps.now ≤ 256 }
    ensures follows { IfOk result
        (λ b. b ≡ follows state.now.expert state.now.problem acts.now steps.now) }
    ensures may { IfOk result
        (λ b. IsTrue b → MayBePlan state.now.expert state.now.problem acts.now) }
{
    if are_acts_of(acts, steps) {
        is_good(&state.expert, &state.problem, acts)
    } else {
        Ok(false)
    }
}

/// Whether these acts are this one alone, which can be grounded.
fn may_do(state: &State, acts: &[Act], act: &Act) -> bool
    ensures one { result ≡ is_one state.now.expert state.now.problem acts.now act.now }
    ensures may { IsTrue result → MayBePlan state.now.expert state.now.problem acts.now }
{
    let same = is_only_act(acts, act);
    let can = can_ground(&state.expert, &state.problem, act);
    same && can
}

/// Whether a run may be opened next.
fn may_run<S: Solver>(
    state: &State,
    alloc: Global,
    solver: &S,
    input: &Input,
    kind: RunKind,
    acts: &[Act],
) -> Result<bool, AllocError>
    requires { IsSound input.now }
    ensures fits { IfOk result (λ b. SaysFor input.now state.now b
        (λ es. row_allows input.now es (Run kind acts.now))) }
    ensures may { IfOk result
        (λ b. IsTrue b → MayBePlan state.now.expert state.now.problem acts.now) }
{
    match state.next_line(input) {
        Some(Line::Good(Command::Run)) => match kind {
            RunKind::Goal => is_plan(
                alloc,
                solver,
                &state.expert,
                &state.problem,
                input.budget,
                acts,
            ),
            _ => Ok(false),
        },
        Some(Line::Good(Command::RunPlan(Ok(steps)))) => match kind {
            RunKind::Plan => may_follow(state, acts, steps.as_slice()),
            _ => Ok(false),
        },
        Some(Line::Good(Command::RunAction(act))) => match kind {
            RunKind::Action => Ok(may_do(state, acts, act)),
            _ => Ok(false),
        },
        _ => Ok(false),
    }
}

/// Whether the session may be ended next.
fn may_quit(state: &State, input: &Input) -> bool
    ensures { SaysFor input.now state.now result (λ es. row_allows input.now es Quit) }
{
    match state.next_line(input) {
        Some(Line::Good(Command::Quit)) => true,
        _ => false,
    }
}

/// Whether the run may be planned anew with these acts.
fn may_replan<S: Solver>(
    state: &State,
    alloc: Global,
    solver: &S,
    input: &Input,
    acts: &[Act],
) -> Result<bool, AllocError>
    requires { IsSound input.now }
    ensures fits { IfOk result (λ b. SaysFor input.now state.now b
        (λ es. row_allows input.now es (Replan acts.now))) }
    ensures may { IfOk result
        (λ b. IsTrue b → MayBePlan state.now.expert state.now.problem acts.now) }
{
    let settled = state.is_settled(input);
    let verdict = state.verdict(input);
    let good = is_plan(
        alloc,
        solver,
        &state.expert,
        &state.problem,
        input.budget,
        acts,
    )?;
    Ok(settled && (verdict.is_none() && good))
}

/// Whether the run may end so.
fn may_close<S: Solver>(
    state: &State,
    alloc: Global,
    solver: &S,
    input: &Input,
    how: Outcome,
) -> Result<bool, AllocError>
    requires { IsSound input.now }
    ensures { IfOk result (λ b. SaysFor input.now state.now b
        (λ es. row_allows input.now es (Over how))) }
{
    let settled = state.is_settled(input);
    let verdict = state.verdict(input);
    let end = ending(
        alloc,
        solver,
        &state.expert,
        &state.problem,
        input.budget,
        verdict,
    )?;
    let same = is_outcome(how, end);
    Ok(settled && same)
}

/// Whether an event may come next but for whether a run is open. An edit that may has been made; else nothing has changed.
fn fits<S: Solver>(
    state: &mut State,
    alloc: Global,
    solver: &S,
    input: &Input,
    event: &Event,
) -> Result<bool, AllocError>
    requires { IsSound input.now }
    ensures fits { IfOk result (λ b. SaysFor input.now state.old b
        (λ es. row_allows input.now es event.now)) }
    ensures made { IfOk result (λ b. IsTrue b
        → state.new.problem ≡ after_edit state.old.expert state.old.problem event.now) }
    ensures may { IfOk result (λ b. IsTrue b → MayBegin event.now state.new) }
    ensures rest { HasSameRest state.old state.new }
{
    match event {
        Event::Edit { by, edit } => may_edit(state, input, *by, edit),
        Event::Refused { by, why } => may_refuse(state, alloc, solver, input, *by, *why),
        Event::Ask(query) => may_ask(state, alloc, solver, input, *query),
        Event::Run { kind, acts } => {
            may_run(state, alloc, solver, input, *kind, acts.as_slice())
        }
        Event::Quit => Ok(may_quit(state, input)),
        Event::Start(act) => Ok(state.may_begin_act(*act)),
        Event::Request { r, act } => Ok(state.may_request(input, *r, *act)),
        Event::Offer { r, by } => Ok(state.may_offer(input, *r, *by)),
        Event::Pass { r, by, why } => Ok(state.may_pass(input, *r, *by, *why)),
        Event::Confirm { r, by } => Ok(state.may_confirm(*r, *by)),
        Event::Reject { r, by } => Ok(state.may_reject(*r, *by)),
        Event::Begin { r, by } => Ok(state.may_begin(*r, *by)),
        Event::UnitWork { r, by } => Ok(state.may_work(input, *r, *by)),
        Event::Feedback {
            r,
            by,
            percent,
            text,
        } => Ok(state.may_report(input, *r, *by, *percent, text)),
        Event::Finish { r, by, ok } => Ok(state.may_finish(input, *r, *by, *ok)),
        Event::Unserved(r) => Ok(state.may_leave(*r)),
        Event::End(act) => Ok(state.may_end_act(*act)),
        Event::Fail { act, why } => Ok(state.may_fail(*act, *why)),
        Event::Cancel { act: _, why: _ } => Ok(false),
        Event::Stopped { r, by } => Ok(state.may_stop(*r, *by)),
        Event::Replan(acts) => may_replan(state, alloc, solver, input, acts.as_slice()),
        Event::Over(how) => may_close(state, alloc, solver, input, *how),
    }
}

/// Whether an event may come next. An edit that may has been made; else nothing has changed, where the event may come. The
/// only error is out of memory.
pub fn is_legal<S: Solver>(
    state: &mut State,
    alloc: Global,
    solver: &S,
    input: &Input,
    event: &Event,
) -> Result<bool, AllocError>
    requires { IsSound input.now }
    ensures legal { IfOk result (λ b. SaysFor input.now state.old b
        (λ es. is_legal input.now es event.now)) }
    ensures made { IfOk result (λ b. IsTrue b
        → state.new.problem ≡ after_edit state.old.expert state.old.problem event.now) }
    ensures may { IfOk result (λ b. IsTrue b → MayBegin event.now state.new) }
    ensures rest { HasSameRest state.old state.new }
{
    if answers_line(event) == state.ledger.run.is_running() {
        return Ok(false);
    }
    let fits = fits(state, alloc, solver, input, event)?;
    Ok(fits)
}
