//! Asking the planners.
ghost use Rattle.std.specs.Prelude.{◌≡◌, ◌≤◌, IfOk, IsSome};
ghost use Rattle.ps_planned.specs.Planned.{answers, best_told, found_status, found_text, plan_told, planner_at};
ghost use Rattle.ps_portfolio.specs.Choosing.{best_of};

use super::telling::{found_status, found_text, line_of, planner_at};
use ps_domain::Expert;
use ps_portfolio::{Chosen, Found, Greedy, Levels, Marks, portfolio};
use ps_problem::Problem;
use ps_text::Names;
use std::alloc::{AllocError, Global};
use std::thread::Threads;

/// What is told of a problem, and the exit status of it.
#[derive(Drop)]
pub struct Told {
    pub text: Vec<u8>,
    /// 0 where a plan is told, else 1.
    pub status: u8,
}

/// What is told of the answer at a place.
fn told_of(
    alloc: Global,
    names: &Names,
    expert: &Expert,
    problem: &Problem,
    place: usize,
    found: &Found,
) -> Result<Told, AllocError>
    ensures text { IfOk result (λ told. told.text.items
        ≡ found_text expert.now problem.now names.now (planner_at place) found.now) }
    ensures status { IfOk result (λ told. told.status ≡ found_status found.now) }
{
    let text = found_text(alloc, names, expert, problem, planner_at(place), found)?;
    let status = found_status(found);
    Ok(Told { text, status })
}

/// What is told of the best answer.
fn best_told(
    alloc: Global,
    names: &Names,
    expert: &Expert,
    problem: &Problem,
    chosen: &Chosen,
) -> Result<Told, AllocError>
    requires { chosen.now.best ≡ best_of chosen.now.answers }
    ensures { IfOk result (λ told. (told.text.items, told.status)
        ≡ best_told expert.now problem.now names.now chosen.now.answers) }
{
    let place = chosen.best as usize;
    match chosen.answers.as_slice().get(place) {
        Some(found) => told_of(alloc, names, expert, problem, place, found),
        None => told_of(alloc, names, expert, problem, place, &Found::Spent),
    }
}

/// The answers of the three planners, each in a thread of its own if there are threads.
fn asked<R: Threads + Sync>(
    rt: &R,
    alloc: Global,
    expert: &Expert,
    problem: &Problem,
    budget: u32,
) -> Result<Chosen, AllocError>
    requires goal { IsSome problem.now.goal }
    requires budget { 1 ≤ budget }
    ensures answers { IfOk result (λ chosen. chosen.answers ≡ answers expert.now problem.now budget) }
    ensures best { IfOk result (λ chosen. chosen.best ≡ best_of chosen.answers) }
{
    let levels = Levels::new();
    let landmarks = Greedy::new(Marks::Landmarks);
    let goals = Greedy::new(Marks::Goals);
    portfolio(
        rt, alloc, &levels, &landmarks, &goals, expert, problem, budget,
    )
}

/// What three planners at once find for a problem: the name of the best and the text of its plan, which `run plan` reads, or one line
/// that says why there is none. Without a goal no planner is asked. The only error is that memory ran out.
pub fn plan_told<R: Threads + Sync>(
    rt: &R,
    alloc: Global,
    names: &Names,
    expert: &Expert,
    problem: &Problem,
    budget: u32,
) -> Result<Told, AllocError>
    requires { 1 ≤ budget }
    ensures { IfOk result (λ told. (told.text.items, told.status)
        ≡ plan_told expert.now problem.now names.now budget) }
{
    if problem.goal().is_none() {
        let text = line_of(alloc, b"no goal")?;
        return Ok(Told { text, status: 1 });
    }
    let chosen = asked(rt, alloc, expert, problem, budget)?;
    best_told(alloc, names, expert, problem, &chosen)
}
