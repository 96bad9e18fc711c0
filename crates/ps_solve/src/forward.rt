//! The solver that looks forward.
ghost use Rattle.std.specs.Prelude.{◌≡◌, ◌≤◌, IfOk};
ghost use Rattle.ps_action.specs.Plans.{most_acts};
ghost use Rattle.ps_solve.specs.Endings.{searched};

use super::store::Rows;
use super::task::Task;
use ps_action::Answer;
use ps_domain::Expert;
use ps_levels::{Found, search};
use ps_plan::Solver;
use ps_problem::Problem;
use std::alloc::{AllocError, Global};

/// The most acts of a plan.
const MOST_ACTS: u32 = 256;

/// A solver that looks at all that one step leads to, then at all that two steps lead to, and so on, in the order of the acts, and at
/// each knowledge once. It answers with the least of the shortest good plans.
#[derive(Clone, Copy)]
pub struct Forward;

impl Forward {
    /// The solver.
    pub fn new() -> Forward {
        Forward
    }
}

/// The answer for a task, where a plan has at most so many acts.
fn answer(task: &Task, budget: u32, most: u32) -> Result<Answer, AllocError>
    requires budget { 1 ≤ budget }
    requires most { most ≡ most_acts }
    ensures { IfOk result (λ a. a ≡ searched task.now.expert.now task.now.problem.now budget) }
{
    let mut rows = Rows::new(task)?;
    match search(&mut rows, budget, most)? {
        Found::Path(acts) => Ok(Answer::Plan(acts)),
        Found::Nowhere => Ok(Answer::NoPlan),
        Found::Spent(depth) => Ok(Answer::Spent { depth }),
    }
}

impl Solver for Forward {
    ghost use Rattle.ps_action.specs.Search.{answer};

    ghost says = { λ s d k budget. answer d k budget };

    fn solve(
        &self,
        alloc: Global,
        expert: &Expert,
        problem: &Problem,
        budget: u32,
    ) -> Result<Answer, AllocError> {
        match Task::of(alloc, expert, problem)? {
            Some(task) => answer(&task, budget, MOST_ACTS),
            None => Ok(Answer::TooMany),
        }
    }
}
