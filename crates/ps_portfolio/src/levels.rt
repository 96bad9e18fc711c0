//! The planner that searches by levels.
ghost use Rattle.std.specs.Prelude.{◌≡◌};
ghost use Rattle.ps_portfolio.specs.Choosing.{found_of};

use super::planning::Planner;
use ps_action::Answer;
use ps_domain::Expert;
use ps_greedy::Found;
use ps_plan::Solver;
use ps_problem::Problem;
use ps_solve::Forward;
use std::alloc::{AllocError, Global};

/// Searches as `Forward`, and doesn't tell how deep it came.
#[derive(Clone, Copy)]
pub struct Levels;

impl Levels {
    /// The planner.
    pub fn new() -> Levels {
        Levels
    }
}

/// What an answer finds.
fn found_of(answer: Answer) -> Found
    ensures { result ≡ found_of answer }
{
    match answer {
        Answer::Plan(acts) => Found::Plan(acts),
        Answer::NoPlan => Found::NoPlan,
        Answer::Spent { depth: _ } => Found::Spent,
        Answer::TooMany => Found::TooMany,
    }
}

impl Planner for Levels {
    ghost use Rattle.ps_action.specs.Search.{answer};
    ghost use Rattle.ps_portfolio.specs.Choosing.{found_of};

    ghost says = { λ _ d k budget. found_of (answer d k budget) };

    fn plan(
        &self,
        alloc: Global,
        expert: &Expert,
        problem: &Problem,
        budget: u32,
    ) -> Result<Found, AllocError> {
        let answer = Forward::new().solve(alloc, expert, problem, budget)?;
        Ok(found_of(answer))
    }
}
