//! The planner that expands first what misses the fewest marks.
ghost use Rattle.std.specs.Prelude.{◌≡◌, ◌<◌, length, IfOk, MatchOption};
ghost use Rattle.ps_action.specs.Grounding.{all_ground, most_ground};
ghost use Rattle.ps_marks.specs.Landmarks.{landmarks};
ghost use Rattle.ps_portfolio.specs.Marking.{marks_of};

use super::planning::Planner;
use ps_best_first::best_first;
use ps_domain::Expert;
use ps_greedy::Found;
use ps_marks::{goal_marks, landmarks};
use ps_problem::Problem;
use ps_world::{Fact, Failure};
use std::alloc::{AllocError, Global};

/// The marks that a search goes by.
#[derive(Clone, Copy)]
pub enum Marks {
    /// The landmarks of the problem.
    Landmarks,
    /// The atoms of the goal that aren't known.
    Goals,
}

/// The landmarks. None exactly where there are more than 50,000 ground actions.
fn few_landmarks(expert: &Expert, problem: &Problem) -> Result<Option<Vec<Fact>>, AllocError>
    ensures { IfOk result (λ marks. MatchOption marks
        (most_ground < length (all_ground expert.now problem.now.instances))
        (λ facts. facts.items ≡ landmarks expert.now problem.now)) }
{
    match landmarks(expert, problem) {
        Ok(marks) => Ok(Some(marks)),
        Err(Failure::Refused(_)) => Ok(None),
        Err(Failure::OutOfMemory) => Err(AllocError),
    }
}

impl Marks {
    /// The marks of a problem. None only where there are more than 50,000 ground actions.
    fn of(self, expert: &Expert, problem: &Problem) -> Result<Option<Vec<Fact>>, AllocError>
        ensures { IfOk result (λ marks. MatchOption marks
            (most_ground < length (all_ground expert.now problem.now.instances))
            (λ facts. facts.items ≡ marks_of self expert.now problem.now)) }
    {
        match self {
            Marks::Landmarks => few_landmarks(expert, problem),
            Marks::Goals => Ok(Some(goal_marks(problem)?)),
        }
    }
}

/// Expands first what misses the fewest marks.
#[derive(Clone, Copy)]
pub struct Greedy {
    pub kind: Marks,
}

impl Greedy {
    /// The planner that goes by these marks.
    pub fn new(kind: Marks) -> Greedy
        ensures { result.kind ≡ kind }
    {
        Greedy { kind }
    }
}

impl Planner for Greedy {
    ghost use Rattle.ps_greedy.specs.Greedy.{greedy};
    ghost use Rattle.ps_portfolio.specs.Marking.{marks_of};

    ghost says = { λ g d k budget. greedy d k budget (marks_of g.kind d k) };

    fn plan(
        &self,
        alloc: Global,
        expert: &Expert,
        problem: &Problem,
        budget: u32,
    ) -> Result<Found, AllocError> {
        match self.kind.of(expert, problem)? {
            Some(marks) => best_first(alloc, expert, problem, budget, &marks),
            None => Ok(Found::TooMany),
        }
    }
}
