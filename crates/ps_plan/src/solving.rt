//! Solvers, which find plans.
ghost use Rattle.std.specs.Prelude.{◌≡◌, ◌≤◌, ℕ, IfOk, IsSome};

use ps_action::Answer;
use ps_domain::Expert;
use ps_problem::Problem;
use std::alloc::{AllocError, Global};

/// Something that finds plans.
pub trait Solver {
    ghost use Rattle.ps_world.specs.declared.domains.Domain.{Domain as DomainView};
    ghost use Rattle.ps_world.specs.declared.known.Knowledge.{Knowledge as KnowledgeView};
    ghost use Rattle.ps_action.specs.declared.answers.Answer.{Answer as AnswerView};
    ghost use Rattle.ps_action.specs.Search.{Fits};

    /// What it answers of a domain and what is known in it, with a budget.
    ghost says: { Self → DomainView → KnowledgeView → ℕ → AnswerView };

    /// A plan that reaches the goal, or why none is told: `NoPlan` where none is good, `Spent` where no plan of at most that many
    /// acts is good and as many different states are reached as the budget says or a plan has no more acts, `TooMany` where
    /// there are more than 50,000 ground actions.
    fn solve(
        &self,
        alloc: Global,
        expert: &Expert,
        problem: &Problem,
        budget: u32,
    ) -> Result<Answer, AllocError>
        requires goal { IsSome problem.now.goal }
        requires budget { 1 ≤ budget }
        ensures says { IfOk result (λ a. a ≡ says self.now expert.now problem.now budget) }
        // A plan is good and as short as the least, and every other answer is the one that is due.
        ensures fits { IfOk result (λ answer. Fits expert.now problem.now budget answer) };
}
