//! Planners.
ghost use Rattle.std.specs.Prelude.{◌≡◌, ◌≤◌, ℕ, IfOk, IsSome};

use ps_domain::Expert;
use ps_greedy::Found;
use ps_problem::Problem;
use std::alloc::{AllocError, Global};

/// Something that finds plans, in whichever way.
pub trait Planner {
    ghost use Rattle.ps_world.specs.declared.domains.Domain.{Domain as DomainView};
    ghost use Rattle.ps_world.specs.declared.known.Knowledge.{Knowledge as KnowledgeView};
    ghost use Rattle.ps_greedy.specs.declared.found.Found.{Found as FoundView};
    ghost use Rattle.ps_greedy.specs.Laws.{IsSoundAnswer};

    /// What it answers of a domain and what is known in it, with a budget.
    ghost says: { Self → DomainView → KnowledgeView → ℕ → FoundView };

    /// A plan that reaches the goal, or why none is told.
    fn plan(
        &self,
        alloc: Global,
        expert: &Expert,
        problem: &Problem,
        budget: u32,
    ) -> Result<Found, AllocError>
        requires goal { IsSome problem.now.goal }
        requires budget { 1 ≤ budget }
        ensures says { IfOk result (λ f. f ≡ says self.now expert.now problem.now budget) }
        ensures sound { IfOk result (λ f. IsSoundAnswer expert.now problem.now f) };
}
