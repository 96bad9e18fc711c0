//! A search over anything that expands what is known.
ghost use Rattle.std.specs.Prelude.{◌≡◌, ◌≢◌, IfOk};
ghost use Rattle.ps_action.specs.Plans.{most_acts};
ghost use Rattle.ps_action.specs.Search.{answer};
ghost use Rattle.ps_action.specs.declared.answers.Answer.TheVariants.{TooMany};
ghost use Rattle.ps_expand.specs.Trees.{MaySearch};
ghost use Rattle.ps_solve.specs.Endings.{searched};
ghost use Rattle.ps_solve.specs.Spaces.{answer_of};
ghost use Rattle.ps_solve_laws.specs.Frugal.{IsFrugalAnswer};

use ps_action::{Act, Answer};
use ps_expand::{Expand, search_from};
use ps_levels::Found;
use ps_problem::Problem;
use ps_solve::Forward;
use ps_world::Seq;
use std::alloc::AllocError;

/// The most acts of a plan.
const MOST_ACTS: u32 = 256;

/// A search over anything that expands what is known.
pub trait Search {
    /// The answer for a problem with the instances and the goal of what expands. Where that is given at a depth, no more is expanded than is
    /// reached before it. The only error is want of memory.
    fn search<X: Expand>(
        &self,
        expander: &mut X,
        problem: &Problem,
        budget: u32,
    ) -> Result<Answer, AllocError>
        requires { MaySearch (X.instances expander.old) (X.goal expander.old)
            (X.count expander.old) problem.now budget }
        ensures answer { IfOk result (λ a. a ≡ answer (X.domain expander.old) problem.now budget) }
        ensures told { IfOk result (λ a. a ≢ TooMany) }
        ensures frugal { IfOk result (λ a. IsFrugalAnswer (X.domain expander.old) problem.now
            budget (X.count expander.old) (X.count expander.new) a) }
        ensures domain { X.domain expander.new ≡ X.domain expander.old }
        ensures instances { X.instances expander.new ≡ X.instances expander.old }
        ensures goal { X.goal expander.new ≡ X.goal expander.old };
}

/// The answer where this is found.
fn answer_of(found: Found<Seq<Act>>) -> Answer
    ensures { result ≡ answer_of found }
{
    match found {
        Found::Path(acts) => Answer::Plan(acts),
        Found::Nowhere => Answer::NoPlan,
        Found::Spent(depth) => Answer::Spent { depth },
    }
}

/// The answer where a plan has at most so many acts.
fn search_to<X: Expand>(
    expander: &mut X,
    problem: &Problem,
    budget: u32,
    most: u32,
) -> Result<Answer, AllocError>
    requires search { MaySearch (X.instances expander.old) (X.goal expander.old)
        (X.count expander.old) problem.now budget }
    requires most { most ≡ most_acts }
    ensures answer { IfOk result (λ a. a ≡ answer (X.domain expander.old) problem.now budget) }
    ensures told { IfOk result (λ a. a ≢ TooMany) }
    ensures frugal { IfOk result (λ a. IsFrugalAnswer (X.domain expander.old) problem.now
        budget (X.count expander.old) (X.count expander.new) a) }
    ensures domain { X.domain expander.new ≡ X.domain expander.old }
    ensures instances { X.instances expander.new ≡ X.instances expander.old }
    ensures goal { X.goal expander.new ≡ X.goal expander.old }
{
    let found = search_from(expander, problem, budget, most)?;
    Ok(answer_of(found))
}

impl Search for Forward {
    fn search<X: Expand>(
        &self,
        expander: &mut X,
        problem: &Problem,
        budget: u32,
    ) -> Result<Answer, AllocError> {
        search_to(expander, problem, budget, MOST_ACTS)
    }
}
