//! What the solver is asked, and what plans are judged.
ghost use Rattle.std.specs.Prelude.{◌≡◌, ◌≤◌, length, is_none, is_ok, IfOk, IsTrue};
ghost use Rattle.ps_world.specs.Failures.{Gives};
ghost use Rattle.ps_action.specs.Grounding.{ground_act};
ghost use Rattle.ps_action.specs.Plans.{judged};
ghost use Rattle.ps_action.specs.Search.{Fits};
ghost use Rattle.ps_rules.specs.Legal.{is_as_long, is_plan};
ghost use Rattle.ps_rules.specs.Lines.{ground_refusal, plan_refusal, refusal_of_goal};
ghost use Rattle.ps_rules.specs.Settled.{given_up};
ghost use Rattle.ps_rules.specs.Lines.{unplanned};
ghost use Rattle.ps_state.specs.Awaiting.{MayBePlan};
ghost use Rattle.ps_legal.specs.Plans.{ending_of, HasGoal};

use ps_action::{Act, Answer, Known};
use ps_domain::Expert;
use ps_machine::{Outcome, Refusal};
use ps_plan::{Solver, check_plan};
use ps_problem::Problem;
use ps_world::Failure;
use std::alloc::{AllocError, Global};

/// Why these acts are no good plan, if they aren't.
pub fn plan_refusal(
    expert: &Expert,
    problem: &Problem,
    acts: &[Act],
) -> Result<Option<Refusal>, AllocError>
    requires { length acts.now ≤ 256 }
    ensures { IfOk result
        (λ why. why ≡ plan_refusal (judged expert.now problem.now acts.now)) }
{
    match check_plan(expert, problem, acts) {
        Ok(()) => Ok(None),
        Err(Failure::Refused(refusal)) => Ok(Some(Refusal::Plan(refusal))),
        Err(Failure::OutOfMemory) => Err(AllocError),
    }
}

/// Whether these acts are a good plan.
pub fn is_good(expert: &Expert, problem: &Problem, acts: &[Act]) -> Result<bool, AllocError>
    requires { length acts.now ≤ 256 }
    ensures good { IfOk result (λ b. b ≡ is_ok (judged expert.now problem.now acts.now)) }
    ensures may { IfOk result (λ b. IsTrue b → MayBePlan expert.now problem.now acts.now) }
{
    match check_plan(expert, problem, acts) {
        Ok(()) => Ok(true),
        Err(Failure::Refused(_)) => Ok(false),
        Err(Failure::OutOfMemory) => Err(AllocError),
    }
}

/// Why an act can't be grounded, if it can't.
pub fn ground_refusal(expert: &Expert, problem: &Problem, act: &Act) -> Option<Refusal>
    ensures { result ≡ ground_refusal (ground_act expert.now problem.now.instances act.now) }
{
    match expert.groundable(Known::instances(problem), act) {
        Ok(_) => None,
        Err(refusal) => Some(Refusal::Ground(refusal)),
    }
}

/// Whether an act can be grounded.
pub fn can_ground(expert: &Expert, problem: &Problem, act: &Act) -> bool
    ensures { result ≡ is_ok (ground_act expert.now problem.now.instances act.now) }
{
    expert.groundable(Known::instances(problem), act).is_ok()
}

fn given_up(answer: &Answer) -> Option<Outcome>
    ensures { result ≡ given_up answer.now }
{
    match answer {
        Answer::Plan(_) => None,
        Answer::NoPlan => Some(Outcome::NoPlan),
        Answer::Spent { depth } => Some(Outcome::Spent(*depth)),
        Answer::TooMany => Some(Outcome::TooMany),
    }
}

fn unplanned(answer: &Answer) -> Option<Refusal>
    ensures { result ≡ unplanned answer.now }
{
    match answer {
        Answer::Plan(_) => None,
        Answer::NoPlan => Some(Refusal::NoPlan),
        Answer::Spent { depth } => Some(Refusal::Spent(*depth)),
        Answer::TooMany => Some(Refusal::TooMany),
    }
}

/// Whether there is no goal.
pub fn lacks_goal(problem: &Problem) -> bool
    ensures { result ≡ is_none problem.now.goal }
{
    problem.goal().is_none()
}

/// Whether an answer is a plan of so many acts as these.
fn is_as_long(acts: &[Act], answer: &Answer) -> bool
    ensures { result ≡ is_as_long acts.now answer.now }
{
    match answer {
        Answer::Plan(least) => acts.len() == least.len(),
        _ => false,
    }
}

/// Whether these acts are a good plan as short as the least one.
pub fn is_plan<S: Solver>(
    alloc: Global,
    solver: &S,
    expert: &Expert,
    problem: &Problem,
    budget: u32,
    acts: &[Act],
) -> Result<bool, AllocError>
    requires { 1 ≤ budget }
    ensures plan { IfOk result (λ b. b ≡ is_plan expert.now problem.now budget acts.now) }
    ensures may { IfOk result (λ b. IsTrue b → MayBePlan expert.now problem.now acts.now) }
{
    if lacks_goal(problem) {
        return Ok(false);
    }
    let answer = solver.solve(alloc, expert, problem, budget)?;
    let good = is_plan_like(expert, problem, budget, acts, &answer)?;
    Ok(good)
}

/// Whether these acts are a good plan as short as the one that is answered.
fn is_plan_like(
    expert: &Expert,
    problem: &Problem,
    budget: u32,
    acts: &[Act],
    answer: &Answer,
) -> Result<bool, AllocError>
    requires { Fits expert.now problem.now budget answer.now }
    ensures plan { IfOk result (λ b. b ≡ is_plan expert.now problem.now budget acts.now) }
    ensures may { IfOk result (λ b. IsTrue b → MayBePlan expert.now problem.now acts.now) }
{
    if !is_as_long(acts, answer) {
        return Ok(false);
    }
    let good = is_good(expert, problem, acts)?;
    Ok(good)
}

/// Why no plan is made for the goal, if none is.
pub fn refusal_of_goal<S: Solver>(
    alloc: Global,
    solver: &S,
    expert: &Expert,
    problem: &Problem,
    budget: u32,
) -> Result<Option<Refusal>, AllocError>
    requires { 1 ≤ budget }
    ensures { IfOk result (λ why. why ≡ refusal_of_goal expert.now problem.now budget) }
{
    if lacks_goal(problem) {
        return Ok(Some(Refusal::NoGoal));
    }
    let answer = solver.solve(alloc, expert, problem, budget)?;
    Ok(unplanned(&answer))
}

/// How a run with this verdict ends, where there is a goal if the solver is asked; nothing where a plan is good.
pub fn ending<S: Solver>(
    alloc: Global,
    solver: &S,
    expert: &Expert,
    problem: &Problem,
    budget: u32,
    verdict: Option<Outcome>,
) -> Result<Option<Outcome>, AllocError>
    requires budget { 1 ≤ budget }
    ensures { IfOk result (λ how. HasGoal verdict problem.now
        → how ≡ ending_of expert.now problem.now budget verdict) }
{
    if verdict.is_some() {
        return Ok(verdict);
    }
    if lacks_goal(problem) {
        return Ok(None);
    }
    let answer = solver.solve(alloc, expert, problem, budget)?;
    Ok(given_up(&answer))
}
