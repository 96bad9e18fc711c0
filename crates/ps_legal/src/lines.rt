//! Why a line is refused, and edits that are made.
ghost use Rattle.std.specs.Prelude.{◌≡◌, ◌≤◌, length, is_ok, IfOk, IsSome, IsTrue, Ok};
ghost use Rattle.ps_world.specs.Knowledge.{edited};
ghost use Rattle.ps_rules.specs.Sound.{IsSoundLine};
ghost use Rattle.ps_rules.specs.Lines.{acts_of, line_refusal, refusal_of_query, refusal_of_steps};
ghost use Rattle.ps_legal.specs.Lines.{Refuses};

use super::plans::{ground_refusal, lacks_goal, plan_refusal, refusal_of_goal};
use ps_action::{Act, PlanStep, PlanTextRefusal};
use ps_domain::Expert;
use ps_machine::{Command, Line, Query, Refusal};
use ps_plan::Solver;
use ps_problem::Problem;
use ps_world::{Edit, EditRefusal, Failure, Seq};
use std::alloc::{AllocError, Global};

/// Makes an edit, or tells why it is refused; then nothing has changed.
pub fn make_edit(
    expert: &Expert,
    problem: &mut Problem,
    edit: &Edit,
) -> Result<Option<EditRefusal>, AllocError>
    ensures { Refuses expert.now edit.now problem.old result problem.new }
{
    match problem.edit(expert, edit) {
        Ok(_) => Ok(None),
        Err(Failure::Refused(refusal)) => Ok(Some(refusal)),
        Err(Failure::OutOfMemory) => Err(AllocError),
    }
}

/// Whether an edit is accepted. Then it has been made.
pub fn accepts(expert: &Expert, problem: &mut Problem, edit: &Edit) -> Result<bool, AllocError>
    ensures accepts { IfOk result
        (λ b. b ≡ is_ok (edited expert.now problem.old edit.now)) }
    ensures made { IfOk result
        (λ b. IsTrue b → edited expert.now problem.old edit.now ≡ Ok problem.new) }
{
    match problem.edit(expert, edit) {
        Ok(_) => Ok(true),
        Err(Failure::Refused(_)) => Ok(false),
        Err(Failure::OutOfMemory) => Err(AllocError),
    }
}

/// The acts of a plan's steps.
pub fn acts_of(alloc: Global, steps: &[PlanStep]) -> Result<Vec<Act>, AllocError>
    ensures { IfOk result (λ acts. acts.items ≡ acts_of steps.now) }
{
    let mut acts = Vec::new(alloc);
    for step in steps {
        acts.push(step.act)?;
    }
    Ok(acts)
}

/// Why the plan of a file isn't run, if it isn't.
pub fn refusal_of_steps(
    alloc: Global,
    expert: &Expert,
    problem: &Problem,
    steps: &Result<Seq<PlanStep>, PlanTextRefusal>,
) -> Result<Option<Refusal>, AllocError>
    requires { IfOk steps.now (λ plan. length plan ≤ 256) }
    ensures { IfOk result (λ why. why ≡ refusal_of_steps expert.now problem.now steps.now) }
{
    if lacks_goal(problem) {
        return Ok(Some(Refusal::NoGoal));
    }
    match steps {
        Ok(plan) => {
            let acts = acts_of(alloc, plan.as_slice())?;
            plan_refusal(expert, problem, &acts)
        }
        Err(why) => Ok(Some(Refusal::PlanText(*why))),
    }
}

/// Why a query is refused, if it is, where a run was opened before or none was.
pub fn refusal_of_query<S: Solver>(
    alloc: Global,
    solver: &S,
    expert: &Expert,
    problem: &Problem,
    budget: u32,
    run: bool,
    query: Query,
) -> Result<Option<Refusal>, AllocError>
    requires { 1 ≤ budget }
    ensures { IfOk result
        (λ why. why ≡ refusal_of_query expert.now problem.now budget run query) }
{
    match query {
        Query::ModelPredicate(name) => Ok(if expert.predicate(name).is_none() {
            Some(Refusal::NoPredicate)
        } else {
            None
        }),
        Query::ModelAction(name) => Ok(if expert.action(name).is_none() {
            Some(Refusal::NoAction)
        } else {
            None
        }),
        Query::Plan => refusal_of_goal(alloc, solver, expert, problem, budget),
        Query::Tree => Ok(if run { None } else { Some(Refusal::NoRun) }),
        _ => Ok(None),
    }
}

/// Why a line is refused, if it is, where a run was opened before or none was. An edit that isn't refused is made.
pub fn line_refusal<S: Solver>(
    alloc: Global,
    solver: &S,
    expert: &Expert,
    problem: &mut Problem,
    budget: u32,
    run: bool,
    line: &Line,
) -> Result<Option<Refusal>, AllocError>
    requires budget { 1 ≤ budget }
    requires sound { IsSoundLine line.now }
    ensures why { IfOk result
        (λ why. why ≡ line_refusal expert.now problem.old budget run line.now) }
    ensures kept { IfOk result (λ why. IsSome why → problem.new ≡ problem.old) }
{
    match line {
        Line::Bad(cause) => Ok(Some(Refusal::Line(*cause))),
        Line::Good(Command::Edit(edit)) => match make_edit(expert, problem, edit)? {
            Some(refusal) => Ok(Some(Refusal::Edit(refusal))),
            None => Ok(None),
        },
        Line::Good(Command::Ask(query)) => {
            refusal_of_query(alloc, solver, expert, problem, budget, run, *query)
        }
        Line::Good(Command::Run) => refusal_of_goal(alloc, solver, expert, problem, budget),
        Line::Good(Command::RunAction(act)) => Ok(ground_refusal(expert, problem, act)),
        Line::Good(Command::RunPlan(steps)) => refusal_of_steps(alloc, expert, problem, steps),
        Line::Good(Command::Quit) => Ok(None),
    }
}
