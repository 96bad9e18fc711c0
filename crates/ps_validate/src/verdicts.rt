//! What a plan is worth.
ghost use Rattle.std.specs.Prelude.{◌≡◌, ◌≤◌, length, IfOk, OnOk};
ghost use Rattle.ps_action.specs.Plans.{most_acts};
ghost use Rattle.ps_plan.specs.PlanText.{plan_fault};
ghost use Rattle.ps_text.specs.Names.{AreNames};
ghost use Rattle.ps_validate.specs.Verdicts.{acts_of, plan_wrong, text_wrong, verdict};

use ps_action::{Act, PlanRefusal, PlanStep, PlanTextRefusal};
use ps_domain::Expert;
use ps_plan::{check_plan, read_plan};
use ps_problem::Problem;
use ps_text::Names;
use ps_world::Failure;
use std::alloc::{AllocError, Global};

/// Why a plan isn't valid.
#[derive(Clone, Copy, PartialEq, Eq, Debug)]
pub enum Invalid {
    /// Its text is none of a plan.
    Text(PlanTextRefusal),
    /// There is no goal, or it isn't good.
    Plan(PlanRefusal),
}

/// The acts of steps, in their order.
fn acts_of(alloc: Global, steps: &[PlanStep]) -> Result<Vec<Act>, AllocError>
    ensures { IfOk result (λ v. v.items ≡ acts_of steps.now) }
{
    let mut acts = Vec::with_capacity(alloc, steps.len())?;
    for step in steps {
        acts.push(step.act)?;
    }
    Ok(acts)
}

/// What is wrong with the plan of these acts, if something is.
fn plan_wrong(
    alloc: Global,
    expert: &Expert,
    problem: &Problem,
    steps: &[PlanStep],
) -> Result<Option<Invalid>, AllocError>
    requires { length steps.now ≤ most_acts }
    ensures { IfOk result (λ wrong. wrong ≡ plan_wrong expert.now problem.now steps.now) }
{
    let acts = acts_of(alloc, steps)?;
    match check_plan(expert, problem, &acts) {
        Ok(()) => Ok(None),
        Err(Failure::Refused(fault)) => Ok(Some(Invalid::Plan(fault))),
        Err(Failure::OutOfMemory) => Err(AllocError),
    }
}

/// What is wrong with the text of a plan, if something is, where there is a goal. The names of a text of a plan are put into the
/// table.
fn text_wrong(
    alloc: Global,
    names: &mut Names,
    expert: &Expert,
    problem: &Problem,
    plan: &[u8],
) -> Result<Option<Invalid>, AllocError>
    requires { AreNames names.old }
    ensures verdict { IfOk result (λ wrong. (wrong, names.new)
        ≡ text_wrong expert.now problem.now names.old plan.now (plan_fault plan.now)) }
    ensures names { OnOk result (AreNames names.new) }
{
    match read_plan(alloc, names, plan) {
        Ok(steps) => plan_wrong(alloc, expert, problem, &steps),
        Err(Failure::Refused(fault)) => Ok(Some(Invalid::Text(fault))),
        Err(Failure::OutOfMemory) => Err(AllocError),
    }
}

/// What is wrong with the text of a plan, if something is: there is no goal, the text is none of a plan, or the plan isn't good.
/// The names of a text of a plan are put into the table.
pub fn verdict(
    alloc: Global,
    names: &mut Names,
    expert: &Expert,
    problem: &Problem,
    plan: &[u8],
) -> Result<Option<Invalid>, AllocError>
    requires { AreNames names.old }
    ensures verdict { IfOk result (λ wrong. (wrong, names.new)
        ≡ verdict expert.now problem.now names.old plan.now) }
    ensures names { OnOk result (AreNames names.new) }
{
    match problem.goal() {
        None => Ok(Some(Invalid::Plan(PlanRefusal::NoGoal))),
        Some(_) => text_wrong(alloc, names, expert, problem, plan),
    }
}
