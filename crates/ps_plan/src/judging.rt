//! Judging a plan, one action after another.
ghost use Rattle.std.specs.Prelude.{◌≡◌, ◌≤◌, length, Some};
ghost use Rattle.ps_world.specs.Failures.{Gives};
ghost use Rattle.ps_action.specs.Grounding.{ground_act};
ghost use Rattle.ps_action.specs.Plans.{after_steps, judged_by, most_acts, step, step_of};
ghost use Rattle.ps_action.specs.declared.refusals.PlanRefusal.TheVariants.{Ground, StartEffect, EndEffect};
ghost use Rattle.ps_plan.specs.Judging.{Judges, failing};

use ps_action::{Act, EffectRefusal, GroundAction, GroundRefusal, Known, PlanRefusal};
use ps_domain::Expert;
use ps_eval::{apply, holds, holds_all};
use ps_problem::Problem;
use ps_world::{Cond, Failure};

/// Why the act of a step isn't grounded, as a failure of the plan.
fn ground_fault(at: u32, failure: Failure<GroundRefusal>) -> Failure<PlanRefusal>
    ensures { result ≡ failing (Ground at) failure }
{
    match failure {
        Failure::Refused(refusal) => Failure::Refused(PlanRefusal::Ground(at, refusal)),
        Failure::OutOfMemory => Failure::OutOfMemory,
    }
}

/// Why the start effects of a step aren't made, as a failure of the plan.
fn start_fault(at: u32, failure: Failure<EffectRefusal>) -> Failure<PlanRefusal>
    ensures { result ≡ failing (StartEffect at) failure }
{
    match failure {
        Failure::Refused(refusal) => Failure::Refused(PlanRefusal::StartEffect(at, refusal)),
        Failure::OutOfMemory => Failure::OutOfMemory,
    }
}

/// Why the end effects of a step aren't made, as a failure of the plan.
fn end_fault(at: u32, failure: Failure<EffectRefusal>) -> Failure<PlanRefusal>
    ensures { result ≡ failing (EndEffect at) failure }
{
    match failure {
        Failure::Refused(refusal) => Failure::Refused(PlanRefusal::EndEffect(at, refusal)),
        Failure::OutOfMemory => Failure::OutOfMemory,
    }
}

/// Makes a step of a ground action. After a refusal the problem may have changed.
pub(crate) fn take_ground_step(
    expert: &Expert,
    problem: &mut Problem,
    at: u32,
    action: &GroundAction,
) -> Result<(), Failure<PlanRefusal>>
    ensures { Gives (λ done. problem.new) result (step_of expert.now problem.old at action.now) }
{
    if !holds_all(problem, expert, &action.conditions.at_start) {
        return Err(Failure::Refused(PlanRefusal::StartFalse(at)));
    }
    if let Err(failure) = apply(problem, expert, action.effects.at_start.as_slice()) {
        return Err(start_fault(at, failure));
    }
    if !holds_all(problem, expert, &action.conditions.over_all) {
        return Err(Failure::Refused(PlanRefusal::OverAllFalse(at)));
    }
    if !holds_all(problem, expert, &action.conditions.at_end) {
        return Err(Failure::Refused(PlanRefusal::EndFalse(at)));
    }
    if let Err(failure) = apply(problem, expert, action.effects.at_end.as_slice()) {
        return Err(end_fault(at, failure));
    }
    Ok(())
}

/// The ground action of an act, among the instances that are known.
pub(crate) fn ground(
    expert: &Expert,
    problem: &Problem,
    act: &Act,
) -> Result<GroundAction, Failure<GroundRefusal>>
    ensures { Gives (λ g. g) result (ground_act expert.now problem.now.instances act.now) }
{
    expert.ground(Known::instances(problem), act)
}

/// Makes a step. After a refusal the problem may have changed.
fn take_step(
    expert: &Expert,
    problem: &mut Problem,
    at: u32,
    act: &Act,
) -> Result<(), Failure<PlanRefusal>>
    ensures { Gives (λ done. problem.new) result (step expert.now problem.old at act.now) }
{
    match ground(expert, problem, act) {
        Ok(action) => take_ground_step(expert, problem, at, &action),
        Err(failure) => Err(ground_fault(at, failure)),
    }
}

/// Makes the steps of a plan, one after another. After a refusal the problem may have changed.
fn take_steps(
    expert: &Expert,
    problem: &mut Problem,
    acts: &[Act],
) -> Result<(), Failure<PlanRefusal>>
    requires { length acts.now ≤ most_acts }
    ensures { Gives (λ done. problem.new) result (after_steps expert.now problem.old 0 acts.now) }
{
    let mut at = 0;
    for act in acts {
        take_step(expert, problem, at, act)?;
        at += 1;
    }
    Ok(())
}

/// Makes the steps of a plan, and looks at the goal after the last. After a refusal the problem may have changed.
fn reach(
    expert: &Expert,
    problem: &mut Problem,
    goal: &Cond,
    acts: &[Act],
) -> Result<(), Failure<PlanRefusal>>
    requires { length acts.now ≤ most_acts }
    ensures { Gives (λ done. problem.new) result
        (judged_by expert.now problem.old (Some goal.now) acts.now) }
{
    take_steps(expert, problem, acts)?;
    if holds(problem, expert, goal) {
        Ok(())
    } else {
        Err(Failure::Refused(PlanRefusal::GoalFalse))
    }
}

/// Judges a plan of at most 256 acts: each step is taken after the one before it, and the goal has to hold after the last.
///
/// The first fault in this order: `NoGoal`; for each step `Ground` where its act can't be grounded, `StartFalse`, `StartEffect`,
/// `OverAllFalse` and `EndFalse` after the start effects, `EndEffect`; `GoalFalse`. Steps are counted from 0. Memory may run
/// out in place of any answer.
pub fn check_plan(
    expert: &Expert,
    problem: &Problem,
    acts: &[Act],
) -> Result<(), Failure<PlanRefusal>>
    requires { length acts.now ≤ most_acts }
    ensures { Judges expert.now problem.now acts.now result }
{
    match problem.goal() {
        None => Err(Failure::Refused(PlanRefusal::NoGoal)),
        Some(goal) => {
            let mut last = problem.copy()?;
            reach(expert, &mut last, goal, acts)
        }
    }
}
