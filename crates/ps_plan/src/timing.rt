//! The times of a plan.
ghost use Rattle.std.specs.Prelude.{◌≡◌, ◌∷◌, ◌++◌, List, pos, All, IfOk, OnOk};
ghost use Rattle.ps_action.specs.Plans.{time_after, timed, timed_from};
ghost use Rattle.ps_action.specs.declared.acts.Act.{Act as ActView};
ghost use Rattle.ps_plan.specs.Timing.{IsInRange, timed_ground, timed_on};

use super::judging::{ground, take_ground_step};
use ps_action::{Act, GroundAction, PlanStep};
use ps_domain::Expert;
use ps_eval::duration;
use ps_problem::Problem;
use ps_world::{Failure, MOST_THOUSANDTHS, Num};
use std::alloc::{AllocError, Global};

/// The time of a step after one at this time and with this duration: a thousandth lies between them, and no time passes the
/// greatest number.
fn time_after(time: Num, lasting: Num) -> Num
    ensures { result ≡ time_after time lasting }
{
    if time.milli() < 0 || lasting.milli() < 0 {
        return time;
    }
    let next = time.milli() + lasting.milli() + 1;
    match Num::new(next.min(MOST_THOUSANDTHS as i64)) {
        Some(number) => number,
        None => unreachable!(),
    }
}

/// Puts the step of a ground action at the end and makes it. The answer is the time of a step after it, or None where it fails.
fn push_ground_step(
    expert: &Expert,
    problem: &mut Problem,
    time: Num,
    act: &Act,
    action: &GroundAction,
    steps: &mut Vec<PlanStep>,
) -> Result<Option<Num>, AllocError>
    ensures steps { IfOk result (λ next. (rest : List ActView)
        → steps.new.items ++ timed_on expert.now problem.new next rest
        ≡ steps.old.items ++ timed_ground expert.now problem.old time act.now rest action.now) }
    ensures in_range { OnOk result (All IsInRange steps.old.items → All IsInRange steps.new.items) }
{
    let lasting = duration(problem, &action.duration);
    let step = PlanStep {
        time,
        act: *act,
        duration: lasting,
    };
    steps.push(step)?;
    match take_ground_step(expert, problem, 0, action) {
        Ok(()) => Ok(Some(time_after(time, lasting))),
        Err(Failure::Refused(_)) => Ok(None),
        Err(Failure::OutOfMemory) => Err(AllocError),
    }
}

/// The same of an act, which has to be grounded first.
fn push_step(
    expert: &Expert,
    problem: &mut Problem,
    time: Num,
    act: &Act,
    steps: &mut Vec<PlanStep>,
) -> Result<Option<Num>, AllocError>
    ensures steps { IfOk result (λ next. (rest : List ActView)
        → steps.new.items ++ timed_on expert.now problem.new next rest
        ≡ steps.old.items ++ timed_from expert.now problem.old time (act.now ∷ rest)) }
    ensures in_range { OnOk result (All IsInRange steps.old.items → All IsInRange steps.new.items) }
{
    match ground(expert, problem, act) {
        Ok(action) => push_ground_step(expert, problem, time, act, &action, steps),
        Err(Failure::Refused(_)) => Ok(None),
        Err(Failure::OutOfMemory) => Err(AllocError),
    }
}

/// Puts the steps of acts at the end, from the time 0 on, as far as no step fails.
fn push_steps(
    expert: &Expert,
    problem: &mut Problem,
    acts: &[Act],
    steps: &mut Vec<PlanStep>,
) -> Result<(), AllocError>
    ensures steps { OnOk result (steps.new.items
        ≡ steps.old.items ++ timed_from expert.now problem.old (pos 0) acts.now) }
    ensures in_range { OnOk result (All IsInRange steps.old.items → All IsInRange steps.new.items) }
{
    let mut time = Num::ZERO;
    for act in acts {
        match push_step(expert, problem, time, act, steps)? {
            Some(next) => time = next,
            None => return Ok(()),
        }
    }
    Ok(())
}

/// The steps of acts from the time 0 on, as far as no step fails.
fn steps_of(
    alloc: Global,
    expert: &Expert,
    problem: &mut Problem,
    acts: &[Act],
) -> Result<Vec<PlanStep>, AllocError>
    ensures steps { IfOk result (λ v. v.items ≡ timed expert.now problem.old acts.now) }
    ensures in_range { IfOk result (λ v. All IsInRange v.items) }
{
    let mut steps = Vec::new(alloc);
    push_steps(expert, problem, acts, &mut steps)?;
    Ok(steps)
}

/// The steps of a good plan: the first has the time 0, and each other one the time of the one before it, plus that one's duration,
/// plus a thousandth, but the greatest number where that is passed. A step's duration is what its action's says before the step.
/// Where a step fails, what comes after it is left out.
pub fn timed(
    alloc: Global,
    expert: &Expert,
    problem: &Problem,
    acts: &[Act],
) -> Result<Vec<PlanStep>, AllocError>
    ensures steps { IfOk result (λ v. v.items ≡ timed expert.now problem.now acts.now) }
    ensures in_range { IfOk result (λ v. All IsInRange v.items) }
{
    let mut last = problem.copy()?;
    steps_of(alloc, expert, &mut last, acts)
}
