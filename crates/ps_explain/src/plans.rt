//! Explaining plans: why one isn't valid, and why none is found.
ghost use Rattle.std.specs.Prelude.{◌≤◌};

use super::called::Called;
use super::scripts::{Script, script_of};
use super::sessions::{Teller, Watch};
use ps_action::{Act, Answer, PlanRefusal};
use ps_boxes::Boxed;
use ps_inputs::{Planning, Validation};
use ps_machine::{Input, Refusal};
use ps_plan::{Solver, read_plan};
use ps_planned::plan_told;
use ps_problem::Problem;
use ps_reasons::{PlanText, say_no_answer, say_plan_fault, say_text_fault};
use ps_remarks::Page;
use ps_solve::Forward;
use ps_text::{Files, Names};
use ps_validate::{Invalid, known_after, verdict};
use ps_world::Failure;
use std::alloc::{AllocError, Global};
use std::thread::Threads;

/// What is said where a plan is wanted and the script leaves no goal.
const NO_GOAL: &str = "the script: it leaves no goal; a line 'set goal CONDITION' sets one\n";

/// Says which lines of a script are bad and which edits are refused, and makes the others.
fn explain_edits(
    teller: &Teller<'_>,
    watch: &mut Watch,
    page: &mut Page,
) -> Result<(), AllocError> {
    let mut number: u32 = 0;
    for line in teller.input.lines.as_slice() {
        number = number.saturating_add(1);
        teller.edit(watch, number, line, page)?;
    }
    Ok(())
}

/// The acts of a plan's text, of which the names are in the table.
fn acts_in(alloc: Global, names: &mut Names, plan: &[u8]) -> Result<Vec<Act>, AllocError> {
    match read_plan(alloc, names, plan) {
        Ok(steps) => steps.iter().map(|step| step.act).collect(alloc),
        Err(Failure::Refused(_)) => Ok(Vec::new(alloc)),
        Err(Failure::OutOfMemory) => Err(AllocError),
    }
}

/// Says why a plan isn't valid.
fn say_invalid(
    teller: &Teller<'_>,
    problem: &Problem,
    acts: &[Act],
    text: &PlanText,
    wrong: Invalid,
    page: &mut Page,
) -> Result<(), AllocError> {
    match wrong {
        Invalid::Text(why) => say_text_fault(
            teller.alloc,
            text.file.as_str(),
            text.text.as_slice(),
            why,
            page,
        ),
        Invalid::Plan(PlanRefusal::NoGoal) => page.say(NO_GOAL),
        Invalid::Plan(why) => say_plan_fault(
            teller.alloc,
            teller.names,
            teller.expert,
            problem,
            acts,
            Some(text),
            why,
            page,
        ),
    }
}

/// What is known after the edits of an input, in a box.
fn known_in(alloc: Global, input: &Input) -> Result<Box<Problem>, AllocError> {
    let known = known_after(alloc, &input.domain, input.lines.as_slice())?;
    Ok(Box::new(alloc, known)?)
}

/// Why the plan of a validation isn't valid, if it isn't.
fn wrong_in(
    alloc: Global,
    names: &mut Names,
    input: &Input,
    plan: &[u8],
) -> Result<Option<Invalid>, AllocError> {
    // A look at the table tells that its texts are names, none twice.
    let _count = names.len();
    let known = known_in(alloc, input)?;
    verdict(alloc, names, &input.domain, &known, plan)
}

/// Says why a plan isn't valid, with the text of its file.
fn say_invalid_in(
    teller: &Teller<'_>,
    problem: &Problem,
    acts: &[Act],
    file: &str,
    plan: &[u8],
    wrong: Invalid,
    page: &mut Page,
) -> Result<(), AllocError> {
    let text = PlanText::of(teller.alloc, file, Vec::from_slice(teller.alloc, plan)?)?;
    say_invalid(teller, problem, acts, &text, wrong, page)
}

/// Makes a script's edits, saying what is wrong with them, and then says why a plan isn't valid, if it isn't.
fn explain_plan_from(
    teller: &Teller<'_>,
    watch: &mut Watch,
    acts: &[Act],
    file: &str,
    plan: &[u8],
    wrong: Option<Invalid>,
    page: &mut Page,
) -> Result<(), AllocError> {
    explain_edits(teller, watch, page)?;
    match wrong {
        Some(wrong) => say_invalid_in(teller, &watch.problem, acts, file, plan, wrong, page),
        None => Ok(()),
    }
}

/// Says what is wrong with a script's edits, and then why a plan isn't valid, if it isn't.
fn explain_plan(
    teller: &Teller<'_>,
    acts: &[Act],
    file: &str,
    plan: &[u8],
    wrong: Option<Invalid>,
    page: &mut Page,
) -> Result<(), AllocError> {
    let mut watch = Watch::new(teller.alloc, teller.expert)?;
    explain_plan_from(teller, &mut watch, acts, file, plan, wrong, page)
}

/// Says what is wrong with the edits of a script that is read and with the text of a plan.
fn explain_plan_over(
    alloc: Global,
    called: &Called<'_>,
    validation: &mut Validation,
    script: &Script,
    page: &mut Page,
) -> Result<(), AllocError> {
    let names = &mut validation.names;
    let input = &validation.input;
    let plan = validation.plan.as_slice();
    let wrong = wrong_in(alloc, names, input, plan)?;
    let acts = acts_in(alloc, names, plan)?;
    let teller = Teller {
        alloc,
        names,
        input,
        expert: &input.domain,
        sources: &script.sources,
        plans: script.plans.as_slice(),
        members: &[],
    };
    let file = called.other.unwrap_or("");
    explain_plan(&teller, acts.as_slice(), file, plan, wrong, page)
}

/// Says what is wrong with a script's edits and with the text of a plan, which is read by the names of the validation.
fn explain_validation_in<F: Files>(
    alloc: Global,
    called: &Called<'_>,
    validation: &mut Validation,
    files: &mut F,
    page: &mut Page,
) -> Result<(), AllocError> {
    let script = script_of(alloc, called, files)?;
    explain_plan_over(alloc, called, validation, &script, page)
}

/// Says what is wrong with a script's edits and with the text of a plan.
pub fn explain_validation<F: Files>(
    alloc: Global,
    called: &Called<'_>,
    validation: Boxed<Validation>,
    files: &mut F,
    page: &mut Page,
) -> Result<(), AllocError> {
    let mut validation = validation.into_inner();
    explain_validation_in(alloc, called, &mut validation, files, page)
}

/// Why a solver has no plan, if it has none.
fn unplanned(answer: &Answer) -> Option<Refusal> {
    match answer {
        Answer::Plan(_) => None,
        Answer::NoPlan => Some(Refusal::NoPlan),
        Answer::Spent { depth } => Some(Refusal::Spent(*depth)),
        Answer::TooMany => Some(Refusal::TooMany),
    }
}

/// What is said of a goal for which there is no plan.
fn goal_words(why: Refusal) -> &'static [u8] {
    match why {
        Refusal::NoPlan => b"no plan reaches this goal",
        Refusal::TooMany => b"there are more than 50000 ground actions",
        _ => {
            b"none of three searches found a plan for this goal; of the one that goes level by level:"
        }
    }
}

/// Says why there is no plan for what is known.
fn say_unplanned(
    teller: &Teller<'_>,
    watch: &Watch,
    why: Refusal,
    page: &mut Page,
) -> Result<(), AllocError> {
    teller.say_of_goal(watch, goal_words(why), page)?;
    let budget = teller.input.budget;
    say_no_answer(
        teller.names,
        teller.expert,
        &watch.problem,
        budget,
        why,
        page,
    )
}

/// Whether one of three planners finds a plan for what is known, each of which may reach so many states.
fn is_planned<R: Threads + Sync>(
    rt: &R,
    teller: &Teller<'_>,
    problem: &Problem,
    budget: u32,
) -> Result<bool, AllocError>
    requires { 1 ≤ budget }
{
    let told = plan_told(
        rt,
        teller.alloc,
        teller.names,
        teller.expert,
        problem,
        budget,
    )?;
    Ok(told.status == 0)
}

/// Says why three planners find no plan for what is known, if they find none.
fn explain_plans<R: Threads + Sync>(
    rt: &R,
    teller: &Teller<'_>,
    watch: &Watch,
    page: &mut Page,
) -> Result<(), AllocError> {
    let problem = &watch.problem;
    if problem.goal().is_none() {
        return page.say(NO_GOAL);
    }
    // A call that plans asks for one state at least.
    let budget = teller.input.budget;
    if budget == 0 || is_planned(rt, teller, problem, budget)? {
        return Ok(());
    }
    let answer = Forward::new().solve(teller.alloc, teller.expert, problem, budget)?;
    match unplanned(&answer) {
        Some(why) => say_unplanned(teller, watch, why, page),
        None => Ok(()),
    }
}

/// Makes a script's edits, saying what is wrong with them, and then says why three planners find no plan, if they find none.
fn explain_plans_from<R: Threads + Sync>(
    rt: &R,
    teller: &Teller<'_>,
    watch: &mut Watch,
    page: &mut Page,
) -> Result<(), AllocError> {
    explain_edits(teller, watch, page)?;
    explain_plans(rt, teller, watch, page)
}

/// Says what is wrong with a script's edits, and why three planners find no plan after them over a domain, if they find none.
fn explain_planning_over<R: Threads + Sync>(
    rt: &R,
    teller: &Teller<'_>,
    page: &mut Page,
) -> Result<(), AllocError> {
    let mut watch = Watch::new(teller.alloc, teller.expert)?;
    explain_plans_from(rt, teller, &mut watch, page)
}

/// Says what is wrong with a script's edits, and why three planners find no plan after them, if they find none.
pub fn explain_planning<R: Threads + Sync, F: Files>(
    rt: &R,
    alloc: Global,
    called: &Called<'_>,
    planning: &Planning,
    files: &mut F,
    page: &mut Page,
) -> Result<(), AllocError> {
    let script = script_of(alloc, called, files)?;
    let teller = Teller {
        alloc,
        names: &planning.names,
        input: &planning.input,
        expert: &planning.input.domain,
        sources: &script.sources,
        plans: script.plans.as_slice(),
        members: &[],
    };
    explain_planning_over(rt, &teller, page)
}
