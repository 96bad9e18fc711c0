//! The text of an answer.
ghost use Rattle.std.specs.Prelude.{◌≡◌, ◌++◌, codes, IfOk, OnOk};
ghost use Rattle.ps_action.specs.Plans.{timed};
ghost use Rattle.ps_plan.specs.PlanText.{plan_text};
ghost use Rattle.ps_planned.specs.Planned.{found_status, found_text, line_of, planner_at};

use ps_action::{Act, PlanStep};
use ps_domain::Expert;
use ps_journal::push_after;
use ps_plan::timed;
use ps_portfolio::Found;
use ps_problem::Problem;
use ps_text::Names;
use std::alloc::{AllocError, Global};

/// The name of the planner at a place.
pub fn planner_at(place: usize) -> &'static [u8]
    ensures { result.now ≡ planner_at place }
{
    match place {
        0 => b"levels",
        1 => b"landmarks",
        2 => b"goals",
        _ => b"",
    }
}

/// Adds words, and the end of their line.
fn push_line(words: &[u8], text: &mut Vec<u8>) -> Result<(), AllocError>
    ensures { OnOk result (text.new.items ≡ text.old.items ++ line_of words.now) }
{
    text.extend_from_slice(words)?;
    text.push(b'\n')?;
    Ok(())
}

/// A text that is one line.
pub fn line_of(alloc: Global, words: &[u8]) -> Result<Vec<u8>, AllocError>
    ensures { IfOk result (λ text. text.items ≡ line_of words.now) }
{
    let mut text = Vec::new(alloc);
    push_line(words, &mut text)?;
    Ok(text)
}

/// Adds steps, each on a line of its own.
fn push_steps(names: &Names, steps: &[PlanStep], text: &mut Vec<u8>) -> Result<(), AllocError>
    ensures { OnOk result (text.new.items ≡ text.old.items ++ plan_text names.now steps.now) }
{
    for step in steps {
        push_after(b"", step, names, text)?;
        text.push(b'\n')?;
    }
    Ok(())
}

/// The name of a planner in a comment, and the timed steps of its plan.
fn plan_of(
    alloc: Global,
    names: &Names,
    expert: &Expert,
    problem: &Problem,
    planner: &[u8],
    acts: &[Act],
) -> Result<Vec<u8>, AllocError>
    ensures { IfOk result (λ text. text.items
        ≡ line_of (codes "; " ++ planner.now) ++ plan_text names.now (timed expert.now problem.now acts.now)) }
{
    let steps = timed(alloc, expert, problem, acts)?;
    let mut text = Vec::new(alloc);
    text.extend_from_slice(b"; ")?;
    push_line(planner, &mut text)?;
    push_steps(names, &steps, &mut text)?;
    Ok(text)
}

/// What is told of a planner's answer: its plan, or one line that says why there is none.
pub fn found_text(
    alloc: Global,
    names: &Names,
    expert: &Expert,
    problem: &Problem,
    planner: &[u8],
    found: &Found,
) -> Result<Vec<u8>, AllocError>
    ensures { IfOk result (λ text. text.items
        ≡ found_text expert.now problem.now names.now planner.now found.now) }
{
    match found {
        Found::Plan(acts) => plan_of(alloc, names, expert, problem, planner, acts.as_slice()),
        Found::NoPlan => line_of(alloc, b"no plan"),
        Found::Spent => line_of(alloc, b"spent"),
        Found::TooMany => line_of(alloc, b"too many"),
    }
}

/// The status of an answer: 0 where it is a plan, else 1.
pub fn found_status(found: &Found) -> u8
    ensures { result ≡ found_status found.now }
{
    match found {
        Found::Plan(_) => 0,
        _ => 1,
    }
}
