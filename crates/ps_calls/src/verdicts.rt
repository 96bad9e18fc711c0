//! The line that a plan is answered with.
ghost use Rattle.std.specs.Prelude.{◌≡◌, ◌++◌, IfOk, OnOk};
ghost use Rattle.ps_calls.specs.Verdicts.{fault_text, plan_text, verdict_line, verdict_status, wrong_text};

use ps_action::{PlanRefusal, PlanTextRefusal};
use ps_journal::push_after;
use ps_text::Names;
use ps_validate::Invalid;
use std::alloc::{AllocError, Global};

/// The status of an answer: 0 where nothing is wrong with the plan, else 7.
pub fn verdict_status(wrong: &Option<Invalid>) -> u8
    ensures { result ≡ verdict_status wrong.now }
{
    match wrong {
        None => 0,
        Some(_) => 7,
    }
}

/// Adds why a plan isn't good.
fn push_plan_refusal(
    names: &Names,
    refusal: &PlanRefusal,
    text: &mut Vec<u8>,
) -> Result<(), AllocError>
    ensures { OnOk result (text.new.items ≡ text.old.items ++ plan_text names.now refusal.now) }
{
    match refusal {
        PlanRefusal::NoGoal => text.extend_from_slice(b"no goal"),
        PlanRefusal::GoalFalse => text.extend_from_slice(b"goal false"),
        _ => push_after(b"step ", refusal, names, text),
    }
}

/// Adds the line of a plan's text that is at fault.
fn push_text_refusal(
    names: &Names,
    refusal: &PlanTextRefusal,
    text: &mut Vec<u8>,
) -> Result<(), AllocError>
    ensures { OnOk result (text.new.items ≡ text.old.items ++ fault_text refusal.now) }
{
    match refusal {
        PlanTextRefusal::Line { n } | PlanTextRefusal::Long { n } => {
            push_after(b"plan line ", n, names, text)
        }
    }
}

/// The line that a plan is answered with: `valid`, or what is wrong with it.
pub fn verdict_line(
    alloc: Global,
    names: &Names,
    wrong: &Option<Invalid>,
) -> Result<Vec<u8>, AllocError>
    ensures { IfOk result (λ line. line.items ≡ verdict_line names.now wrong.now) }
{
    let mut line = Vec::new(alloc);
    match wrong {
        None => line.extend_from_slice(b"valid")?,
        Some(Invalid::Text(refusal)) => push_text_refusal(names, refusal, &mut line)?,
        Some(Invalid::Plan(refusal)) => push_plan_refusal(names, refusal, &mut line)?,
    }
    line.push(b'\n')?;
    Ok(line)
}
