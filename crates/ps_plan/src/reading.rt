//! Reading the text of a plan.
ghost use Rattle.std.specs.Prelude.{◌≡◌, ◌≤◌, [], length, None, All, IfOk, OnOk, OnErr};
ghost use Rattle.ps_text.specs.Names.{AreNames, Keeps};
ghost use Rattle.ps_plan.specs.PlanText.{IsStepOf, ReadsPlan, plan_fault, planned, said_by};

use super::faults::plan_fault;
use super::lines::{first_line, says};
use super::steps::{place, step_of};
use ps_action::{PlanStep, PlanTextRefusal};
use ps_text::Names;
use ps_world::Failure;
use std::alloc::{AllocError, Global};

/// The steps that the lines of a text without a fault say, in the order of time. Their names are put into the table; after an error
/// some of them may be there.
fn read_steps(alloc: Global, names: &mut Names, bytes: &[u8]) -> Result<Vec<PlanStep>, AllocError>
    requires { plan_fault bytes.now ≡ None }
    ensures steps { IfOk result (λ steps. planned names.old [] (said_by bytes.now)
        ≡ (steps.items, names.new)) }
    ensures kept { Keeps names.old names.new }
{
    let mut steps = Vec::new(alloc);
    let mut rest = bytes;
    while !rest.is_empty() {
        let (line, after) = first_line(rest);
        if let Some(said) = says(line) {
            place(step_of(names, &said)?, &mut steps)?;
        }
        rest = after;
    }
    Ok(steps)
}

/// The same steps; after an error the table is as it was.
fn read_all_steps(
    alloc: Global,
    names: &mut Names,
    bytes: &[u8],
) -> Result<Vec<PlanStep>, AllocError>
    requires { plan_fault bytes.now ≡ None }
    ensures steps { IfOk result (λ steps. planned names.old [] (said_by bytes.now)
        ≡ (steps.items, names.new)) }
    ensures err { OnErr result (names.new ≡ names.old) }
{
    let known = names.len();
    let steps = read_steps(alloc, names, bytes);
    if steps.is_err() {
        names.cut_back(known);
    }
    steps
}

/// The plan that a text is, its steps in the order of time. Steps of equal times keep the order of the text.
///
/// A line says a step as `TIME: (ACTION NAME*) [DURATION]`, with at most 6 names, and numbers that aren't negative. Blank lines, and lines
/// whose first byte is `;`, say nothing. The names are put into the table in the order of the text.
///
/// It refuses the first line that is out of the grammar (`Line`), or that says the 257th step (`Long`), whichever comes first, and
/// then changes nothing. Memory runs out only where no line is at fault.
pub fn read_plan(
    alloc: Global,
    names: &mut Names,
    bytes: &[u8],
) -> Result<Vec<PlanStep>, Failure<PlanTextRefusal>>
    ensures reads { ReadsPlan names.old bytes.now result names.new }
    ensures few { IfOk result (λ steps. length steps.items ≤ 256) }
    ensures named { IfOk result (λ steps. All (IsStepOf (length names.new)) steps.items) }
    ensures grows { OnOk result (length names.old ≤ length names.new) }
    ensures names { OnOk result (AreNames names.new) }
{
    if let Some(fault) = plan_fault(bytes) {
        return Err(Failure::Refused(fault));
    }
    let steps = read_all_steps(alloc, names, bytes)?;
    // A table tells that its texts are names.
    let _count = names.len();
    Ok(steps)
}
