//! The steps that lines say, with names by their numbers in a table.
ghost use Rattle.std.specs.Prelude.{◌≡◌, true, int_lt, position, IfOk, OnOk};
ghost use Rattle.ps_text.specs.Names.{Keeps};
ghost use Rattle.ps_plan.specs.PlanText.{fits, named_all, names_from, placed, step_of, table_after};

use super::lines::SaidLine;
use super::parts::Parts;
use ps_action::{Act, PlanStep};
use ps_text::Names;
use ps_world::{Args, MOST_ARGUMENTS, Name, Num};
use std::alloc::AllocError;

/// The names of a step's arguments, put into the table in their order.
fn args_of(names: &mut Names, parts: &Parts) -> Result<Args, AllocError>
    requires { fits parts.now ≡ true }
    ensures ok { IfOk result (λ args. args ≡ (named_all names.old (names_from parts.now 4)).0) }
    ensures table { OnOk result (names.new ≡ (named_all names.old (names_from parts.now 4)).1) }
    ensures kept { Keeps names.old names.new }
{
    let count = parts.len() - 8;
    let mut found = [Name::OBJECT; MOST_ARGUMENTS];
    for i in 0..count {
        found[i] = names.intern_name(parts.part(4 + i))?;
    }
    match Args::of(&found[..count]) {
        Some(args) => Ok(args),
        None => unreachable!(),
    }
}

/// The step that a line says. Its names are put into the table, the action and then its arguments.
pub fn step_of(names: &mut Names, said: &SaidLine) -> Result<PlanStep, AllocError>
    ensures ok { IfOk result (λ step. step ≡ step_of names.old said.now) }
    ensures table { OnOk result (names.new ≡ table_after names.old said.now) }
    ensures kept { Keeps names.old names.new }
{
    let action = names.intern_name(said.parts.part(3))?;
    let args = args_of(names, &said.parts)?;
    Ok(PlanStep {
        time: said.time,
        act: Act { action, args },
        duration: said.duration,
    })
}

fn first_later(steps: &[PlanStep], time: Num) -> Option<usize>
    ensures { result ≡ position (λ other. int_lt time other.time) steps.now }
{
    steps
        .iter()
        .position(|other| time.milli() < other.time.milli())
}

/// Puts a step at its place among steps in the order of time, after those of its own time.
pub fn place(step: PlanStep, steps: &mut Vec<PlanStep>) -> Result<(), AllocError>
    ensures { OnOk result (steps.new.items ≡ placed step steps.old.items) }
{
    let at = first_later(steps, step.time).unwrap_or(steps.len());
    steps.insert(at, step)?;
    Ok(())
}
