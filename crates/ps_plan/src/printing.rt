//! Printing a plan.
ghost use Rattle.std.specs.Prelude.{◌≡◌, ◌<◌, ◌++◌, length, All, IfOk, OnOk};
ghost use Rattle.ps_world.specs.Names.{name_text};
ghost use Rattle.ps_world.specs.Numbers.{number_text};
ghost use Rattle.ps_world.specs.Tables.{IsOf};
ghost use Rattle.ps_world.specs.Texts.{args_text};
ghost use Rattle.ps_action.specs.Texts.{step_line};
ghost use Rattle.ps_plan.specs.PlanText.{IsStepOf, plan_text, step_text};

use ps_action::PlanStep;
use ps_text::{NUMBER_BYTES, Names, print_number};
use ps_world::{Name, Num};
use std::alloc::{AllocError, Global};

/// Adds a number with three decimals.
fn push_number(number: Num, text: &mut Vec<u8>) -> Result<(), AllocError>
    ensures { OnOk result (text.new.items ≡ text.old.items ++ number_text number) }
{
    let mut bytes = [0; NUMBER_BYTES];
    let count = print_number(number, &mut bytes);
    text.extend_from_slice(&bytes[..count])?;
    Ok(())
}

/// Adds a name.
fn push_name(names: &Names, name: Name, text: &mut Vec<u8>) -> Result<(), AllocError>
    requires { name.0 < length names.now }
    ensures { OnOk result (text.new.items ≡ text.old.items ++ name_text names.now name) }
{
    text.extend_from_slice(names.text(name))?;
    Ok(())
}

/// Adds names, each after a space.
fn push_args(names: &Names, args: &[Name], text: &mut Vec<u8>) -> Result<(), AllocError>
    requires { All (IsOf (length names.now)) args.now }
    ensures { OnOk result (text.new.items ≡ text.old.items ++ args_text names.now args.now) }
{
    for name in args {
        text.push(b' ')?;
        push_name(names, *name, text)?;
    }
    Ok(())
}

/// Adds a step's line, without its end.
fn push_line(names: &Names, step: &PlanStep, text: &mut Vec<u8>) -> Result<(), AllocError>
    requires { IsStepOf (length names.now) step.now }
    ensures { OnOk result (text.new.items ≡ text.old.items ++ step_line names.now step.now) }
{
    push_number(step.time, text)?;
    text.extend_from_slice(b": (")?;
    push_name(names, step.act.action, text)?;
    push_args(names, step.act.args.as_slice(), text)?;
    text.extend_from_slice(b") [")?;
    push_number(step.duration, text)?;
    text.push(b']')?;
    Ok(())
}

/// Adds a step on a line of its own.
fn push_step(names: &Names, step: &PlanStep, text: &mut Vec<u8>) -> Result<(), AllocError>
    requires { IsStepOf (length names.now) step.now }
    ensures { OnOk result (text.new.items ≡ text.old.items ++ step_text names.now step.now) }
{
    push_line(names, step, text)?;
    text.push(b'\n')?;
    Ok(())
}

/// The text of a plan whose names are of the table, each step on a line as `0.000: (move leia entrance kitchen) [5.000]`.
pub fn print_plan(alloc: Global, names: &Names, steps: &[PlanStep]) -> Result<Vec<u8>, AllocError>
    requires { All (IsStepOf (length names.now)) steps.now }
    ensures { IfOk result (λ text. text.items ≡ plan_text names.now steps.now) }
{
    let mut text = Vec::new(alloc);
    for step in steps {
        push_step(names, step, &mut text)?;
    }
    Ok(text)
}
