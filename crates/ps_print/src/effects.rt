//! Printing effects.
ghost use Rattle.std.specs.Prelude.{◌≡◌, ◌++◌, map, OnOk};
ghost use Rattle.ps_world.specs.DomainTexts.{after_spaces, num_op_text, effect_text, guarded_text, spread_text};
ghost use Rattle.ps_world.specs.declared.actions.Effect.TheVariants.{Number};

use super::conditions::{in_force, write_bound, write_condition};
use super::expressions::write_expression;
use super::terms::write_lifted;
use super::writer::Writer;
use ps_text::Names;
use ps_world::{Effect, Expr, Guarded, Lifted, NumOp, Param, Spread};
use std::alloc::AllocError;

/// Adds the word of a change of a number.
fn write_num_op(text: &mut Writer, how: NumOp) -> Result<(), AllocError>
    ensures { OnOk result (text.new ≡ text.old ++ num_op_text how) }
{
    let word = match how {
        NumOp::Assign => b"assign".as_slice(),
        NumOp::Increase => b"increase".as_slice(),
        NumOp::Decrease => b"decrease".as_slice(),
        NumOp::ScaleUp => b"scale-up".as_slice(),
        NumOp::ScaleDown => b"scale-down".as_slice(),
    };
    text.extend_from_slice(word)?;
    Ok(())
}

/// Adds that the value of a function changes.
fn write_change(
    text: &mut Writer,
    names: &Names,
    params: &[Param],
    how: NumOp,
    lifted: &Lifted,
    by: &Expr,
) -> Result<(), AllocError>
    ensures { OnOk result (text.new ≡ text.old
        ++ effect_text names.now params.now (Number how lifted.now by.now)) }
{
    text.push(b'(')?;
    write_num_op(text, how)?;
    text.push(b' ')?;
    write_lifted(text, names, params, lifted)?;
    text.push(b' ')?;
    write_expression(text, names, params, by)?;
    text.push(b')')?;
    Ok(())
}

/// Adds an effect, where these variables are in force.
fn write_effect(
    text: &mut Writer,
    names: &Names,
    params: &[Param],
    effect: &Effect,
) -> Result<(), AllocError>
    ensures { OnOk result (text.new ≡ text.old
        ++ effect_text names.now params.now effect.now) }
{
    match effect {
        Effect::Add(lifted) => {
            write_lifted(text, names, params, lifted)?;
            Ok(())
        }
        Effect::Delete(lifted) => {
            text.extend_from_slice(b"(not ")?;
            write_lifted(text, names, params, lifted)?;
            text.push(b')')?;
            Ok(())
        }
        Effect::Number(how, lifted, by) => {
            write_change(text, names, params, *how, lifted, by)?;
            Ok(())
        }
    }
}

/// Adds effects, each after a space.
fn write_each(
    text: &mut Writer,
    names: &Names,
    params: &[Param],
    effects: &[Effect],
) -> Result<(), AllocError>
    ensures { OnOk result (text.new ≡ text.old
        ++ after_spaces (map (effect_text names.now params.now) effects.now)) }
{
    for effect in effects {
        text.push(b' ')?;
        write_effect(text, names, params, effect)?;
    }
    Ok(())
}

/// Adds an effect, or effects with their condition, where these variables are in force.
fn write_guarded(
    text: &mut Writer,
    names: &Names,
    params: &[Param],
    part: &Guarded,
) -> Result<(), AllocError>
    ensures { OnOk result (text.new ≡ text.old
        ++ guarded_text names.now params.now part.now) }
{
    match part {
        Guarded::Plain(effect) => {
            write_effect(text, names, params, effect)?;
            Ok(())
        }
        Guarded::When(cond, effects) => {
            text.extend_from_slice(b"(when ")?;
            write_condition(text, names, params, cond)?;
            text.extend_from_slice(b" (and")?;
            write_each(text, names, params, effects.as_slice())?;
            text.extend_from_slice(b"))")?;
            Ok(())
        }
    }
}

/// Adds parts of a `forall`, each after a space.
fn write_parts(
    text: &mut Writer,
    names: &Names,
    params: &[Param],
    parts: &[Guarded],
) -> Result<(), AllocError>
    ensures { OnOk result (text.new ≡ text.old
        ++ after_spaces (map (guarded_text names.now params.now) parts.now)) }
{
    for part in parts {
        text.push(b' ')?;
        write_guarded(text, names, params, part)?;
    }
    Ok(())
}

/// Adds what stands in a list of effects, where these are the parameters.
pub fn write_spread(
    text: &mut Writer,
    names: &Names,
    params: &[Param],
    spread: &Spread,
) -> Result<(), AllocError>
    ensures { OnOk result (text.new ≡ text.old
        ++ spread_text names.now params.now spread.now) }
{
    match spread {
        Spread::Once(part) => {
            write_guarded(text, names, params, part)?;
            Ok(())
        }
        Spread::ForAll(bound, parts) => {
            let all = in_force(text.allocator(), params, bound.as_slice())?;
            text.extend_from_slice(b"(forall ")?;
            write_bound(text, names, bound.as_slice())?;
            text.extend_from_slice(b" (and")?;
            write_parts(text, names, &all, parts.as_slice())?;
            text.extend_from_slice(b"))")?;
            Ok(())
        }
    }
}
