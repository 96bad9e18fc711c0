//! What effects read and change.
ghost use Rattle.std.specs.Prelude.{◌≡◌, ◌++◌, flat_map, map, IfOk, OnOk};
ghost use Rattle.ps_action.specs.Touching.{changed_by_effect, changed_by_guarded, changed_by_spread, read_by_effect, read_by_guarded, read_by_spread};

use super::touched::{push_cond, push_expr};
use ps_action::Touched;
use ps_world::{Effect, Guarded, Spread};
use std::alloc::{AllocError, Global};

fn push_right(effect: &Effect, all: &mut Vec<Touched>) -> Result<(), AllocError>
    ensures { OnOk result (all.new.items ≡ all.old.items ++ read_by_effect effect.now) }
{
    match effect {
        Effect::Add(_) | Effect::Delete(_) => Ok(()),
        Effect::Number(_, _, right) => push_expr(right, all),
    }
}

fn push_rights(effects: &[Effect], all: &mut Vec<Touched>) -> Result<(), AllocError>
    ensures { OnOk result (all.new.items ≡ all.old.items ++ flat_map read_by_effect effects.now) }
{
    for effect in effects {
        push_right(effect, all)?;
    }
    Ok(())
}

fn push_read_part(part: &Guarded, all: &mut Vec<Touched>) -> Result<(), AllocError>
    ensures { OnOk result (all.new.items ≡ all.old.items ++ read_by_guarded part.now) }
{
    match part {
        Guarded::Plain(effect) => push_right(effect, all),
        Guarded::When(cond, effects) => {
            push_cond(cond, all)?;
            push_rights(effects.as_slice(), all)
        }
    }
}

fn push_read_parts(parts: &[Guarded], all: &mut Vec<Touched>) -> Result<(), AllocError>
    ensures { OnOk result (all.new.items ≡ all.old.items ++ flat_map read_by_guarded parts.now) }
{
    for part in parts {
        push_read_part(part, all)?;
    }
    Ok(())
}

fn push_read_spread(spread: &Spread, all: &mut Vec<Touched>) -> Result<(), AllocError>
    ensures { OnOk result (all.new.items ≡ all.old.items ++ read_by_spread spread.now) }
{
    match spread {
        Spread::Once(part) => push_read_part(part, all),
        Spread::ForAll(_, parts) => {
            all.push(Touched::Instances)?;
            push_read_parts(parts.as_slice(), all)
        }
    }
}

/// What a list of effects reads: what stands in right sides and in the conditions of `when`, and all instances where it binds variables.
/// One thing may be named twice.
pub fn read_by_effects(alloc: Global, effects: &[Spread]) -> Result<Vec<Touched>, AllocError>
    ensures { IfOk result (λ v. v.items ≡ flat_map read_by_spread effects.now) }
{
    let mut all = Vec::new(alloc);
    for spread in effects {
        push_read_spread(spread, &mut all)?;
    }
    Ok(all)
}

fn changed_by_effect(effect: &Effect) -> Touched
    ensures { result ≡ changed_by_effect effect.now }
{
    match effect {
        Effect::Add(lifted) | Effect::Delete(lifted) => Touched::fact_of(lifted),
        Effect::Number(_, lifted, _) => Touched::value_at(lifted),
    }
}

fn push_changed(effects: &[Effect], all: &mut Vec<Touched>) -> Result<(), AllocError>
    ensures { OnOk result (all.new.items ≡ all.old.items ++ map changed_by_effect effects.now) }
{
    for effect in effects {
        all.push(changed_by_effect(effect))?;
    }
    Ok(())
}

fn push_changed_part(part: &Guarded, all: &mut Vec<Touched>) -> Result<(), AllocError>
    ensures { OnOk result (all.new.items ≡ all.old.items ++ changed_by_guarded part.now) }
{
    match part {
        Guarded::Plain(effect) => {
            all.push(changed_by_effect(effect))?;
            Ok(())
        }
        Guarded::When(_, effects) => push_changed(effects.as_slice(), all),
    }
}

fn push_changed_parts(parts: &[Guarded], all: &mut Vec<Touched>) -> Result<(), AllocError>
    ensures { OnOk result (all.new.items ≡ all.old.items ++ flat_map changed_by_guarded parts.now) }
{
    for part in parts {
        push_changed_part(part, all)?;
    }
    Ok(())
}

fn push_changed_spread(spread: &Spread, all: &mut Vec<Touched>) -> Result<(), AllocError>
    ensures { OnOk result (all.new.items ≡ all.old.items ++ changed_by_spread spread.now) }
{
    match spread {
        Spread::Once(part) => push_changed_part(part, all),
        Spread::ForAll(_, parts) => push_changed_parts(parts.as_slice(), all),
    }
}

/// What a list of effects changes: each fact that it adds or deletes, and each function term that it gives a value, or its place where a
/// variable stands; under a condition too, whether it holds or not. One thing may be named twice.
pub fn changed_by(alloc: Global, effects: &[Spread]) -> Result<Vec<Touched>, AllocError>
    ensures { IfOk result (λ v. v.items ≡ flat_map changed_by_spread effects.now) }
{
    let mut all = Vec::new(alloc);
    for spread in effects {
        push_changed_spread(spread, &mut all)?;
    }
    Ok(all)
}
