//! The effects that a list stands for.
ghost use Rattle.std.specs.Prelude.{◌≡◌, ◌∷◌, ◌++◌, [], flat_map, map, IfOk, OnOk};
ghost use Rattle.ps_action.specs.Bindings.{bindings, bindings_from};
ghost use Rattle.ps_action.specs.Effects.{flat, flat_guarded, flat_spread};
ghost use Rattle.ps_action.specs.Grounding.{put_effect};

use crate::known::{Known, Types};
use crate::putting::put_effect;
use crate::truth::is_true_with;
use ps_world::{Effect, Env, Guarded, Name, Param, Spread};
use std::alloc::{AllocError, Global};

/// The effects that a list stands for in what is known: those under a condition where it holds now, and those that stand for each
/// choice of instances once for each, in the order of the instances.
pub fn unfold<K: Known, T: Types>(
    alloc: Global,
    known: &K,
    types: &T,
    effects: &[Spread],
) -> Result<Vec<Effect>, AllocError>
    ensures { IfOk result (λ v. v.items ≡ flat (T.types types.now) (K.known known.now) effects.now) }
{
    let mut all = Vec::new(alloc);
    for spread in effects {
        push_spread(alloc, known, types, spread, &mut all)?;
    }
    Ok(all)
}

fn push_spread<K: Known, T: Types>(
    alloc: Global,
    known: &K,
    types: &T,
    spread: &Spread,
    all: &mut Vec<Effect>,
) -> Result<(), AllocError>
    ensures { OnOk result (all.new.items
        ≡ all.old.items ++ flat_spread (T.types types.now) (K.known known.now) spread.now) }
{
    match spread {
        Spread::Once(part) => push_guarded(alloc, known, types, &Env::of(&[]), part, all),
        Spread::ForAll(params, parts) => {
            let params = params.as_slice();
            push_bindings(
                alloc,
                known,
                types,
                &Env::of(&[]),
                params,
                parts.as_slice(),
                all,
            )
        }
    }
}

/// Adds these parts once for each choice of instances that fit the variables.
#[cycle(bindings)]
#[tactic(auto, using(crate::proofs::Spreading::step_on))]
fn push_bindings<K: Known, T: Types>(
    alloc: Global,
    known: &K,
    types: &T,
    env: &Env,
    params: &[Param],
    parts: &[Guarded],
    all: &mut Vec<Effect>,
) -> Result<(), AllocError>
    ensures { OnOk result (all.new.items ≡ all.old.items
        ++ flat_map (λ e. flat_map (flat_guarded (T.types types.now) (K.known known.now) e) parts.now)
        (bindings (T.types types.now) (K.known known.now).instances params.now env.now)) }
{
    let Some((first, rest)) = params.split_first() else {
        return push_parts(alloc, known, types, &*env, parts, all);
    };
    if !types.is_type(first.kind) {
        return Ok(());
    }
    for instance in known.instances() {
        push_instance(
            alloc, known, types, &*env, instance, first, rest, parts, all,
        )?;
    }
    Ok(())
}

/// Adds these parts once for each choice in which the first variable stands for this instance, if it fits.
#[cycle(bindings)]
fn push_instance<K: Known, T: Types>(
    alloc: Global,
    known: &K,
    types: &T,
    env: &Env,
    instance: &(Name, Name),
    first: &Param,
    rest: &[Param],
    parts: &[Guarded],
    all: &mut Vec<Effect>,
) -> Result<(), AllocError>
    ensures { OnOk result (all.new.items ≡ all.old.items
        ++ flat_map (λ e. flat_map (flat_guarded (T.types types.now) (K.known known.now) e) parts.now)
        (bindings_from (T.types types.now) (K.known known.now).instances first.now rest.now env.now
        (instance.now ∷ []))) }
{
    if types.is_subtype(instance.1, first.kind) {
        let inner = Env::with(&*env, instance.0);
        return push_bindings(alloc, known, types, &inner, rest, parts, all);
    }
    Ok(())
}

fn push_parts<K: Known, T: Types>(
    alloc: Global,
    known: &K,
    types: &T,
    env: &Env,
    parts: &[Guarded],
    all: &mut Vec<Effect>,
) -> Result<(), AllocError>
    ensures { OnOk result (all.new.items ≡ all.old.items
        ++ flat_map (flat_guarded (T.types types.now) (K.known known.now) env.now) parts.now) }
{
    for part in parts {
        push_guarded(alloc, known, types, env, part, all)?;
    }
    Ok(())
}

fn push_guarded<K: Known, T: Types>(
    alloc: Global,
    known: &K,
    types: &T,
    env: &Env,
    part: &Guarded,
    all: &mut Vec<Effect>,
) -> Result<(), AllocError>
    ensures { OnOk result (all.new.items ≡ all.old.items
        ++ flat_guarded (T.types types.now) (K.known known.now) env.now part.now) }
{
    match part {
        Guarded::Plain(effect) => {
            all.push(put_effect(alloc, env, effect)?)?;
            Ok(())
        }
        Guarded::When(cond, effects) => {
            if is_true_with(known, types, env, cond) {
                return push_effects(alloc, env, effects.as_slice(), all);
            }
            Ok(())
        }
    }
}

fn push_effects(
    alloc: Global,
    env: &Env,
    effects: &[Effect],
    all: &mut Vec<Effect>,
) -> Result<(), AllocError>
    ensures { OnOk result (all.new.items ≡ all.old.items ++ map (put_effect env.now) effects.now) }
{
    for effect in effects {
        all.push(put_effect(alloc, env, effect)?)?;
    }
    Ok(())
}
