//! The lists of what is known, with the changes of effects.
ghost use Rattle.std.specs.Prelude.{◌≡◌, filter, filter_map, fold, not, IfOk};
ghost use Rattle.std.specs.List.{list_any};
ghost use Rattle.std.specs.BTreeSet.{insert_key};
ghost use Rattle.ps_world.specs.Facts.{fact_cmp};
ghost use Rattle.ps_action.specs.Effects.{added_by, deletes, with_value};

use super::lists::{with_fact, with_number};
use ps_world::{Effect, Fact, Num};
use std::alloc::{AllocError, Global};

/// Whether an effect deletes this fact.
fn deletes(fact: &Fact, effect: &Effect) -> bool
    ensures { result ≡ deletes fact.now effect.now }
{
    match effect {
        Effect::Delete(lifted) => fact.cmp(&lifted.ground()).is_eq(),
        _ => false,
    }
}

/// Whether one of these effects deletes this fact.
fn is_deleted(fact: &Fact, effects: &[Effect]) -> bool
    ensures { result ≡ list_any (deletes fact.now) effects.now }
{
    effects.iter().any(|effect| deletes(fact, effect))
}

/// The facts that none of these effects deletes.
pub fn facts_kept(
    alloc: Global,
    facts: &[Fact],
    effects: &[Effect],
) -> Result<Vec<Fact>, AllocError>
    ensures { IfOk result (λ v. v.items
        ≡ filter (λ f. not (list_any (deletes f) effects.now)) facts.now) }
{
    let mut kept = Vec::new(alloc);
    for there in facts {
        if !is_deleted(there, effects) {
            kept.push(*there)?;
        }
    }
    Ok(kept)
}

/// The fact that an effect adds, if it adds one.
fn added_by(effect: &Effect) -> Option<Fact>
    ensures { result ≡ added_by effect.now }
{
    match effect {
        Effect::Add(lifted) => Some(lifted.ground()),
        _ => None,
    }
}

/// The facts with those that these effects add.
pub fn facts_added(
    alloc: Global,
    facts: Vec<Fact>,
    effects: &[Effect],
) -> Result<Vec<Fact>, AllocError>
    ensures { IfOk result (λ v. v.items
        ≡ fold (insert_key fact_cmp) facts.items (filter_map added_by effects.now)) }
{
    let mut all = facts;
    for effect in effects {
        if let Some(fact) = added_by(effect) {
            all = with_fact(alloc, all.as_slice(), fact)?;
        }
    }
    Ok(all)
}

/// The values with new ones put in.
pub fn values_with(
    alloc: Global,
    values: &[(Fact, Num)],
    ready: &[(Fact, Num)],
) -> Result<Vec<(Fact, Num)>, AllocError>
    ensures { IfOk result (λ v. v.items ≡ fold with_value values.now ready.now) }
{
    let mut all = Vec::new(alloc);
    all.extend_from_slice(values)?;
    for (term, number) in ready {
        all = with_number(alloc, all.as_slice(), *term, *number)?;
    }
    Ok(all)
}
