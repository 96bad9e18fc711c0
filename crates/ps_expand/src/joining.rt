//! Two lists of effects, joined to one change.
ghost use Rattle.std.specs.Prelude.{◌≡◌, filter_map, IfOk};
ghost use Rattle.ps_action.specs.Effects.{added_by};
ghost use Rattle.ps_problem.specs.Puts.{deleted_by};
ghost use Rattle.ps_expand.specs.Joining.{joined, left_by};

use crate::during::{added_by, are_deleting};
use ps_problem::Change;
use ps_world::{Effect, Fact, Num, Seq};
use std::alloc::{AllocError, Global};

/// The fact that an effect adds, unless it adds none or later ones delete it.
fn left_by(ends: &[Effect], effect: &Effect) -> Option<Fact>
    ensures { result ≡ left_by ends.now effect.now }
{
    let fact = added_by(effect)?;
    if are_deleting(ends, &fact) {
        return None;
    }
    Some(fact)
}

/// The fact that an effect deletes, if it deletes one.
fn deleted_by(effect: &Effect) -> Option<Fact>
    ensures { result ≡ deleted_by effect.now }
{
    match effect {
        Effect::Delete(lifted) => Some(lifted.ground()),
        _ => None,
    }
}

/// The facts that effects add and later ones don't delete.
fn adds_left(alloc: Global, starts: &[Effect], ends: &[Effect]) -> Result<Vec<Fact>, AllocError>
    ensures { IfOk result (λ v. v.items ≡ filter_map (left_by ends.now) starts.now) }
{
    let mut all = Vec::new(alloc);
    for effect in starts {
        if let Some(fact) = left_by(ends, effect) {
            all.push(fact)?;
        }
    }
    Ok(all)
}

/// The facts that effects add.
fn adds_of(alloc: Global, effects: &[Effect]) -> Result<Vec<Fact>, AllocError>
    ensures { IfOk result (λ v. v.items ≡ filter_map added_by effects.now) }
{
    let mut all = Vec::new(alloc);
    for effect in effects {
        if let Some(fact) = added_by(effect) {
            all.push(fact)?;
        }
    }
    Ok(all)
}

/// The facts that effects delete.
fn deletes_of(alloc: Global, effects: &[Effect]) -> Result<Vec<Fact>, AllocError>
    ensures { IfOk result (λ v. v.items ≡ filter_map deleted_by effects.now) }
{
    let mut all = Vec::new(alloc);
    for effect in effects {
        if let Some(fact) = deleted_by(effect) {
            all.push(fact)?;
        }
    }
    Ok(all)
}

/// The change that effects make with these values, and then others with those.
pub fn joined(
    alloc: Global,
    starts: &[Effect],
    ready: &[(Fact, Num)],
    ends: &[Effect],
    last: &[(Fact, Num)],
) -> Result<Change, AllocError>
    ensures { IfOk result (λ c. c ≡ joined starts.now ready.now ends.now last.now) }
{
    let mut adds = adds_left(alloc, starts, ends)?;
    adds.extend_from_slice(&adds_of(alloc, ends)?)?;
    let mut deletes = deletes_of(alloc, starts)?;
    deletes.extend_from_slice(&deletes_of(alloc, ends)?)?;
    let mut values = Vec::from_slice(alloc, ready)?;
    values.extend_from_slice(last)?;
    Ok(Change {
        instances_in: Seq::new(alloc),
        instances_out: Seq::new(alloc),
        adds: Seq::of(adds),
        deletes: Seq::of(deletes),
        values: Seq::of(values),
        gone: Seq::new(alloc),
        goal: None,
    })
}
