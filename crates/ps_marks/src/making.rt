//! What adds can make.
ghost use Rattle.std.specs.Prelude.{◌≡◌, ◌++◌, flat_map, IfOk, OnOk};
ghost use Rattle.ps_marks.specs.Closures.{is_in};
ghost use Rattle.ps_marks.specs.Making.{adds_each, adds_in, adds_of, adds_once, facts_made, made_by, own_add, wide_add};

use ps_action::{Place, fact_fault};
use ps_domain::Expert;
use ps_problem::Problem;
use ps_world::{Effect, Fact, Guarded, Lifted, Spread};
use std::alloc::{AllocError, Global};

/// What an add can make.
#[derive(Clone, Copy)]
pub enum Made {
    /// Its own fact.
    Own(Fact),
    /// Each fact of declared arguments at its place, since it stands under a condition or for each choice of instances.
    Wide(Lifted),
}

/// Puts an add that stands once, with no condition, at the end.
fn push_own(effect: &Effect, adds: &mut Vec<Made>) -> Result<(), AllocError>
    ensures { OnOk result (adds.new.items ≡ adds.old.items ++ own_add effect.now) }
{
    if let Effect::Add(lifted) = effect {
        adds.push(Made::Own(lifted.ground()))?;
    }
    Ok(())
}

/// Puts an add that stands under a condition or for each choice of instances at the end.
fn push_wide(effect: &Effect, adds: &mut Vec<Made>) -> Result<(), AllocError>
    ensures { OnOk result (adds.new.items ≡ adds.old.items ++ wide_add effect.now) }
{
    if let Effect::Add(lifted) = effect {
        adds.push(Made::Wide(*lifted))?;
    }
    Ok(())
}

/// Puts those of several at the end.
fn push_all_wide(effects: &[Effect], adds: &mut Vec<Made>) -> Result<(), AllocError>
    ensures { OnOk result (adds.new.items ≡ adds.old.items ++ flat_map wide_add effects.now) }
{
    for effect in effects {
        push_wide(effect, adds)?;
    }
    Ok(())
}

/// Puts the adds of a part that stands once at the end.
fn push_once(part: &Guarded, adds: &mut Vec<Made>) -> Result<(), AllocError>
    ensures { OnOk result (adds.new.items ≡ adds.old.items ++ adds_once part.now) }
{
    match part {
        Guarded::Plain(effect) => push_own(effect, adds),
        Guarded::When(_, effects) => push_all_wide(effects.as_slice(), adds),
    }
}

/// Puts the adds of a part that stands for each choice of instances at the end.
fn push_each(part: &Guarded, adds: &mut Vec<Made>) -> Result<(), AllocError>
    ensures { OnOk result (adds.new.items ≡ adds.old.items ++ adds_each part.now) }
{
    match part {
        Guarded::Plain(effect) => push_wide(effect, adds),
        Guarded::When(_, effects) => push_all_wide(effects.as_slice(), adds),
    }
}

/// Puts those of several at the end.
fn push_all_each(parts: &[Guarded], adds: &mut Vec<Made>) -> Result<(), AllocError>
    ensures { OnOk result (adds.new.items ≡ adds.old.items ++ flat_map adds_each parts.now) }
{
    for part in parts {
        push_each(part, adds)?;
    }
    Ok(())
}

/// Puts the adds of what stands in a list of effects at the end.
fn push_adds(spread: &Spread, adds: &mut Vec<Made>) -> Result<(), AllocError>
    ensures { OnOk result (adds.new.items ≡ adds.old.items ++ adds_in spread.now) }
{
    match spread {
        Spread::Once(part) => push_once(part, adds),
        Spread::ForAll(_, parts) => push_all_each(parts.as_slice(), adds),
    }
}

/// The adds of a list of effects.
pub fn adds_of(alloc: Global, effects: &[Spread]) -> Result<Vec<Made>, AllocError>
    ensures { IfOk result (λ adds. adds.items ≡ adds_of effects.now) }
{
    let mut adds = Vec::new(alloc);
    for spread in effects {
        push_adds(spread, &mut adds)?;
    }
    Ok(adds)
}

/// Whether an add can make a fact.
#[tactic(auto, using(crate::proofs::AddsMade::at_is))]
pub fn can_make(expert: &Expert, problem: &Problem, add: &Made, fact: &Fact) -> bool
    ensures { result ≡ is_in (facts_made expert.now problem.now add.now) fact.now }
{
    match add {
        Made::Own(own) => fact.cmp(own).is_eq(),
        Made::Wide(lifted) => {
            Place::of(lifted).has(fact) && fact_fault(problem, expert, fact).is_none()
        }
    }
}

/// Whether one of these adds can make a fact.
pub fn one_can_make(expert: &Expert, problem: &Problem, adds: &[Made], fact: &Fact) -> bool
    ensures { result ≡ is_in (made_by expert.now problem.now adds.now) fact.now }
{
    for add in adds {
        if can_make(expert, problem, add, fact) {
            return true;
        }
    }
    false
}
