//! What effects without variables and conditions give, and what is at fault with them.
ghost use Rattle.std.specs.Prelude.{◌≡◌, ◌↔◌, Some, IfOk, IsTrue};
ghost use Rattle.std.specs.List.{list_any};
ghost use Rattle.ps_world.specs.ExprViews.{expr_tree};
ghost use Rattle.ps_action.specs.Effects.{clashes, count_after, count_fault, fault_of_effect, fault_of_flat, first_clash, new_count, sets, value_set, values_of_flat};

use crate::known::Known;
use crate::refusals::EffectRefusal;
use crate::values::{in_range, product, quotient, value_of};
use ps_world::{Effect, Expr, Fact, Num, NumOp};
use std::alloc::{AllocError, Global};

/// The count of thousandths that an old value becomes by a number. None exactly where that isn't defined.
pub(crate) fn new_count(how: NumOp, old: Option<Num>, by: Num) -> Option<i128>
    ensures { result ≡ new_count how old (Some by) }
{
    match (how, old) {
        (NumOp::Assign, _) => Some(by.milli() as i128),
        (NumOp::Increase, Some(old)) => Some(old.milli() as i128 + by.milli() as i128),
        (NumOp::Decrease, Some(old)) => Some(old.milli() as i128 - by.milli() as i128),
        (NumOp::ScaleUp, Some(old)) => Some(product(old, by)),
        (NumOp::ScaleDown, Some(old)) => quotient(old, by),
        (_, None) => None,
    }
}

/// The count that a numeric effect gives. None exactly where it isn't defined.
fn count_after<K: Known>(known: &K, how: NumOp, term: &Fact, expr: &Expr) -> Option<i128>
    ensures { result ≡ count_after (K.known known.now) how term.now (expr_tree expr.now) }
{
    match value_of(known, expr) {
        Some(by) => new_count(how, known.value(term), by),
        None => None,
    }
}

/// Why a count is no new value, if it is none.
pub(crate) fn count_fault(at: usize, count: Option<i128>) -> Option<EffectRefusal>
    ensures { result ≡ count_fault at count }
{
    match count {
        None => Some(EffectRefusal::Undefined { at }),
        Some(milli) if in_range(milli).is_none() => Some(EffectRefusal::Range { at }),
        Some(_) => None,
    }
}

/// Whether an effect gives this function term a value.
fn sets(term: &Fact, effect: &Effect) -> bool
    ensures { result ≡ sets term.now effect.now }
{
    match effect {
        Effect::Number(_, lifted, _) => term.cmp(&lifted.ground()).is_eq(),
        _ => false,
    }
}

/// Whether one of these effects gives this function term a value.
fn is_set(term: &Fact, effects: &[Effect]) -> bool
    ensures { result ≡ list_any (sets term.now) effects.now }
{
    effects.iter().any(|effect| sets(term, effect))
}

/// What is at fault with an effect at its place, after those before it.
fn fault_of_effect<K: Known>(
    known: &K,
    before: &[Effect],
    at: usize,
    effect: &Effect,
) -> Option<EffectRefusal>
    ensures { result ≡ fault_of_effect (K.known known.now) before.now at effect.now }
{
    match effect {
        Effect::Number(how, lifted, expr) => {
            let term = lifted.ground();
            if is_set(&term, before) {
                return Some(EffectRefusal::Clash { at });
            }
            count_fault(at, count_after(known, *how, &term, expr))
        }
        _ => None,
    }
}

/// The first fault of effects without variables and conditions, as `unfold` gives them, if they have one. All new values are those in
/// what is known now. For each effect in order: `Clash` where an earlier one gives the same term a value, `Undefined`, `Range`. It takes
/// no memory.
pub fn fault_of_flat<K: Known>(known: &K, effects: &[Effect]) -> Option<EffectRefusal>
    ensures { result ≡ fault_of_flat (K.known known.now) effects.now }
{
    for (at, effect) in effects.iter().enumerate() {
        if let Some(fault) = fault_of_effect(known, &effects[..at], at, effect) {
            return Some(fault);
        }
    }
    None
}

/// Whether an effect gives a function term a value that one of those before it gives a value.
fn clashes(before: &[Effect], effect: &Effect) -> bool
    ensures { result ≡ clashes before.now effect.now }
{
    match effect {
        Effect::Number(_, lifted, _) => is_set(&lifted.ground(), before),
        _ => false,
    }
}

/// The place of the first effect that gives a function term a value that an earlier one gives a value, if there is one. It takes no
/// memory.
pub fn first_clash(effects: &[Effect]) -> Option<usize>
    ensures { result ≡ first_clash effects.now }
{
    for (at, effect) in effects.iter().enumerate() {
        if clashes(&effects[..at], effect) {
            return Some(at);
        }
    }
    None
}

/// Whether this is the place of the first clash.
fn is_at(clash: Option<usize>, at: usize) -> bool
    ensures { IsTrue result ↔ (clash ≡ Some at) }
{
    match clash {
        Some(place) => place == at,
        None => false,
    }
}

/// The same as `fault_of_flat`, where the place of the first clash is known, so that no effect is held against the earlier ones.
pub fn fault_of_flat_with<K: Known>(
    known: &K,
    effects: &[Effect],
    clash: Option<usize>,
) -> Option<EffectRefusal>
    requires { clash ≡ first_clash effects.now }
    ensures { result ≡ fault_of_flat (K.known known.now) effects.now }
{
    for (at, effect) in effects.iter().enumerate() {
        if is_at(clash, at) {
            return Some(EffectRefusal::Clash { at });
        }
        let fault = fault_of_effect(known, &[], at, effect);
        if fault.is_some() {
            return fault;
        }
    }
    None
}

/// The function term that an effect gives a value, with that value. None where it gives none, or where that isn't defined or is out
/// of range.
fn value_set<K: Known>(known: &K, effect: &Effect) -> Option<(Fact, Num)>
    ensures { result ≡ value_set (K.known known.now) effect.now }
{
    match effect {
        Effect::Number(how, lifted, expr) => {
            let term = lifted.ground();
            let count = count_after(known, *how, &term, expr)?;
            let number = in_range(count)?;
            Some((term, number))
        }
        _ => None,
    }
}

/// The function terms that effects without variables and conditions give values, each with its value.
pub fn values_of_flat<K: Known>(
    alloc: Global,
    known: &K,
    effects: &[Effect],
) -> Result<Vec<(Fact, Num)>, AllocError>
    ensures { IfOk result (λ v. v.items ≡ values_of_flat (K.known known.now) effects.now) }
{
    let mut all = Vec::new(alloc);
    for effect in effects {
        if let Some(one) = value_set(known, effect) {
            all.push(one)?;
        }
    }
    Ok(all)
}
