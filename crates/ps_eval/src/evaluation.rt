//! Whether conditions hold, and the change that effects make.
ghost use Rattle.std.specs.Prelude.{◌≡◌, ◌∷◌, [], is_ok, IfOk, IfSome, IsTrue};
ghost use Rattle.std.specs.Option.{option_copied};
ghost use Rattle.ps_world.specs.CondViews.{cond_tree};
ghost use Rattle.ps_world.specs.declared.domains.Domain.{Domain};
ghost use Rattle.ps_world.specs.ExprViews.{expr_tree};
ghost use Rattle.ps_world.specs.declared.known.Knowledge.{Knowledge};
ghost use Rattle.ps_action.specs.Effects.{effect, flat, flat_spread};
ghost use Rattle.ps_action.specs.Grounding.{put_effect};
ghost use Rattle.ps_action.specs.Plans.{duration_of};
ghost use Rattle.ps_action.specs.Truth.{all_true, is_true};
ghost use Rattle.ps_eval.specs.Flat.{MakesFlat};
ghost use Rattle.ps_eval.specs.Making.{Makes};

use ps_action::{
    EffectRefusal, all_true, duration_of, fault_of_flat, is_faultless, is_true, values_of_flat,
};
use ps_domain::Expert;
use ps_problem::Problem;
use ps_world::{Cond, Conds, Effect, Expr, Failure, Guarded, Num, Spread};
use std::alloc::AllocError;
use std::slice;

/// Whether a condition holds (PDDL 2.1, section 4): a comparison with a side that isn't defined is false, and an empty `and` is
/// true. A variable counts as `object`. It takes no memory.
pub fn holds(problem: &Problem, expert: &Expert, cond: &Cond) -> bool
    ensures { result ≡ is_true expert.now problem.now (cond_tree cond.now) }
{
    is_true(problem, expert, cond)
}

/// Whether each condition of a list holds. It takes no memory.
pub fn holds_all(problem: &Problem, expert: &Expert, conds: &Conds) -> bool
    ensures { result ≡ all_true expert.now problem.now conds.now }
{
    all_true(problem, expert, conds)
}

/// The effects for which a list stands in what is known: those under a condition where it holds, and those that stand for each choice of
/// instances once for each, by rising names.
pub fn unfold(
    problem: &Problem,
    expert: &Expert,
    effects: &[Spread],
) -> Result<Vec<Effect>, AllocError>
    ensures { IfOk result (λ v. v.items ≡ flat expert.now problem.now effects.now) }
{
    ps_action::unfold(problem.allocator(), problem, expert, effects)
}

/// Whether an effect adds or deletes a fact: without variables to put in it stands for itself.
#[tactic(auto, using(crate::proofs::Facts::unput))]
fn is_of_fact(effect: &Effect) -> bool
    ensures { IsTrue result → put_effect [] effect.now ≡ effect.now }
{
    match effect {
        Effect::Add(_) | Effect::Delete(_) => true,
        Effect::Number(_, _, _) => false,
    }
}

/// The effect that a part of a list stands for as it is, if it is one that adds or deletes a fact without a condition.
fn fact_in(spread: &Spread) -> Option<&Effect>
    ensures { IfSome (option_copied result)
        (λ e. (d : Domain) (k : Knowledge) → flat_spread d k spread.now ≡ e ∷ []) }
{
    match spread {
        Spread::Once(Guarded::Plain(effect)) => if is_of_fact(effect) {
            Some(effect)
        } else {
            None
        },
        _ => None,
    }
}

/// The effect that a list stands for as it is, if it is one alone that adds or deletes a fact without a condition.
fn only_fact(effects: &[Spread]) -> Option<&Effect>
    ensures { IfSome (option_copied result)
        (λ e. (d : Domain) (k : Knowledge) → flat d k effects.now ≡ e ∷ []) }
{
    match effects {
        [spread] => fact_in(spread),
        _ => None,
    }
}

/// Makes effects that stand for themselves. It answers and refuses as `apply` does.
fn apply_flat(problem: &mut Problem, flat: &[Effect]) -> Result<bool, Failure<EffectRefusal>>
    ensures { MakesFlat flat.now problem.old result problem.new }
{
    if let Some(fault) = fault_of_flat(problem, flat) {
        return Err(Failure::Refused(fault));
    }
    let ready = values_of_flat(problem.allocator(), problem, flat)?;
    let changed = problem.put(flat, &ready)?;
    Ok(changed)
}

/// Makes the effects for which a list stands, all of which read what is known before: deletes come first, then adds, then new values.
/// Answers whether anything changed.
///
/// It is refused, and nothing changes, at the first of these effects, in their order, that has a fault; the faults of one effect
/// come in this order: `Clash` where an earlier effect gives the same function term a value; `Undefined` where the new value isn't
/// defined; `Range` where its absolute value passes 10^15 thousandths.
pub fn apply(
    problem: &mut Problem,
    expert: &Expert,
    effects: &[Spread],
) -> Result<bool, Failure<EffectRefusal>>
    ensures { Makes expert.now effects.now problem.old result problem.new }
{
    match only_fact(effects) {
        Some(effect) => apply_flat(problem, slice::from_ref(effect)),
        None => {
            let flat = unfold(problem, expert, effects)?;
            apply_flat(problem, &flat)
        }
    }
}

/// Whether a list of effects has no fault. It takes no memory.
pub fn defined(problem: &Problem, expert: &Expert, effects: &[Spread]) -> bool
    ensures { result ≡ is_ok (effect expert.now problem.now effects.now) }
{
    is_faultless(problem, expert, effects)
}

/// How long an expression of a duration says: what it is worth, but zero where it isn't defined or negative. It takes no memory.
pub fn duration(problem: &Problem, expr: &Expr) -> Num
    ensures { result ≡ duration_of problem.now (expr_tree expr.now) }
{
    duration_of(problem, expr)
}
