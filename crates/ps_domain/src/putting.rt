//! Arguments in place of the variables of an action.
ghost use Rattle.std.specs.Prelude.{◌≡◌, ◌≤◌, ◌<◌, ◌+◌, ◌^◌, length, map, vec_len, vec_capacity, IfOk};
ghost use Rattle.ps_world.specs.CondViews.{cond_tree};
ghost use Rattle.ps_action.specs.Grounding.{put_cond, put_condition, put_effect, put_guarded, put_spread, fitting, put_list};

use ps_action::{put_boxed_expr, put_effect, put_lifted, put_term};
use ps_world::{
    BoxedCond, Cond, Conds, Duplicate, Effect, Env, Guarded, Name, PackedLifted, Param, Seq,
    Spread, Term,
};
use std::alloc::{AllocError, Global};

#[cycle(put_cond)]
fn put_cond(alloc: Global, env: &Env, cond: &Cond) -> Result<Cond, AllocError>
    ensures whole { IfOk result (λ put. put ≡ put_condition env.now cond.now) }
    ensures tree { IfOk result (λ put. cond_tree put ≡ put_cond env.now (cond_tree cond.now)) }
{
    match cond {
        Cond::And(parts) => Ok(Cond::And(put_conds(alloc, &*env, parts)?)),
        Cond::Or(parts) => Ok(Cond::Or(put_conds(alloc, &*env, parts)?)),
        Cond::Not(inner) => Ok(Cond::Not(put_boxed_cond(alloc, &*env, inner)?)),
        Cond::Imply(one, other) => {
            let one = put_boxed_cond(alloc, &*env, one)?;
            let other = put_boxed_cond(alloc, &*env, other)?;
            Ok(Cond::Imply(one, other))
        }
        Cond::Holds(lifted) => {
            let put = put_lifted(&*env, &lifted.get());
            Ok(Cond::Holds(PackedLifted::new(alloc, put)?))
        }
        Cond::Same(one, other) => Ok(Cond::Same(put_term(&*env, *one), put_term(&*env, *other))),
        Cond::Cmp(rel, left, right) => {
            let left = put_boxed_expr(alloc, &*env, left)?;
            let right = put_boxed_expr(alloc, &*env, right)?;
            Ok(Cond::Cmp(*rel, left, right))
        }
        Cond::IsA(term, kind) => Ok(Cond::IsA(put_term(&*env, *term), *kind)),
        Cond::ForSome(params, inner) => {
            let params = params.copy(alloc)?;
            Ok(Cond::ForSome(params, put_boxed_cond(alloc, &*env, inner)?))
        }
        Cond::ForAll(params, inner) => {
            let params = params.copy(alloc)?;
            Ok(Cond::ForAll(params, put_boxed_cond(alloc, &*env, inner)?))
        }
    }
}

#[cycle(put_cond)]
fn put_boxed_cond(alloc: Global, env: &Env, boxed: &BoxedCond) -> Result<BoxedCond, AllocError>
    ensures { IfOk result (λ put. put ≡ put_cond env.now boxed.now) }
{
    let inner = put_cond(alloc, &*env, boxed.get())?;
    BoxedCond::new(alloc, inner)
}

/// Conditions with arguments in place of their variables.
#[cycle(put_cond)]
pub fn put_conds(alloc: Global, env: &Env, conds: &Conds) -> Result<Conds, AllocError>
    ensures { IfOk result (λ put. put ≡ map (put_cond env.now) conds.now) }
{
    let mut put = Conds::new(alloc);
    for cond in conds.as_slice() {
        put.push(put_cond(alloc, &*env, cond)?)?;
    }
    Ok(put)
}

/// That each argument fits its parameter, with room for so many more conditions.
fn fitting(
    alloc: Global,
    params: &[Param],
    args: &[Name],
    more: usize,
) -> Result<Vec<Cond>, AllocError>
    requires same { length params.now ≡ length args.now }
    requires few { more < 2 ^ 63 }
    ensures items { IfOk result (λ conds. map cond_tree conds.items ≡ fitting params.now args.now) }
    ensures room { IfOk result (λ conds. vec_len conds + more ≤ vec_capacity conds) }
{
    let mut fitting = Vec::with_capacity(alloc, params.len() + more)?;
    for at in 0..params.len() {
        fitting.push_reserved(Cond::IsA(Term::Const(args[at]), params[at].kind));
    }
    Ok(fitting)
}

/// Conditions with arguments in place of their variables, and before them that each argument fits its parameter.
pub fn put_list(
    alloc: Global,
    params: &[Param],
    args: &[Name],
    conds: &Conds,
) -> Result<Conds, AllocError>
    requires { length params.now ≡ length args.now }
    ensures { IfOk result (λ put. put ≡ put_list params.now args.now conds.now) }
{
    let env = Env::of(args);
    let conds = conds.as_slice();
    let mut put = fitting(alloc, params, args, conds.len())?;
    for cond in conds {
        put.push_reserved(put_cond(alloc, &env, cond)?);
    }
    Ok(Conds::of(put))
}

fn put_flat(alloc: Global, env: &Env, effects: &[Effect]) -> Result<Seq<Effect>, AllocError>
    ensures { IfOk result (λ put. put ≡ map (put_effect env.now) effects.now) }
{
    let mut put = Seq::new(alloc);
    for effect in effects {
        put.push(put_effect(alloc, env, effect)?)?;
    }
    Ok(put)
}

fn put_guarded(alloc: Global, env: &Env, part: &Guarded) -> Result<Guarded, AllocError>
    ensures { IfOk result (λ put. put ≡ put_guarded env.now part.now) }
{
    match part {
        Guarded::Plain(effect) => Ok(Guarded::Plain(put_effect(alloc, env, effect)?)),
        Guarded::When(cond, effects) => {
            let cond = put_cond(alloc, env, cond)?;
            let effects = put_flat(alloc, env, effects.as_slice())?;
            Ok(Guarded::When(cond, effects))
        }
    }
}

fn put_parts(alloc: Global, env: &Env, parts: &[Guarded]) -> Result<Seq<Guarded>, AllocError>
    ensures { IfOk result (λ put. put ≡ map (put_guarded env.now) parts.now) }
{
    let mut put = Seq::new(alloc);
    for part in parts {
        put.push(put_guarded(alloc, env, part)?)?;
    }
    Ok(put)
}

fn put_spread(alloc: Global, env: &Env, spread: &Spread) -> Result<Spread, AllocError>
    ensures { IfOk result (λ put. put ≡ put_spread env.now spread.now) }
{
    match spread {
        Spread::Once(part) => Ok(Spread::Once(put_guarded(alloc, env, part)?)),
        Spread::ForAll(params, parts) => {
            let params = params.copy(alloc)?;
            let parts = put_parts(alloc, env, parts.as_slice())?;
            Ok(Spread::ForAll(params, parts))
        }
    }
}

/// Effects with arguments in place of their variables.
pub fn put_effects(
    alloc: Global,
    args: &[Name],
    effects: &[Spread],
) -> Result<Seq<Spread>, AllocError>
    ensures { IfOk result (λ put. put ≡ map (put_spread args.now) effects.now) }
{
    let env = Env::of(args);
    let mut put = Vec::with_capacity(alloc, effects.len())?;
    for spread in effects {
        put.push_reserved(put_spread(alloc, &env, spread)?);
    }
    Ok(Seq::of(put))
}
