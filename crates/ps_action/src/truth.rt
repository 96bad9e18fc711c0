//! Whether conditions hold.
ghost use Rattle.std.specs.Prelude.{◌≡◌, ◌≤◌, length};
ghost use Rattle.std.specs.List.{list_all, list_any};
ghost use Rattle.ps_world.specs.CondViews.{cond_tree};
ghost use Rattle.ps_action.specs.Bindings.{bindings};
ghost use Rattle.ps_action.specs.Truth.{all_true, all_true_with, any_true_with, compare_so, fits, is_true, is_true_with, related};

use crate::known::{Known, Types};
use crate::values::value_with;
use ps_world::{BoxedCond, Cond, Conds, Env, MOST_ARGUMENTS, Name, Num, Param, Rel};

/// Whether two numbers compare so.
fn related(rel: Rel, a: Num, b: Num) -> bool
    ensures { result ≡ related rel a b }
{
    match rel {
        Rel::Lt => a < b,
        Rel::Le => a <= b,
        Rel::Eq => a == b,
        Rel::Ge => a >= b,
        Rel::Gt => a > b,
    }
}

/// Whether two sides compare so. False where one of them isn't defined.
fn compare_so(rel: Rel, left: Option<Num>, right: Option<Num>) -> bool
    ensures { result ≡ compare_so rel left right }
{
    match (left, right) {
        (Some(a), Some(b)) => related(rel, a, b),
        _ => false,
    }
}

/// Whether what has this type, if it is an instance, fits that one.
fn fits<T: Types>(types: &T, kind: Option<Name>, want: Name) -> bool
    ensures { result ≡ fits (T.types types.now) kind want }
{
    match kind {
        Some(have) => types.is_subtype(have, want),
        None => false,
    }
}

/// Whether a condition holds (PDDL 2.1, section 4): a comparison with a side that isn't defined is false, an empty `and` is true, and
/// an empty `or` is false. A variable that no quantifier binds counts as `object`. A quantifier tries each choice of instances for its
/// variables, until one decides it. It takes no memory.
pub fn is_true<K: Known, T: Types>(known: &K, types: &T, cond: &Cond) -> bool
    ensures { result ≡ is_true (T.types types.now) (K.known known.now) (cond_tree cond.now) }
{
    is_true_with(known, types, &Env::of(&[]), cond)
}

/// Whether each condition of a list holds. It takes no memory.
pub fn all_true<K: Known, T: Types>(known: &K, types: &T, conds: &Conds) -> bool
    ensures { result ≡ all_true (T.types types.now) (K.known known.now) conds.now }
{
    all_true_with(known, types, &Env::of(&[]), conds)
}

/// Whether a condition holds, where variables stand for these names.
#[cycle(truth)]
pub(crate) fn is_true_with<K: Known, T: Types>(known: &K, types: &T, env: &Env, cond: &Cond) -> bool
    ensures { result ≡ is_true_with (T.types types.now) (K.known known.now) env.now
        (cond_tree cond.now) }
{
    match cond {
        Cond::And(parts) => all_true_with(known, types, &*env, parts),
        Cond::Or(parts) => any_true_with(known, types, &*env, parts),
        Cond::Not(inner) => !is_boxed_true_with(known, types, &*env, inner),
        Cond::Imply(one, other) => {
            !is_boxed_true_with(known, types, &*env, one)
                || is_boxed_true_with(known, types, &*env, other)
        }
        Cond::Holds(lifted) => known.has(&lifted.get().ground_in(env)),
        Cond::Same(one, other) => one.name_in(env) == other.name_in(env),
        Cond::Cmp(rel, left, right) => {
            let left = value_with(known, env, left.get());
            let right = value_with(known, env, right.get());
            compare_so(*rel, left, right)
        }
        Cond::IsA(term, kind) => fits(types, known.kind_of(term.name_in(env)), *kind),
        Cond::ForSome(params, inner) => {
            let _few = params.len();
            is_some_true(known, types, &*env, params.as_slice(), inner)
        }
        Cond::ForAll(params, inner) => {
            let _few = params.len();
            is_each_true(known, types, &*env, params.as_slice(), inner)
        }
    }
}

#[cycle(truth)]
fn is_boxed_true_with<K: Known, T: Types>(known: &K, types: &T, env: &Env, cond: &BoxedCond) -> bool
    ensures { result ≡ is_true_with (T.types types.now) (K.known known.now) env.now cond.now }
{
    is_true_with(known, types, &*env, cond.get())
}

/// Whether each condition of a list holds, where variables stand for these names.
#[cycle(truth)]
fn all_true_with<K: Known, T: Types>(known: &K, types: &T, env: &Env, conds: &Conds) -> bool
    ensures { result ≡ all_true_with (T.types types.now) (K.known known.now) env.now conds.now }
{
    for cond in conds.as_slice() {
        if !is_true_with(known, types, &*env, cond) {
            return false;
        }
    }
    true
}

/// Whether one condition of a list holds, where variables stand for these names.
#[cycle(truth)]
fn any_true_with<K: Known, T: Types>(known: &K, types: &T, env: &Env, conds: &Conds) -> bool
    ensures { result ≡ any_true_with (T.types types.now) (K.known known.now) env.now conds.now }
{
    for cond in conds.as_slice() {
        if is_true_with(known, types, &*env, cond) {
            return true;
        }
    }
    false
}

/// Whether each choice of instances that fit these variables makes a condition true.
#[cycle(truth)]
fn is_each_true<K: Known, T: Types>(
    known: &K,
    types: &T,
    env: &Env,
    params: &[Param],
    cond: &BoxedCond,
) -> bool
    requires { length params.now ≤ MOST_ARGUMENTS }
    ensures { result ≡ list_all (λ e. is_true_with (T.types types.now) (K.known known.now) e cond.now)
        (bindings (T.types types.now) (K.known known.now).instances params.now env.now) }
{
    let Some((first, rest)) = params.split_first() else {
        return is_boxed_true_with(known, types, &*env, cond);
    };
    if !types.is_type(first.kind) {
        return true;
    }
    for (name, kind) in known.instances() {
        if types.is_subtype(*kind, first.kind)
            && !is_each_true(known, types, &Env::with(&*env, *name), rest, cond)
        {
            return false;
        }
    }
    true
}

/// Whether some choice of instances that fit these variables makes a condition true.
#[cycle(truth)]
fn is_some_true<K: Known, T: Types>(
    known: &K,
    types: &T,
    env: &Env,
    params: &[Param],
    cond: &BoxedCond,
) -> bool
    requires { length params.now ≤ MOST_ARGUMENTS }
    ensures { result ≡ list_any (λ e. is_true_with (T.types types.now) (K.known known.now) e cond.now)
        (bindings (T.types types.now) (K.known known.now).instances params.now env.now) }
{
    let Some((first, rest)) = params.split_first() else {
        return is_boxed_true_with(known, types, &*env, cond);
    };
    if !types.is_type(first.kind) {
        return false;
    }
    for (name, kind) in known.instances() {
        if types.is_subtype(*kind, first.kind)
            && is_some_true(known, types, &Env::with(&*env, *name), rest, cond)
        {
            return true;
        }
    }
    false
}
