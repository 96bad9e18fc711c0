//! Whether a list of effects has a fault, told without a list of those for which it stands.
ghost use Rattle.std.specs.Prelude.{◌≡◌, ◌≤◌, ◌∷◌, [], flat_map, map, is_none};
ghost use Rattle.ps_world.specs.ExprViews.{expr_tree};
ghost use Rattle.ps_action.specs.Bindings.{bindings, bindings_from};
ghost use Rattle.ps_action.specs.Effects.{count_after, fault_of_effect, fault_of_effects, flat, flat_guarded, flat_spread, sets};
ghost use Rattle.ps_action.specs.Fine.{counted, one_more};
ghost use Rattle.ps_action.specs.Grounding.{put_effect, put_tree};

use crate::effects::{count_fault, new_count};
use crate::known::{Known, Types};
use crate::truth::is_true_with;
use crate::values::value_with;
use ps_world::{Effect, Env, Expr, Fact, Guarded, Name, NumOp, Param, Spread};

/// A test of effects.
trait Test {
    ghost use Rattle.std.specs.Prelude.{Bool};
    ghost use Rattle.ps_world.specs.declared.actions.Effect.{Effect as EffectView};

    ghost passed: { Self → EffectView → Bool };

    /// Whether an effect passes, where its variables stand for these names. It takes no memory.
    fn passes(&self, env: &Env, effect: &Effect) -> bool
        ensures { result ≡ passed self.now (put_effect env.now effect.now) };
}

/// Whether an effect gives this function term a value.
#[derive(Drop)]
struct Sets<'a> {
    term: &'a Fact,
}

impl<'a> Test for Sets<'a> {
    ghost passed = { λ s e. sets s.term.now e };

    fn passes(&self, env: &Env, effect: &Effect) -> bool {
        match effect {
            Effect::Number(_, lifted, _) => self.term.cmp(&lifted.ground_in(env)).is_eq(),
            _ => false,
        }
    }
}

/// Whether an effect has a fault among those for which a list stands: one of its own, or another one gives its term a value too.
#[derive(Drop)]
struct Faulty<'a, K, T> {
    known: &'a K,
    types: &'a T,
    effects: &'a [Spread],
}

impl<'a, K: Known, T: Types> Test for Faulty<'a, K, T> {
    ghost use Rattle.std.specs.Prelude.{not};
    ghost use Rattle.ps_action.specs.Fine.{is_fine};

    ghost passed = { λ f e. not (is_fine (K.known f.known.now) (flat (T.types f.types.now) (K.known f.known.now) f.effects.now) e) };

    #[tactic(auto, using(crate::proofs::Fine::faulty_number))]
    fn passes(&self, env: &Env, effect: &Effect) -> bool {
        match effect {
            Effect::Number(_, lifted, _) => {
                let term = lifted.ground_in(env);
                !is_countable(self.known, env, effect)
                    || setters(self.known, self.types, &term, self.effects) > 1
            }
            Effect::Add(_) => false,
            Effect::Delete(_) => false,
        }
    }
}

/// The count that a numeric effect gives, where variables stand for these names. None exactly where it isn't defined.
#[tactic(auto, using(crate::proofs::Grounded::value_put_in))]
fn count_in<K: Known>(known: &K, env: &Env, how: NumOp, term: &Fact, expr: &Expr) -> Option<i128>
    ensures { result ≡ count_after (K.known known.now) how term.now (put_tree env.now (expr_tree expr.now)) }
{
    match value_with(known, env, expr) {
        Some(by) => new_count(how, known.value(term), by),
        None => None,
    }
}

/// Whether an effect has no fault of its own: its new value is defined and in range.
fn is_countable<K: Known>(known: &K, env: &Env, effect: &Effect) -> bool
    ensures { result ≡ is_none (fault_of_effect (K.known known.now) [] 0 (put_effect env.now effect.now)) }
{
    match effect {
        Effect::Number(how, lifted, expr) => {
            let count = count_in(known, env, *how, &lifted.ground_in(env), expr);
            count_fault(0, count).is_none()
        }
        _ => true,
    }
}

/// How many effects give this function term a value, up to two.
fn setters<K: Known, T: Types>(known: &K, types: &T, term: &Fact, effects: &[Spread]) -> usize
    ensures { result ≡ counted (sets term.now) 0 (flat (T.types types.now) (K.known known.now) effects.now) }
{
    counted(known, types, &Sets { term }, effects, 0)
}

/// Whether a list of effects has no fault in what is known. It takes no memory: each effect for which the list stands is looked at
/// alone, and where it gives a function term a value, the list is gone through for another one that does.
pub fn is_faultless<K: Known, T: Types>(known: &K, types: &T, effects: &[Spread]) -> bool
    ensures { result ≡ is_none (fault_of_effects (T.types types.now) (K.known known.now) effects.now) }
{
    let faulty = Faulty {
        known,
        types,
        effects,
    };
    counted(known, types, &faulty, effects, 1) == 1
}

/// A count with the effects of a list that pass a test, up to two.
fn counted<K: Known, T: Types, P: Test>(
    known: &K,
    types: &T,
    test: &P,
    effects: &[Spread],
    start: usize,
) -> usize
    requires { start ≤ 2 }
    ensures count { result ≡ counted (P.passed test.now) start (flat (T.types types.now) (K.known known.now) effects.now) }
    ensures few { result ≤ 2 }
{
    let mut count = start;
    for spread in effects {
        count = counted_in_spread(known, types, test, spread, count);
    }
    count
}

fn counted_in_spread<K: Known, T: Types, P: Test>(
    known: &K,
    types: &T,
    test: &P,
    spread: &Spread,
    start: usize,
) -> usize
    requires { start ≤ 2 }
    ensures count { result ≡ counted (P.passed test.now) start (flat_spread (T.types types.now) (K.known known.now) spread.now) }
    ensures few { result ≤ 2 }
{
    match spread {
        Spread::Once(part) => counted_in_part(known, types, test, &Env::of(&[]), part, start),
        Spread::ForAll(params, parts) => {
            let params = params.as_slice();
            counted_in_bindings(
                known,
                types,
                test,
                &Env::of(&[]),
                params,
                parts.as_slice(),
                start,
            )
        }
    }
}

/// A count with those of these parts, once for each choice of instances that fit the variables.
#[cycle(bindings)]
#[tactic(auto, using(crate::proofs::Spreading::count_on))]
fn counted_in_bindings<K: Known, T: Types, P: Test>(
    known: &K,
    types: &T,
    test: &P,
    env: &Env,
    params: &[Param],
    parts: &[Guarded],
    start: usize,
) -> usize
    requires { start ≤ 2 }
    ensures count { result ≡ counted (P.passed test.now) start
        (flat_map (λ e. flat_map (flat_guarded (T.types types.now) (K.known known.now) e) parts.now)
        (bindings (T.types types.now) (K.known known.now).instances params.now env.now)) }
    ensures few { result ≤ 2 }
{
    let Some((first, rest)) = params.split_first() else {
        return counted_in_parts(known, types, test, &*env, parts, start);
    };
    if !types.is_type(first.kind) {
        return start;
    }
    let mut count = start;
    for instance in known.instances() {
        count = counted_from(
            known, types, test, &*env, instance, first, rest, parts, count,
        );
    }
    count
}

/// The same for each choice in which the first variable stands for this instance, if it fits.
#[cycle(bindings)]
fn counted_from<K: Known, T: Types, P: Test>(
    known: &K,
    types: &T,
    test: &P,
    env: &Env,
    instance: &(Name, Name),
    first: &Param,
    rest: &[Param],
    parts: &[Guarded],
    start: usize,
) -> usize
    requires { start ≤ 2 }
    ensures count { result ≡ counted (P.passed test.now) start
        (flat_map (λ e. flat_map (flat_guarded (T.types types.now) (K.known known.now) e) parts.now)
        (bindings_from (T.types types.now) (K.known known.now).instances first.now rest.now env.now
        (instance.now ∷ []))) }
    ensures few { result ≤ 2 }
{
    if types.is_subtype(instance.1, first.kind) {
        let inner = Env::with(&*env, instance.0);
        return counted_in_bindings(known, types, test, &inner, rest, parts, start);
    }
    start
}

fn counted_in_parts<K: Known, T: Types, P: Test>(
    known: &K,
    types: &T,
    test: &P,
    env: &Env,
    parts: &[Guarded],
    start: usize,
) -> usize
    requires { start ≤ 2 }
    ensures count { result ≡ counted (P.passed test.now) start
        (flat_map (flat_guarded (T.types types.now) (K.known known.now) env.now) parts.now) }
    ensures few { result ≤ 2 }
{
    let mut count = start;
    for part in parts {
        count = counted_in_part(known, types, test, env, part, count);
    }
    count
}

fn counted_in_part<K: Known, T: Types, P: Test>(
    known: &K,
    types: &T,
    test: &P,
    env: &Env,
    part: &Guarded,
    start: usize,
) -> usize
    requires { start ≤ 2 }
    ensures count { result ≡ counted (P.passed test.now) start
        (flat_guarded (T.types types.now) (K.known known.now) env.now part.now) }
    ensures few { result ≤ 2 }
{
    match part {
        Guarded::Plain(effect) => counted_one(test, env, effect, start),
        Guarded::When(cond, effects) => {
            if is_true_with(known, types, env, cond) {
                return counted_in_effects(test, env, effects.as_slice(), start);
            }
            start
        }
    }
}

fn counted_in_effects<P: Test>(test: &P, env: &Env, effects: &[Effect], start: usize) -> usize
    requires { start ≤ 2 }
    ensures count { result ≡ counted (P.passed test.now) start (map (put_effect env.now) effects.now) }
    ensures few { result ≤ 2 }
{
    let mut count = start;
    for effect in effects {
        count = counted_one(test, env, effect, count);
    }
    count
}

fn counted_one<P: Test>(test: &P, env: &Env, effect: &Effect, start: usize) -> usize
    requires { start ≤ 2 }
    ensures count { result ≡ one_more start (P.passed test.now (put_effect env.now effect.now)) }
    ensures few { result ≤ 2 }
{
    if start < 2 && test.passes(env, effect) {
        return start + 1;
    }
    start
}
