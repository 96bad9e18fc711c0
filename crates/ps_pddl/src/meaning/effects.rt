//! What an effect means (PDDL 2.1, section 5).
ghost use Rattle.std.specs.Prelude.{◌≡◌, ◌≤◌, ◌++◌, length, [], IfOk};
ghost use Rattle.ps_world.specs.Failures.{Gives};
ghost use Rattle.ps_conditions.specs.declared.scopes.TheConstants.{MOST_IN_FORCE};
ghost use Rattle.ps_lists.specs.NestedViews.{nested};
ghost use Rattle.ps_pddl.specs.Effects.{addition, adds_fact, is_addition, added, bound_once, change_of, changed, conditional, deleted, deletion, effect, flat_one, for_each, guarded_one, plain_effect, spread_one};
ghost use Rattle.ps_pddl.specs.Forms.{forms};

use super::flattening::{Level, flattened};
use super::lists::binding;
use super::scope::{ActionScope, Binder, InForce};
use super::terms::{fact, value_of};
use crate::refusals::DomainRefusal;
use ps_conditions::{condition, is_not, value};
use ps_grammar::Mark;
use ps_lists::{Lexeme, Tree, count, head, items, rest};
use ps_world::{Effect, Failure, Guarded, NumOp, Param, Params, Seq, Spread};
use std::alloc::{AllocError, Global};

/// How the head of an effect changes a number.
fn change_of(mark: Mark) -> Option<NumOp>
    ensures { result ≡ change_of mark }
{
    match mark {
        Mark::Assign => Some(NumOp::Assign),
        Mark::Increase => Some(NumOp::Increase),
        Mark::Decrease => Some(NumOp::Decrease),
        Mark::ScaleUp => Some(NumOp::ScaleUp),
        Mark::ScaleDown => Some(NumOp::ScaleDown),
        _ => None,
    }
}

/// That a fact is known then.
fn added(
    binder: &Binder,
    params: &[Param],
    word: Lexeme,
    trees: &[Tree],
) -> Result<Option<Effect>, Failure<DomainRefusal>>
    requires { length params.now ≤ MOST_IN_FORCE }
    ensures { Gives (λ e. e) result
        (added binder.now.domain.now params.now word (forms trees.now)) }
{
    let scope = InForce {
        domain: binder.domain,
        params,
    };
    let fact = fact(&scope, word, trees).map_err(Failure::Refused)?;
    Ok(Some(Effect::Add(fact)))
}

/// That a fact is no longer known.
fn deleted(
    binder: &Binder,
    params: &[Param],
    tree: &Tree,
) -> Result<Option<Effect>, Failure<DomainRefusal>>
    requires { length params.now ≤ MOST_IN_FORCE }
    ensures { Gives (λ e. e) result
        (deleted binder.now.domain.now params.now (nested tree.now)) }
{
    let scope = InForce {
        domain: binder.domain,
        params,
    };
    let inside = items(tree);
    let fact = fact(&scope, head(inside), rest(inside)).map_err(Failure::Refused)?;
    Ok(Some(Effect::Delete(fact)))
}

/// That a function's value changes.
fn changed(
    alloc: Global,
    binder: &Binder,
    params: &[Param],
    how: NumOp,
    term: &Tree,
    by: &Tree,
) -> Result<Option<Effect>, Failure<DomainRefusal>>
    requires { length params.now ≤ MOST_IN_FORCE }
    ensures { Gives (λ e. e) result
        (changed binder.now.domain.now params.now
        how (nested term.now) (nested by.now)) }
{
    let scope = InForce {
        domain: binder.domain,
        params,
    };
    let inside = items(term);
    let function = value_of(&scope, head(inside), rest(inside)).map_err(Failure::Refused)?;
    let amount = value(alloc, binder, params, by)?;
    Ok(Some(Effect::Number(how, function, amount)))
}

/// An effect on a fact or a function's value.
fn plain_effect(
    alloc: Global,
    binder: &Binder,
    params: &[Param],
    word: Lexeme,
    trees: &[Tree],
) -> Result<Option<Effect>, Failure<DomainRefusal>>
    requires { length params.now ≤ MOST_IN_FORCE }
    ensures { Gives (λ e. e) result
        (plain_effect binder.now.domain.now params.now word (forms trees.now)) }
{
    match trees {
        [] => added(binder, params, word, trees),
        [_] => added(binder, params, word, trees),
        [term, by, ..] => match change_of(word.mark) {
            Some(how) => changed(alloc, binder, params, how, term, by),
            None => added(binder, params, word, trees),
        },
    }
}

/// The deletion of the first of these.
fn deletion(
    binder: &Binder,
    params: &[Param],
    trees: &[Tree],
) -> Result<Option<Effect>, Failure<DomainRefusal>>
    requires { length params.now ≤ MOST_IN_FORCE }
    ensures { Gives (λ e. e) result
        (deletion binder.now.domain.now params.now (forms trees.now)) }
{
    match trees {
        [] => Ok(None),
        [first, ..] => deleted(binder, params, first),
    }
}

/// An effect on a fact or a function's value, or a deletion.
fn flat_one(
    alloc: Global,
    binder: &Binder,
    params: &[Param],
    word: Lexeme,
    trees: &[Tree],
) -> Result<Option<Effect>, Failure<DomainRefusal>>
    requires { length params.now ≤ MOST_IN_FORCE }
    ensures { Gives (λ e. e) result
        (flat_one binder.now.domain.now params.now word (forms trees.now)) }
{
    if is_not(word.mark) {
        return deletion(binder, params, trees);
    }
    plain_effect(alloc, binder, params, word, trees)
}

/// The effects of a `when`, where these variables are in force.
#[derive(Clone, Copy)]
struct Flats<'a> {
    binder: &'a Binder<'a>,
    params: &'a [Param],
    ghost few: { length params.now ≤ MOST_IN_FORCE },
}

impl<'a> Level for Flats<'a> {
    type One = Effect;

    ghost one = { λ s. flat_one s.binder.now.domain.now s.params.now };

    fn read(
        &self,
        alloc: Global,
        word: Lexeme,
        trees: &[Tree],
    ) -> Result<Option<Effect>, Failure<DomainRefusal>> {
        flat_one(alloc, self.binder, self.params, word, trees)
    }
}

/// Effects that are made where a condition holds.
fn conditional(
    alloc: Global,
    binder: &Binder,
    params: &[Param],
    trees: &[Tree],
) -> Result<Option<Guarded>, Failure<DomainRefusal>>
    requires { length params.now ≤ MOST_IN_FORCE }
    ensures { Gives (λ g. g) result
        (conditional binder.now.domain.now binder.now.own params.now
        (forms trees.now)) }
{
    match trees {
        [cond, tree, ..] => {
            let cond = condition(alloc, binder, params, cond)?;
            let mut all = Seq::new(alloc);
            flattened(alloc, &Flats { binder, params }, tree, &mut all)?;
            Ok(Some(Guarded::When(cond, all)))
        }
        _ => Ok(None),
    }
}

/// An effect, or effects with their condition.
fn guarded_one(
    alloc: Global,
    binder: &Binder,
    params: &[Param],
    word: Lexeme,
    trees: &[Tree],
) -> Result<Option<Guarded>, Failure<DomainRefusal>>
    requires { length params.now ≤ MOST_IN_FORCE }
    ensures { Gives (λ g. g) result
        (guarded_one binder.now.domain.now binder.now.own params.now word
        (forms trees.now)) }
{
    if word.mark == Mark::When {
        return conditional(alloc, binder, params, trees);
    }
    let one = flat_one(alloc, binder, params, word, trees)?;
    Ok(one.map(Guarded::Plain))
}

/// The effects of a `forall`, where these variables are in force.
#[derive(Clone, Copy)]
struct Guards<'a> {
    binder: &'a Binder<'a>,
    params: &'a [Param],
    ghost few: { length params.now ≤ MOST_IN_FORCE },
}

impl<'a> Level for Guards<'a> {
    type One = Guarded;

    ghost one = { λ s. guarded_one s.binder.now.domain.now s.binder.now.own s.params.now };

    fn read(
        &self,
        alloc: Global,
        word: Lexeme,
        trees: &[Tree],
    ) -> Result<Option<Guarded>, Failure<DomainRefusal>> {
        guarded_one(alloc, self.binder, self.params, word, trees)
    }
}

/// The variable that an effect's list binds, if it binds one: its name is that of no parameter.
fn bound_once(
    alloc: Global,
    scope: &ActionScope,
    trees: &[Tree],
) -> Result<Params, Failure<DomainRefusal>>
    ensures value { Gives (λ qs. qs) result
        (bound_once scope.now.domain.now scope.now.params.now (forms trees.now)) }
    ensures few { IfOk result (λ qs. length (scope.now.params.now ++ qs) ≤ MOST_IN_FORCE) }
{
    let most = scope.params.len() + 1;
    binding(alloc, scope.domain, most, scope.params, trees)
}

/// The parameters, and the variables that a list binds after them.
fn in_force(alloc: Global, params: &[Param], bound: &[Param]) -> Result<Vec<Param>, AllocError>
    ensures { IfOk result (λ all. all.items ≡ params.now ++ bound.now) }
{
    let mut all = Vec::new(alloc);
    all.extend_from_slice(params)?;
    all.extend_from_slice(bound)?;
    Ok(all)
}

/// Effects that are made once for each choice of their variables.
fn for_each(
    alloc: Global,
    scope: &ActionScope,
    trees: &[Tree],
) -> Result<Option<Spread>, Failure<DomainRefusal>>
    ensures { Gives (λ s. s) result
        (for_each scope.now.domain.now scope.now.params.now (forms trees.now)) }
{
    match trees {
        [vars, tree, ..] => {
            let bound = bound_once(alloc, scope, items(vars))?;
            let params = in_force(alloc, scope.params, bound.as_slice())?;
            let mut all = Seq::new(alloc);
            let guards = Guards {
                binder: &scope.binder(),
                params: &params,
            };
            flattened(alloc, &guards, tree, &mut all)?;
            Ok(Some(Spread::ForAll(bound, all)))
        }
        _ => Ok(None),
    }
}

/// An effect, or effects with their condition, where no `forall` binds.
fn once(
    alloc: Global,
    scope: &ActionScope,
    word: Lexeme,
    trees: &[Tree],
) -> Result<Option<Guarded>, Failure<DomainRefusal>>
    ensures { Gives (λ g. g) result
        (guarded_one scope.now.domain.now (length scope.now.params.now) scope.now.params.now word
        (forms trees.now)) }
{
    guarded_one(alloc, &scope.binder(), scope.params, word, trees)
}

/// What stands in a list of effects but an `and`.
fn spread_one(
    alloc: Global,
    scope: &ActionScope,
    word: Lexeme,
    trees: &[Tree],
) -> Result<Option<Spread>, Failure<DomainRefusal>>
    ensures { Gives (λ s. s) result
        (spread_one scope.now.domain.now scope.now.params.now word (forms trees.now)) }
{
    if word.mark == Mark::Forall {
        return for_each(alloc, scope, trees);
    }
    let one = once(alloc, scope, word, trees)?;
    Ok(one.map(Spread::Once))
}

/// The effects of an action.
#[derive(Clone, Copy)]
struct Spreads<'a> {
    scope: &'a ActionScope<'a>,
}

impl<'a> Level for Spreads<'a> {
    type One = Spread;

    ghost one = { λ s. spread_one s.scope.now.domain.now s.scope.now.params.now };

    fn read(
        &self,
        alloc: Global,
        word: Lexeme,
        trees: &[Tree],
    ) -> Result<Option<Spread>, Failure<DomainRefusal>> {
        spread_one(alloc, self.scope, word, trees)
    }
}

/// Whether the list adds a fact: most effects do.
fn is_addition(tree: &Tree) -> bool
    ensures { result ≡ is_addition (nested tree.now) }
{
    match tree {
        Tree::Word(_) => false,
        Tree::Group(trees) => count(trees.as_slice()) > 0 && adds_fact(head(trees.as_slice()).mark),
    }
}

/// Whether the word heads an effect that adds a fact.
fn adds_fact(mark: Mark) -> bool
    ensures { result ≡ adds_fact mark }
{
    match mark {
        Mark::And | Mark::Not | Mark::When | Mark::Forall => false,
        _ => change_of(mark).is_none(),
    }
}

/// Puts the fact that these add at the end. It is made in its place: the levels of effects would move it three times.
fn add_fact(
    scope: &ActionScope,
    trees: &[Tree],
    all: &mut Seq<Spread>,
) -> Result<(), Failure<DomainRefusal>>
    ensures { Gives (λ _. all.new) result
        (addition scope.now.domain.now scope.now.params.now (forms trees.now) all.old) }
{
    let in_force = InForce {
        domain: scope.domain,
        params: scope.params,
    };
    let fact = fact(&in_force, head(trees), rest(trees)).map_err(Failure::Refused)?;
    all.push(Spread::Once(Guarded::Plain(Effect::Add(fact))))?;
    Ok(())
}

/// Puts what an effect means at the end; `and` is flattened.
pub fn effect(
    alloc: Global,
    scope: &ActionScope,
    tree: &Tree,
    all: &mut Seq<Spread>,
) -> Result<(), Failure<DomainRefusal>>
    ensures { Gives (λ _. all.new) result
        (effect scope.now.domain.now scope.now.params.now (nested tree.now) all.old) }
{
    if is_addition(tree) {
        return add_fact(scope, items(tree), all);
    }
    flattened(alloc, &Spreads { scope }, tree, all)
}
