//! What a condition means.
ghost use Rattle.std.specs.Prelude.{◌≡◌, ◌≤◌, ◌++◌, ◌&&◌, is_none, length, [], IfOk, IsTrue, map};
ghost use Rattle.ps_world.specs.Failures.{Gives};
ghost use Rattle.ps_world.specs.CondViews.{cond_tree};
ghost use Rattle.ps_world.specs.ExprViews.{expr_tree};
ghost use Rattle.ps_world.specs.declared.conditions.Cond.TheVariants.{Cmp as Comparison, Holds as Known, Imply as Implication, Not as Negated};
ghost use Rattle.ps_lists.specs.Nested.{more, nesteds, none};
ghost use Rattle.ps_lists.specs.NestedViews.{nested};
ghost use Rattle.ps_lists.specs.Places.{head as first_of, items as items_of, rest as rest_of};
ghost use Rattle.ps_conditions.specs.declared.scopes.TheConstants.{MOST_IN_FORCE};
ghost use Rattle.ps_conditions.specs.Signs.{head_of, is_plain, rel_of};
ghost use Rattle.ps_conditions.specs.Steps.{refusable};
ghost use Rattle.ps_conditions.specs.Conditions.{comparison, condition, conditions, equality, form, implication, negation, plain_condition, quantified, quantifier, same_as, stated};

use super::scopes::Scope;
use super::signs::{Head, head_of, is_number, rel_of};
use super::values::value;
use ps_grammar::Mark;
use ps_lists::{Lexeme, Tree, head, items, rest};
use ps_world::{
    BoxedCond, BoxedExpr, Cond, Conds, Expr, Failure, Lifted, PackedLifted, Param, Params, Rel,
};
use std::alloc::{AllocError, Global};

/// Two numeric expressions compared.
fn compared(alloc: Global, rel: Rel, left: Expr, right: Expr) -> Result<Cond, AllocError>
    ensures { IfOk result (λ c. c ≡ Comparison rel (expr_tree left) (expr_tree right)) }
{
    let left = BoxedExpr::new(alloc, left)?;
    let right = BoxedExpr::new(alloc, right)?;
    Ok(Cond::Cmp(rel, left, right))
}

/// Two numeric expressions compared. The first is judged first.
fn comparison<S: Scope>(
    alloc: Global,
    scope: &S,
    params: &[Param],
    rel: Rel,
    left: &Tree,
    right: &Tree,
) -> Result<Cond, Failure<S::Refusal>>
    requires { length params.now ≤ MOST_IN_FORCE }
    ensures { Gives (λ c. c) result
        (comparison (refusable S.Refusal) ((S.scopes scope.now).words params.now) rel (nested left.now) (nested right.now)) }
{
    let left = value(alloc, scope, params, left)?;
    let right = value(alloc, scope, params, right)?;
    Ok(compared(alloc, rel, left, right)?)
}

/// Two terms that are to be the same. The first is judged first.
fn same_as<S: Scope>(
    scope: &S,
    params: &[Param],
    first: &Lexeme,
    right: &Tree,
) -> Result<Cond, S::Refusal>
    requires { length params.now ≤ MOST_IN_FORCE }
    ensures { result ≡ same_as (refusable S.Refusal) ((S.scopes scope.now).words params.now) first.now
        (nested right.now) }
{
    match scope.term(params, *first) {
        Ok(left) => match scope.second(params, *first, right) {
            Ok(right) => Ok(Cond::Same(left, right)),
            Err(refusal) => Err(refusal),
        },
        Err(refusal) => Err(refusal),
    }
}

/// `=`: numbers are compared where the first operand is a number or a parenthesis, else terms.
fn equality<S: Scope>(
    alloc: Global,
    scope: &S,
    params: &[Param],
    left: &Tree,
    right: &Tree,
) -> Result<Cond, Failure<S::Refusal>>
    requires { length params.now ≤ MOST_IN_FORCE }
    ensures { Gives (λ c. c) result
        (equality (refusable S.Refusal) ((S.scopes scope.now).words params.now) (nested left.now) (nested right.now)) }
{
    match left {
        Tree::Group(_) => comparison(alloc, scope, params, Rel::Eq, left, right),
        Tree::Word(word) => {
            if is_number(word.mark) {
                return comparison(alloc, scope, params, Rel::Eq, left, right);
            }
            same_as(scope, params, word, right).map_err(Failure::Refused)
        }
    }
}

/// That a fact is known.
fn known(alloc: Global, fact: Lifted) -> Result<Cond, AllocError>
    ensures { IfOk result (λ c. c ≡ Known fact) }
{
    Ok(Cond::Holds(PackedLifted::new(alloc, fact)?))
}

/// That a fact is known, by its words.
fn stated<S: Scope>(
    alloc: Global,
    scope: &S,
    params: &[Param],
    word: Lexeme,
    trees: &[Tree],
) -> Result<Cond, Failure<S::Refusal>>
    requires { length params.now ≤ MOST_IN_FORCE }
    ensures { Gives (λ c. c) result
        (stated (refusable S.Refusal) ((S.scopes scope.now).words params.now) word (nesteds (map nested trees.now))) }
{
    match scope.fact(params, word, trees) {
        Ok(fact) => Ok(known(alloc, fact)?),
        Err(refusal) => Err(Failure::Refused(refusal)),
    }
}

/// A comparison, two terms that are the same, or a fact.
fn plain_condition<S: Scope>(
    alloc: Global,
    scope: &S,
    params: &[Param],
    word: Lexeme,
    trees: &[Tree],
) -> Result<Cond, Failure<S::Refusal>>
    requires { length params.now ≤ MOST_IN_FORCE }
    ensures { Gives (λ c. c) result
        (plain_condition (refusable S.Refusal) ((S.scopes scope.now).words params.now) word (nesteds (map nested trees.now))) }
{
    match trees {
        [] => stated(alloc, scope, params, word, trees),
        [_] => stated(alloc, scope, params, word, trees),
        [left, right, ..] => match rel_of(word.mark) {
            None => stated(alloc, scope, params, word, trees),
            Some(Rel::Eq) => equality(alloc, scope, params, left, right),
            Some(rel) => comparison(alloc, scope, params, rel, left, right),
        },
    }
}

/// That a condition doesn't hold.
fn negated(alloc: Global, inner: Cond) -> Result<Cond, AllocError>
    ensures { IfOk result (λ c. c ≡ Negated (cond_tree inner)) }
{
    Ok(Cond::Not(BoxedCond::new(alloc, inner)?))
}

/// That the second condition holds where the first does.
fn implied(alloc: Global, one: Cond, other: Cond) -> Result<Cond, AllocError>
    ensures { IfOk result (λ c. c ≡ Implication (cond_tree one) (cond_tree other)) }
{
    let one = BoxedCond::new(alloc, one)?;
    let other = BoxedCond::new(alloc, other)?;
    Ok(Cond::Imply(one, other))
}

/// That a condition holds for each choice of its variables, or for some.
fn quantifier(alloc: Global, each: bool, bound: Params, inner: Cond) -> Result<Cond, AllocError>
    ensures { IfOk result (λ c. c ≡ quantifier each bound (cond_tree inner)) }
{
    let inner = BoxedCond::new(alloc, inner)?;
    if each {
        Ok(Cond::ForAll(bound, inner))
    } else {
        Ok(Cond::ForSome(bound, inner))
    }
}

/// The variables in force below a quantifier: these, and then its own.
fn in_force(alloc: Global, params: &[Param], bound: &[Param]) -> Result<Vec<Param>, AllocError>
    ensures { IfOk result (λ all. all.items ≡ params.now ++ bound.now) }
{
    let mut all = Vec::new(alloc);
    all.extend_from_slice(params)?;
    all.extend_from_slice(bound)?;
    Ok(all)
}

/// What these conditions mean, one after another.
#[cycle(condition)]
fn conditions<S: Scope>(
    alloc: Global,
    scope: &S,
    params: &[Param],
    trees: &[Tree],
) -> Result<Conds, Failure<S::Refusal>>
    requires { length params.now ≤ MOST_IN_FORCE }
    ensures { Gives (λ cs. cs) result
        (conditions (refusable S.Refusal) (S.scopes scope.now) params.now (nesteds (map nested trees.now)) []) }
{
    // Room for just as many as there are: of short conditions a text of 1 MiB has very many.
    let mut all = Vec::with_capacity(alloc, trees.len())?;
    for tree in trees {
        let one = condition(alloc, scope, params, tree)?;
        all.push(one)?;
    }
    Ok(Conds::of(all))
}

/// That the first of these conditions doesn't hold.
#[cycle(condition)]
fn negation<S: Scope>(
    alloc: Global,
    scope: &S,
    params: &[Param],
    trees: &[Tree],
) -> Result<Cond, Failure<S::Refusal>>
    requires { length params.now ≤ MOST_IN_FORCE }
    ensures { Gives (λ c. c) result
        (negation (refusable S.Refusal) (S.scopes scope.now) params.now (nesteds (map nested trees.now))) }
{
    match trees {
        [] => Ok(Cond::And(Conds::new(alloc))),
        [inner, ..] => {
            let inner = condition(alloc, scope, params, inner)?;
            Ok(negated(alloc, inner)?)
        }
    }
}

/// What two conditions mean of which the first implies the second.
#[cycle(condition)]
fn both<S: Scope>(
    alloc: Global,
    scope: &S,
    params: &[Param],
    one: &Tree,
    other: &Tree,
) -> Result<Cond, Failure<S::Refusal>>
    requires { length params.now ≤ MOST_IN_FORCE }
    ensures { Gives (λ c. c) result
        (implication (refusable S.Refusal) (S.scopes scope.now) params.now
        (more (nested one.now) (more (nested other.now) none))) }
{
    let one = condition(alloc, scope, params, one)?;
    let other = condition(alloc, scope, params, other)?;
    Ok(implied(alloc, one, other)?)
}

/// That the second of these conditions holds where the first does.
#[cycle(condition)]
fn implication<S: Scope>(
    alloc: Global,
    scope: &S,
    params: &[Param],
    trees: &[Tree],
) -> Result<Cond, Failure<S::Refusal>>
    requires { length params.now ≤ MOST_IN_FORCE }
    ensures { Gives (λ c. c) result
        (implication (refusable S.Refusal) (S.scopes scope.now) params.now (nesteds (map nested trees.now))) }
{
    match trees {
        [one, other, ..] => both(alloc, scope, params, one, other),
        _ => Ok(Cond::And(Conds::new(alloc))),
    }
}

/// What a list of variables and a condition mean, in which they are in force too.
#[cycle(condition)]
fn binding<S: Scope>(
    alloc: Global,
    scope: &S,
    params: &[Param],
    each: bool,
    vars: &Tree,
    inner: &Tree,
) -> Result<Cond, Failure<S::Refusal>>
    requires { length params.now ≤ MOST_IN_FORCE }
    ensures { Gives (λ c. c) result
        (quantified (refusable S.Refusal) (S.scopes scope.now) params.now each
        (more (nested vars.now) (more (nested inner.now) none))) }
{
    let bound = scope.bound(alloc, params, items(vars))?;
    let all = in_force(alloc, params, bound.as_slice())?;
    let inner = condition(alloc, scope, &all, inner)?;
    Ok(quantifier(alloc, each, bound, inner)?)
}

/// What a quantifier means, by its variables and its condition.
#[cycle(condition)]
fn quantified<S: Scope>(
    alloc: Global,
    scope: &S,
    params: &[Param],
    each: bool,
    trees: &[Tree],
) -> Result<Cond, Failure<S::Refusal>>
    requires { length params.now ≤ MOST_IN_FORCE }
    ensures { Gives (λ c. c) result
        (quantified (refusable S.Refusal) (S.scopes scope.now) params.now each (nesteds (map nested trees.now))) }
{
    match trees {
        [vars, inner, ..] => binding(alloc, scope, params, each, vars, inner),
        _ => Ok(Cond::And(Conds::new(alloc))),
    }
}

/// What a head and what follows it mean.
#[cycle(condition)]
fn form<S: Scope>(
    alloc: Global,
    scope: &S,
    params: &[Param],
    trees: &[Tree],
) -> Result<Cond, Failure<S::Refusal>>
    requires { length params.now ≤ MOST_IN_FORCE }
    ensures { Gives (λ c. c) result
        (form (refusable S.Refusal) (S.scopes scope.now) params.now (nesteds (map nested trees.now))) }
{
    if trees.is_empty() {
        return Ok(Cond::And(Conds::new(alloc)));
    }
    let word = head(trees);
    let operands = rest(trees);
    match head_of(word.mark) {
        Head::All => {
            let all = conditions(alloc, scope, params, operands)?;
            Ok(Cond::And(all))
        }
        Head::Any => {
            let all = conditions(alloc, scope, params, operands)?;
            Ok(Cond::Or(all))
        }
        Head::No => negation(alloc, scope, params, operands),
        Head::Implied => implication(alloc, scope, params, operands),
        Head::ForSome => quantified(alloc, scope, params, false, operands),
        Head::ForAll => quantified(alloc, scope, params, true, operands),
        Head::Plain => plain_condition(alloc, scope, params, word, operands),
    }
}

/// What a condition means, where these variables are in force.
#[cycle(condition)]
pub fn condition<S: Scope>(
    alloc: Global,
    scope: &S,
    params: &[Param],
    tree: &Tree,
) -> Result<Cond, Failure<S::Refusal>>
    requires { length params.now ≤ MOST_IN_FORCE }
    ensures { Gives (λ c. c) result
        (condition (refusable S.Refusal) (S.scopes scope.now) params.now (nested tree.now)) }
{
    match tree {
        Tree::Word(_) => Ok(Cond::And(Conds::new(alloc))),
        Tree::Group(trees) => form(alloc, scope, params, trees.as_slice()),
    }
}

/// Whether a form with this word at its head states a fact.
fn states_fact(mark: Mark) -> bool
    ensures { result ≡ (is_plain (head_of mark) && is_none (rel_of mark)) }
{
    match head_of(mark) {
        Head::Plain => rel_of(mark).is_none(),
        _ => false,
    }
}

/// Whether a condition is known by its head to state a fact, whatever its scope.
fn is_fact<S: Scope>(_scope: &S, params: &[Param], tree: &Tree) -> bool
    ensures { IsTrue result → condition (refusable S.Refusal) (S.scopes _scope.now) params.now (nested tree.now)
        ≡ stated (refusable S.Refusal) ((S.scopes _scope.now).words params.now) (first_of (items_of (nested tree.now)))
        (rest_of (items_of (nested tree.now))) }
{
    let _ = params;
    let inside = items(tree);
    match inside {
        [] => false,
        _ => states_fact(head(inside).mark),
    }
}

/// Puts what a condition of any form means at the end.
fn add_form<S: Scope>(
    alloc: Global,
    scope: &S,
    params: &[Param],
    tree: &Tree,
    all: &mut Conds,
) -> Result<(), Failure<S::Refusal>>
    requires { length params.now ≤ MOST_IN_FORCE }
    ensures { Gives (λ _. all.new) result
        (conditions (refusable S.Refusal) (S.scopes scope.now) params.now (more (nested tree.now) none) all.old) }
{
    let cond = condition(alloc, scope, params, tree)?;
    all.push(cond)?;
    Ok(())
}

/// Puts what a condition means at the end. A fact, as most are, is put there without being moved on the way.
pub fn add_condition<S: Scope>(
    alloc: Global,
    scope: &S,
    params: &[Param],
    tree: &Tree,
    all: &mut Conds,
) -> Result<(), Failure<S::Refusal>>
    requires { length params.now ≤ MOST_IN_FORCE }
    ensures { Gives (λ _. all.new) result
        (conditions (refusable S.Refusal) (S.scopes scope.now) params.now (more (nested tree.now) none) all.old) }
{
    if !is_fact(scope, params, tree) {
        return add_form(alloc, scope, params, tree, all);
    }
    let inside = items(tree);
    match scope.fact(params, head(inside), rest(inside)) {
        Ok(fact) => {
            all.push(known(alloc, fact)?)?;
            Ok(())
        }
        Err(refusal) => Err(Failure::Refused(refusal)),
    }
}
