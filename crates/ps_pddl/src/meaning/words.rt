//! What words mean in an action, and what quantifiers bind there.
ghost use Rattle.std.specs.Prelude.{◌≡◌, ◌≤◌, ◌++◌, length, map, IfOk};
ghost use Rattle.ps_world.specs.Failures.{Gives};
ghost use Rattle.ps_conditions.specs.declared.scopes.TheConstants.{MOST_IN_FORCE};
ghost use Rattle.ps_lists.specs.Nested.{nesteds};
ghost use Rattle.ps_lists.specs.NestedViews.{nested};
ghost use Rattle.ps_pddl.specs.Words.{bound, plain_value, scopes, second, term, words};

use super::lists::binding;
use super::scope::{Binder, InForce};
use super::terms::{fact, resolved, value_of};
use crate::refusals::DomainRefusal;
use ps_conditions::{Scope, is_number};
use ps_lists::{Lexeme, Tree};
use ps_world::{Expr, Failure, Lifted, Param, Params, Term};
use std::alloc::Global;

/// The term that a word is. It may be `Unknown`.
fn term(scope: &InForce, word: Lexeme) -> Result<Term, DomainRefusal>
    ensures { result ≡ term scope.now.domain.now scope.now.params.now word }
{
    match resolved(scope, word) {
        Ok(typed) => Ok(typed.term),
        Err(fault) => Err(fault),
    }
}

/// The term that is to be the same as that of the first word. It must be one, else `Kind` tells the first word.
fn second(scope: &InForce, first: Lexeme, tree: &Tree) -> Result<Term, DomainRefusal>
    ensures { result ≡ second scope.now.domain.now scope.now.params.now first (nested tree.now) }
{
    match tree {
        Tree::Group(_) => Err(DomainRefusal::Kind { at: first.at }),
        Tree::Word(word) => {
            if is_number(word.mark) {
                return Err(DomainRefusal::Kind { at: first.at });
            }
            term(scope, *word)
        }
    }
}

/// A word where a number must stand. A term isn't one: `Unknown` comes before `Kind`.
fn plain_value(scope: &InForce, word: Lexeme) -> Result<Expr, DomainRefusal>
    ensures { result ≡ plain_value scope.now.domain.now scope.now.params.now word }
{
    let at = word.at;
    if is_number(word.mark) {
        return Ok(Expr::Num(word.number));
    }
    match resolved(scope, word) {
        Ok(_) => Err(DomainRefusal::Kind { at }),
        Err(fault) => Err(fault),
    }
}

/// The variables that a list binds where these are in force, after those: at most two more than the action's parameters are in force.
fn bound(
    alloc: Global,
    binder: &Binder,
    params: &[Param],
    trees: &[Tree],
) -> Result<Params, Failure<DomainRefusal>>
    requires { length params.now ≤ MOST_IN_FORCE }
    ensures value { Gives (λ qs. qs) result
        (bound binder.now.domain.now binder.now.own params.now (nesteds (map nested trees.now))) }
    ensures few { IfOk result (λ qs. length (params.now ++ qs) ≤ MOST_IN_FORCE) }
{
    let most = binder.own.min(params.len()) + 2;
    binding(alloc, binder.domain, most, params, trees)
}

impl<'a> Scope for Binder<'a> {
    type Refusal = DomainRefusal;

    ghost scopes = { λ b. scopes b.domain.now b.own };

    fn term(&self, params: &[Param], word: Lexeme) -> Result<Term, DomainRefusal> {
        term(
            &InForce {
                domain: self.domain,
                params,
            },
            word,
        )
    }

    fn second(&self, params: &[Param], first: Lexeme, tree: &Tree) -> Result<Term, DomainRefusal> {
        second(
            &InForce {
                domain: self.domain,
                params,
            },
            first,
            tree,
        )
    }

    fn worth(&self, params: &[Param], word: Lexeme) -> Result<Expr, DomainRefusal> {
        plain_value(
            &InForce {
                domain: self.domain,
                params,
            },
            word,
        )
    }

    fn fact(&self, params: &[Param], head: Lexeme, args: &[Tree]) -> Result<Lifted, DomainRefusal> {
        fact(
            &InForce {
                domain: self.domain,
                params,
            },
            head,
            args,
        )
    }

    fn function(
        &self,
        params: &[Param],
        head: Lexeme,
        args: &[Tree],
    ) -> Result<Lifted, DomainRefusal> {
        value_of(
            &InForce {
                domain: self.domain,
                params,
            },
            head,
            args,
        )
    }

    fn bound(
        &self,
        alloc: Global,
        params: &[Param],
        trees: &[Tree],
    ) -> Result<Params, Failure<DomainRefusal>> {
        bound(alloc, self, params, trees)
    }
}
