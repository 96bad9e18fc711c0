//! Where a condition stands.
ghost use Rattle.std.specs.Prelude.{◌≡◌, ◌≤◌, ◌++◌, length, map, IfOk};
ghost use Rattle.ps_world.specs.Failures.{Gives};
ghost use Rattle.ps_lists.specs.Nested.{nesteds};
ghost use Rattle.ps_lists.specs.NestedViews.{nested};
ghost use Rattle.ps_conditions.specs.declared.scopes.TheConstants.{MOST_IN_FORCE};

use ps_lists::{Lexeme, Tree};
use ps_world::{Expr, Failure, Lifted, Param, Params, Term};
use std::alloc::Global;

/// The most variables in force at one place: 6 parameters of an action, and 2 that quantifiers bind.
pub const MOST_IN_FORCE: usize = 8;

/// What words mean where a condition stands, by the variables in force there: in an action of a domain its parameters, what quantifiers bind
/// and the constants, in a line names and what quantifiers bind. Contracts see it as `scopes` of it.
pub trait Scope {
    ghost use Rattle.ps_conditions.specs.Steps.{refusable};
    ghost use Rattle.ps_conditions.specs.Words.{Scopes};

    /// Why words may mean nothing.
    type Refusal;

    ghost scopes: { Self → Scopes (refusable Self.Refusal) };

    /// The term that a word is. It takes no memory, as all but the last of these don't.
    fn term(&self, params: &[Param], word: Lexeme) -> Result<Term, Self::Refusal>
        requires { length params.now ≤ MOST_IN_FORCE }
        ensures { result ≡ ((scopes self.now).words params.now).term word };

    /// The second of two terms that are to be the same, after the first.
    fn second(&self, params: &[Param], first: Lexeme, tree: &Tree) -> Result<Term, Self::Refusal>
        requires { length params.now ≤ MOST_IN_FORCE }
        ensures { result ≡ ((scopes self.now).words params.now).second first (nested tree.now) };

    /// What a word is worth where a number must stand.
    fn worth(&self, params: &[Param], word: Lexeme) -> Result<Expr, Self::Refusal>
        requires { length params.now ≤ MOST_IN_FORCE }
        ensures { result ≡ ((scopes self.now).words params.now).worth word };

    /// A predicate with its arguments.
    fn fact(&self, params: &[Param], head: Lexeme, args: &[Tree]) -> Result<Lifted, Self::Refusal>
        requires { length params.now ≤ MOST_IN_FORCE }
        ensures { result ≡ ((scopes self.now).words params.now).fact head (nesteds (map nested args.now)) };

    /// A function with its arguments.
    fn function(
        &self,
        params: &[Param],
        head: Lexeme,
        args: &[Tree],
    ) -> Result<Lifted, Self::Refusal>
        requires { length params.now ≤ MOST_IN_FORCE }
        ensures { result ≡ ((scopes self.now).words params.now).function head (nesteds (map nested args.now)) };

    /// The variables that a list binds, each with its type. With those in force they are few enough.
    fn bound(
        &self,
        alloc: Global,
        params: &[Param],
        trees: &[Tree],
    ) -> Result<Params, Failure<Self::Refusal>>
        requires { length params.now ≤ MOST_IN_FORCE }
        ensures value { Gives (λ qs. qs) result
            ((scopes self.now).bound params.now (nesteds (map nested trees.now))) }
        ensures few { IfOk result (λ qs. length (params.now ++ qs) ≤ MOST_IN_FORCE) };
}
