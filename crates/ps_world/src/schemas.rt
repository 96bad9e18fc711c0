//! Facts with parameters in them, as conditions and effects speak of them.
ghost use Rattle.std.specs.Prelude.{◌≡◌, ◌==◌, ◌<◌, ◌≤◌, [], ◌∷◌, ◌++◌, length, map, slice_index_or};
ghost use Rattle.std.specs.Option.{SomeIff};
ghost use Rattle.ps_world.specs.Bound.{ground_in, name_in};
ghost use Rattle.ps_world.specs.Knowledge.{ground, name_of};

use super::bound::Env;
use super::facts::Fact;
use super::lists::Duplicate;
use super::names::{Args, MOST_ARGUMENTS, Name};
use std::alloc::{AllocError, Global};
use std::marker::Model;

/// What stands at the place of an argument.
#[derive(Clone, Copy)]
pub enum Term {
    /// A variable, by its number.
    Var(u8),
    /// A constant.
    Const(Name),
}

impl Term {
    /// The name that the term is; `object` where it is a variable.
    pub fn name(&self) -> Name
        ensures { result ≡ name_of self.now }
    {
        match self {
            Term::Var(_) => Name::OBJECT,
            Term::Const(name) => *name,
        }
    }

    /// The name that the term is, where a variable stands for the name at its place, and for `object` where there is none.
    pub fn name_in(&self, env: &Env) -> Name
        ensures { result ≡ name_in env.now self.now }
    {
        match self {
            Term::Var(i) => match env.find(usize::from(*i)) {
                Ok(name) => name,
                Err(_) => Name::OBJECT,
            },
            Term::Const(name) => *name,
        }
    }
}

impl PartialEq for Term {
    ghost use Rattle.std.specs.Cmp.{partial_equiv_from_equiv};
    ghost use Rattle.ps_world.specs.Same.{is_same, is_same_equiv};
    ghost use Rattle.ps_world.specs.Codes.{term_code};

    ghost eq = { is_same term_code };

    ghost laws = { partial_equiv_from_equiv (is_same_equiv term_code) };

    fn eq(&self, other: &Self) -> bool {
        match (self, other) {
            (Term::Var(a), Term::Var(b)) => a == b,
            (Term::Const(a), Term::Const(b)) => a == b,
            _ => false,
        }
    }
}

impl Eq for Term {
    ghost use Rattle.ps_world.specs.Same.{is_same_equiv};
    ghost use Rattle.ps_world.specs.Codes.{term_code};

    ghost laws = { is_same_equiv term_code };
}

impl Duplicate for Term {
    fn copy(&self, _alloc: Global) -> Result<Self, AllocError> {
        Ok(*self)
    }
}

/// The arguments of a fact with parameters: at most 6 terms, which contracts see as their list.
#[derive(Clone, Copy)]
pub struct Terms {
    terms: [Term; MOST_ARGUMENTS],
    count: usize,
}

impl Model for Terms {
    ghost use Rattle.std.specs.Prelude.{List};
    ghost use Rattle.ps_world.specs.declared.schemas.Term.{Term};

    ghost Value = { List Term };

    ghost use Rattle.ps_world.specs.Terms.{IsTerms, terms_of, fields_of, fields_of-terms_of};

    ghost view = { terms_of };

    ghost invariant = { IsTerms };

    ghost inverse = { fields_of };

    ghost inverse_ok = { fields_of-terms_of };
}

impl Terms {
    /// No term.
    pub fn none() -> Terms
        ensures { result ≡ [] }
    {
        Terms {
            terms: [Term::Var(0); MOST_ARGUMENTS],
            count: 0,
        }
    }

    /// Puts the term at the end of fewer than 6.
    pub fn push(&mut self, term: Term)
        requires { length self.old < MOST_ARGUMENTS }
        ensures { self.new ≡ self.old ++ term ∷ [] }
    {
        self.terms[self.count] = term;
        self.count += 1;
    }

    /// These terms, or None exactly where there are more than 6.
    pub fn of(terms: &[Term]) -> Option<Terms>
        ensures { SomeIff result (length terms.now ≤ MOST_ARGUMENTS) terms.now }
    {
        if terms.len() > MOST_ARGUMENTS {
            return None;
        }
        let mut filled = [Term::Var(0); MOST_ARGUMENTS];
        filled[..terms.len()].copy_from_slice(terms);
        Some(Terms {
            terms: filled,
            count: terms.len(),
        })
    }

    /// How many terms.
    pub fn len(&self) -> usize
        ensures count { result ≡ length self.now }
        ensures few { length self.now ≤ MOST_ARGUMENTS }
    {
        self.count
    }

    /// Whether there is no term.
    pub fn is_empty(&self) -> bool
        ensures { result ≡ (length self.now == 0) }
    {
        self.count == 0
    }

    /// The term at place `i`, counted from 0.
    pub fn get(&self, i: usize) -> Term
        requires { i < length self.now }
        ensures { result ≡ slice_index_or self.now i result }
    {
        self.as_slice()[i]
    }

    /// The terms in order.
    pub fn as_slice(&self) -> &[Term]
        ensures { result.now ≡ self.now }
    {
        &self.terms[..self.count]
    }

    /// The names that the terms are, in order. It takes no memory.
    pub fn names(&self) -> Args
        ensures { result ≡ map name_of self.now }
    {
        self.names_in(&Env::of(&[]))
    }

    /// The names that the terms are, in order, where variables stand for these names. It takes no memory.
    pub fn names_in(&self, env: &Env) -> Args
        ensures { result ≡ map (name_in env.now) self.now }
    {
        let mut names = Args::none();
        for term in &self.terms[..self.count] {
            names.push(term.name_in(env));
        }
        names
    }
}

impl PartialEq for Terms {
    ghost use Rattle.std.specs.Cmp.{partial_equiv_from_equiv};
    ghost use Rattle.ps_world.specs.Same.{is_same, is_same_equiv};
    ghost use Rattle.ps_world.specs.Codes.{terms_code};

    ghost eq = { is_same terms_code };

    ghost laws = { partial_equiv_from_equiv (is_same_equiv terms_code) };

    fn eq(&self, other: &Self) -> bool {
        self.as_slice() == other.as_slice()
    }
}

impl Eq for Terms {
    ghost use Rattle.ps_world.specs.Same.{is_same_equiv};
    ghost use Rattle.ps_world.specs.Codes.{terms_code};

    ghost laws = { is_same_equiv terms_code };
}

impl Duplicate for Terms {
    fn copy(&self, _alloc: Global) -> Result<Self, AllocError> {
        Ok(*self)
    }
}

/// A predicate or a function, and its arguments.
#[derive(Clone, Copy, PartialEq, Eq)]
pub struct Lifted {
    pub head: Name,
    pub terms: Terms,
}

impl Lifted {
    /// The fact that this is, where each term is a name. It takes no memory.
    pub fn ground(&self) -> Fact
        ensures { result ≡ ground self.now }
    {
        self.ground_in(&Env::of(&[]))
    }

    /// The fact that this is, where variables stand for these names. It takes no memory.
    pub fn ground_in(&self, env: &Env) -> Fact
        ensures { result ≡ ground_in env.now self.now }
    {
        Fact {
            head: self.head,
            args: self.terms.names_in(env),
        }
    }
}

impl Duplicate for Lifted {
    fn copy(&self, _alloc: Global) -> Result<Self, AllocError> {
        Ok(*self)
    }
}
