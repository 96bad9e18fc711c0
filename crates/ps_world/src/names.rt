//! Names, and short lists of them.
ghost use Rattle.std.specs.Prelude.{◌≡◌, ◌==◌, ◌<◌, ◌≤◌, [], ◌∷◌, ◌++◌, length, slice_index_or};
ghost use Rattle.std.specs.Option.{SomeIff};

use super::lists::Duplicate;
use std::alloc::{AllocError, Global};
use std::cmp::Ordering;
use std::marker::Model;

/// A name, by its number in the table of names. The type `object` is 0.
#[derive(Clone, Copy, PartialEq, Eq, PartialOrd, Ord, Hash, Debug)]
pub struct Name(pub u32);

impl Name {
    /// The type above all others.
    pub const OBJECT: Name = Name(0);
}

impl Duplicate for Name {
    fn copy(&self, _alloc: Global) -> Result<Self, AllocError> {
        Ok(*self)
    }
}

impl Duplicate for Option<Name> {
    fn copy(&self, _alloc: Global) -> Result<Self, AllocError> {
        Ok(*self)
    }
}

/// The most arguments of a fact or an action, and the most parameters of a declaration.
pub const MOST_ARGUMENTS: usize = 6;

/// The arguments of a fact: at most 6 names, which contracts see as their list.
#[derive(Clone, Copy)]
pub struct Args {
    names: [Name; MOST_ARGUMENTS],
    count: usize,
}

impl Model for Args {
    ghost use Rattle.std.specs.Prelude.{List};
    ghost use Rattle.ps_world.specs.declared.names.Name.{Name};

    ghost Value = { List Name };

    ghost use Rattle.ps_world.specs.Args.{IsArgs, names_of, fields_of, fields_of-names_of};

    ghost view = { names_of };

    ghost invariant = { IsArgs };

    ghost inverse = { fields_of };

    ghost inverse_ok = { fields_of-names_of };
}

impl Args {
    /// No name.
    pub fn none() -> Args
        ensures { result ≡ [] }
    {
        Args {
            names: [Name(0); MOST_ARGUMENTS],
            count: 0,
        }
    }

    /// Puts the name at the end of fewer than 6.
    pub fn push(&mut self, name: Name)
        requires { length self.old < MOST_ARGUMENTS }
        ensures { self.new ≡ self.old ++ name ∷ [] }
    {
        self.names[self.count] = name;
        self.count += 1;
    }

    /// These names, or None exactly where there are more than 6.
    pub fn of(names: &[Name]) -> Option<Args>
        ensures { SomeIff result (length names.now ≤ MOST_ARGUMENTS) names.now }
    {
        if names.len() > MOST_ARGUMENTS {
            return None;
        }
        let mut filled = [Name(0); MOST_ARGUMENTS];
        filled[..names.len()].copy_from_slice(names);
        Some(Args {
            names: filled,
            count: names.len(),
        })
    }

    /// How many names.
    pub fn len(&self) -> usize
        ensures { result ≡ length self.now }
    {
        self.count
    }

    /// Whether there is no name.
    pub fn is_empty(&self) -> bool
        ensures { result ≡ (length self.now == 0) }
    {
        self.count == 0
    }

    /// The name at place `i`, counted from 0.
    pub fn get(&self, i: usize) -> Name
        requires { i < length self.now }
        ensures { result ≡ slice_index_or self.now i result }
    {
        self.as_slice()[i]
    }

    /// The names in order.
    pub fn as_slice(&self) -> &[Name]
        ensures { result.now ≡ self.now }
    {
        &self.names[..self.count]
    }
}

impl PartialEq for Args {
    ghost use Rattle.std.specs.Cmp.Lexicographic.{pointwise, lists_per};
    ghost use Rattle.std.specs.Cmp.Rules.{comparing};
    ghost use Rattle.std.proofs.Common.{rules};
    ghost use Rattle.ps_world.specs.Names.{same_name};

    ghost eq = { pointwise same_name };

    ghost laws = { lists_per (Prim.search (comparing, rules)) };

    fn eq(&self, other: &Self) -> bool {
        self.as_slice() == other.as_slice()
    }
}

impl Eq for Args {
    ghost use Rattle.std.specs.Cmp.Lexicographic.{lists_equiv};
    ghost use Rattle.std.specs.Cmp.Rules.{comparing};
    ghost use Rattle.std.proofs.Common.{rules};

    ghost laws = { lists_equiv (Prim.search (comparing, rules)) };
}

impl PartialOrd for Args {
    ghost use Rattle.std.specs.Ordering.{as_partial_cmp};
    ghost use Rattle.std.specs.Cmp.{partial_order_from_agreeing_total};
    ghost use Rattle.std.specs.Cmp.Lexicographic.{slice_cmp, lists_total, lists_ties};
    ghost use Rattle.std.specs.Cmp.Rules.{comparing};
    ghost use Rattle.std.proofs.Common.{rules};
    ghost use Rattle.ps_world.specs.Names.{name_cmp};

    ghost partial_cmp = { as_partial_cmp (slice_cmp name_cmp) };

    ghost laws = { partial_order_from_agreeing_total (slice_cmp name_cmp) (lists_total (Prim.search (comparing, rules))) (Prim.search (comparing, rules)) (lists_ties name_cmp (Prim.search (comparing, rules))) };

    fn partial_cmp(&self, other: &Self) -> Option<Ordering> {
        Some(self.cmp(other))
    }
}

impl Ord for Args {
    ghost use Rattle.std.specs.Cmp.Lexicographic.{slice_cmp, lists_total, lists_ties};
    ghost use Rattle.std.specs.Cmp.Rules.{comparing};
    ghost use Rattle.std.proofs.Common.{rules};
    ghost use Rattle.ps_world.specs.Names.{name_cmp};

    ghost cmp = { slice_cmp name_cmp };

    ghost total = { lists_total (Prim.search (comparing, rules)) };

    ghost matches_partial_cmp = { Prim.search (comparing, rules) };

    ghost matches_eq = { lists_ties name_cmp (Prim.search (comparing, rules)) };

    fn cmp(&self, other: &Self) -> Ordering {
        self.as_slice().cmp(other.as_slice())
    }
}

impl Duplicate for Args {
    fn copy(&self, _alloc: Global) -> Result<Self, AllocError> {
        Ok(*self)
    }
}
