//! The domain of a session: what it declares (PDDL 2.1, section 2).
ghost use Rattle.std.specs.Prelude.{◌≡◌, ◌≤◌, length};
ghost use Rattle.std.specs.Option.{option_copied};
ghost use Rattle.std.specs.List.{list_any};
ghost use Rattle.ps_world.specs.Names.{same_name};
ghost use Rattle.ps_world.specs.Knowledge.{is_type, parent_of, is_below, predicate_of, function_of, action_of, constant_of};

use super::actions::ActionDef;
use super::lists::{Duplicate, Seq};
use super::names::{MOST_ARGUMENTS, Name};
use std::alloc::{AllocError, Global};
use std::marker::Model;

/// A name with its type: a parameter, a constant, or a type with its parent.
#[derive(Clone, Copy, PartialEq, Eq)]
pub struct Param {
    pub name: Name,
    pub kind: Name,
}

impl Duplicate for Param {
    fn copy(&self, _alloc: Global) -> Result<Self, AllocError> {
        Ok(*self)
    }
}

/// The parameters of an action: at most 6, which contracts see as their list.
#[derive(PartialEq, Eq, Drop)]
pub struct Params {
    params: Seq<Param>,
}

impl Model for Params {
    ghost use Rattle.std.specs.Prelude.{◌≤◌, List, length};
    ghost use Rattle.ps_world.specs.declared.domains.Param.{Param};

    ghost Value = { List Param };

    ghost view = { λ p. p.params };

    ghost invariant = { λ p. length p.params ≤ 6 };

    ghost inverse = { λ ps. record { params = ps } };
}

impl Params {
    /// These parameters. It takes no memory.
    pub fn of(params: Vec<Param>) -> Params
        requires { length params.items ≤ MOST_ARGUMENTS }
        ensures { result ≡ params.items }
    {
        Params {
            params: Seq::of(params),
        }
    }

    /// How many parameters.
    pub fn len(&self) -> usize
        ensures count { result ≡ length self.now }
        ensures few { length self.now ≤ MOST_ARGUMENTS }
    {
        self.params.len()
    }

    /// The parameters in order.
    pub fn as_slice(&self) -> &[Param]
        ensures { result.now ≡ self.now }
    {
        self.params.as_slice()
    }
}

impl Duplicate for Params {
    fn copy(&self, alloc: Global) -> Result<Self, AllocError> {
        Ok(Params {
            params: self.params.copy(alloc)?,
        })
    }
}

/// A declared predicate or function. It has at most 6 parameters.
#[derive(PartialEq, Eq, Drop)]
pub struct Decl {
    pub name: Name,
    pub params: Seq<Param>,
}

impl Duplicate for Decl {
    fn copy(&self, alloc: Global) -> Result<Self, AllocError> {
        Ok(Decl {
            name: self.name,
            params: self.params.copy(alloc)?,
        })
    }
}

/// A domain. Its lists are in the order of the text.
#[derive(PartialEq, Eq, Drop)]
pub struct Domain {
    pub name: Name,
    /// The types, each with its parent. `object` is none of them.
    pub types: Seq<Param>,
    /// The constants, each with its type.
    pub constants: Seq<Param>,
    pub predicates: Seq<Decl>,
    pub functions: Seq<Decl>,
    pub actions: Seq<ActionDef>,
}

impl Duplicate for Domain {
    fn copy(&self, alloc: Global) -> Result<Self, AllocError> {
        Ok(Domain {
            name: self.name,
            types: self.types.copy(alloc)?,
            constants: self.constants.copy(alloc)?,
            predicates: self.predicates.copy(alloc)?,
            functions: self.functions.copy(alloc)?,
            actions: self.actions.copy(alloc)?,
        })
    }
}

/// Whether one of these has the name.
fn declares(params: &[Param], name: Name) -> bool
    ensures { result ≡ list_any (λ p. same_name name p.name) params.now }
{
    params.iter().any(|p| name == p.name)
}

impl Domain {
    /// Whether the domain has this type: `object`, or one that it declares.
    pub fn is_type(&self, name: Name) -> bool
        ensures { result ≡ is_type self.now name }
    {
        name == Name::OBJECT || declares(self.types.as_slice(), name)
    }

    /// The parent of a declared type. None where the type isn't declared.
    pub fn parent_of(&self, name: Name) -> Option<Name>
        ensures { result ≡ parent_of self.now name }
    {
        self.types
            .as_slice()
            .iter()
            .find(|t| name == t.name)
            .map(|t| t.kind)
    }

    /// Whether the first type is the second or below it.
    pub fn is_below(&self, low: Name, high: Name) -> bool
        ensures { result ≡ is_below self.now low high }
    {
        let mut at = low;
        for _climbed in 0..self.types.len() {
            if at == high {
                return true;
            }
            match self.parent_of(at) {
                Some(parent) => at = parent,
                None => return false,
            }
        }
        at == high
    }

    /// The declaration of a predicate. None where it isn't declared.
    pub fn predicate(&self, name: Name) -> Option<&Decl>
        ensures { option_copied result ≡ predicate_of self.now name }
    {
        self.predicates
            .as_slice()
            .iter()
            .find(|decl| name == decl.name)
    }

    /// The declaration of a function. None where it isn't declared.
    pub fn function(&self, name: Name) -> Option<&Decl>
        ensures { option_copied result ≡ function_of self.now name }
    {
        self.functions
            .as_slice()
            .iter()
            .find(|decl| name == decl.name)
    }

    /// A declared action. None where it isn't declared.
    pub fn action(&self, name: Name) -> Option<&ActionDef>
        ensures { option_copied result ≡ action_of self.now name }
    {
        self.actions
            .as_slice()
            .iter()
            .find(|action| name == action.name)
    }

    /// A declared constant, with its type. None where it isn't declared.
    pub fn constant(&self, name: Name) -> Option<&Param>
        ensures { option_copied result ≡ constant_of self.now name }
    {
        self.constants
            .as_slice()
            .iter()
            .find(|constant| name == constant.name)
    }
}
