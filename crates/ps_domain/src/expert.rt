//! The domain expert.
ghost use Rattle.std.specs.Prelude.{◌≡◌, IfOk};
ghost use Rattle.std.specs.Option.{option_copied};
ghost use Rattle.ps_world.specs.Knowledge.{is_type, is_below, predicate_of, function_of, action_of};

use super::declared::Declared;
use ps_action::{Declares, Types};
use ps_world::{ActionDef, Decl, Domain, Duplicate, Name};
use std::alloc::{AllocError, Global};
use std::marker::Model;
use std::sync::Arc;

/// The domain expert, which answers what its domain declares. The domain takes its room once, however many hold an expert on it: the input
/// of a session, what stands after its entries, and the searches of its runs. Contracts see it as its domain.
#[derive(Drop)]
pub struct Expert {
    pub(crate) alloc: Global,
    declared: Arc<Declared>,
}

impl Model for Expert {
    ghost use Rattle.ps_world.specs.declared.domains.Domain.{Domain};
    ghost use Rattle.ps_world.specs.contracts.domains.Domain.{the_row};

    ghost Value = { Domain };

    ghost coded = { the_row.coded };

    ghost view = { λ e. e.declared.value };
}

impl Expert {
    /// The expert on this domain.
    pub fn new(alloc: Global, domain: Domain) -> Result<Expert, AllocError>
        ensures { IfOk result (λ e. e ≡ domain) }
    {
        let declared = Declared::of(alloc, domain)?;
        Ok(Expert {
            alloc,
            declared: Arc::new(alloc, declared)?,
        })
    }

    /// The domain.
    pub fn domain(&self) -> &Domain
        ensures { result.now ≡ self.now }
    {
        self.declared.domain()
    }

    /// Whether the domain has this type: `object`, or one that it declares.
    pub fn is_type(&self, name: Name) -> bool
        ensures { result ≡ is_type self.now name }
    {
        self.declared.is_type(name)
    }

    /// Whether the first type is the second or below it.
    pub fn is_subtype(&self, low: Name, high: Name) -> bool
        ensures { result ≡ is_below self.now low high }
    {
        self.declared.is_below(low, high)
    }

    /// The declaration of a predicate. None exactly where it isn't declared.
    pub fn predicate(&self, name: Name) -> Option<&Decl>
        ensures { option_copied result ≡ predicate_of self.now name }
    {
        self.declared.predicate(name)
    }

    /// The declaration of a function. None exactly where it isn't declared.
    pub fn function(&self, name: Name) -> Option<&Decl>
        ensures { option_copied result ≡ function_of self.now name }
    {
        self.declared.function(name)
    }

    /// A declared action. None exactly where it isn't declared.
    pub fn action(&self, name: Name) -> Option<&ActionDef>
        ensures { option_copied result ≡ action_of self.now name }
    {
        self.declared.action(name)
    }
}

impl Duplicate for Expert {
    /// An expert on the same domain, held once more. Where no more holders can be counted it has a domain of its own.
    fn copy(&self, alloc: Global) -> Result<Self, AllocError> {
        match Arc::try_clone(&self.declared) {
            Ok(declared) => Ok(Expert { alloc, declared }),
            Err(AllocError) => Expert::new(alloc, self.domain().copy(alloc)?),
        }
    }
}

impl PartialEq for Expert {
    ghost use Rattle.ps_world.specs.contracts.domains.DomainPartialEq.TheImpl.{ghosts};
    ghost use Rattle.ps_world.specs.contracts.domains.DomainPartialEq.TheImpl.Laws as domain;

    ghost eq = { ghosts.eq };

    ghost laws = { domain.laws-law };

    fn eq(&self, other: &Self) -> bool {
        self.domain() == other.domain()
    }
}

impl Eq for Expert {
    ghost use Rattle.ps_world.specs.contracts.domains.DomainEq.TheImpl.Laws as domain;

    ghost laws = { domain.laws-law };
}

impl Types for Expert {
    ghost types = { λ e. e };

    fn is_type(&self, name: Name) -> bool {
        Expert::is_type(self, name)
    }

    fn is_subtype(&self, low: Name, high: Name) -> bool {
        Expert::is_subtype(self, low, high)
    }
}

impl Declares for Expert {
    fn predicate(&self, head: Name) -> Option<&Decl> {
        Expert::predicate(self, head)
    }

    fn function(&self, head: Name) -> Option<&Decl> {
        Expert::function(self, head)
    }
}
