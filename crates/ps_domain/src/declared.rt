//! What a domain declares, with indexes.
ghost use Rattle.std.specs.Prelude.{◌≡◌, [], IfOk, OnOk, OnErr};
ghost use Rattle.std.specs.Option.{option_copied};
ghost use Rattle.ps_world.specs.Knowledge.{is_type, parent_of, is_below, predicate_of, function_of, action_of, constant_of};
ghost use Rattle.ps_domain.specs.Places.{IsIndexed};

use super::index::Index;
use ps_world::{ActionDef, Decl, Domain, Name, Param, Seq};
use std::alloc::{AllocError, Global};
use std::marker::Model;

/// A domain with an index over each of its lists. Contracts see it as its domain.
#[derive(Drop)]
pub struct Declared {
    domain: Domain,
    types: Index,
    constants: Index,
    predicates: Index,
    functions: Index,
    actions: Index,
}

impl Model for Declared {
    ghost use Rattle.ps_world.specs.declared.domains.Domain.{Domain};
    ghost use Rattle.ps_world.specs.contracts.domains.Domain.{the_row};
    ghost use Rattle.ps_domain.specs.Places.{IsIndexed};

    ghost Value = { Domain };

    ghost coded = { the_row.coded };

    ghost view = { λ d. d.domain };

    ghost invariant = { λ d. IsIndexed d.domain
        d.types d.constants d.predicates d.functions d.actions };
}

/// The index of each list of a domain.
#[derive(Drop)]
struct Indexes {
    types: Index,
    constants: Index,
    predicates: Index,
    functions: Index,
    actions: Index,
}

impl Indexes {
    fn of(alloc: Global, domain: &Domain) -> Result<Indexes, AllocError>
        ensures { IfOk result (λ i. IsIndexed domain.now
            i.types i.constants i.predicates i.functions i.actions) }
    {
        let types = Index::of(alloc, domain.types.as_slice())?;
        let constants = Index::of(alloc, domain.constants.as_slice())?;
        let predicates = Index::of(alloc, domain.predicates.as_slice())?;
        let functions = Index::of(alloc, domain.functions.as_slice())?;
        let actions = Index::of(alloc, domain.actions.as_slice())?;
        Ok(Indexes {
            types,
            constants,
            predicates,
            functions,
            actions,
        })
    }
}

impl Declared {
    /// The domain of this name that declares nothing. It takes no memory.
    pub fn bare(alloc: Global, name: Name) -> Declared
        ensures { result ≡ record {
          name = name;
          types = [];
          constants = [];
          predicates = [];
          functions = [];
          actions = [];
        } }
    {
        Declared {
            domain: Domain {
                name,
                types: Seq::new(alloc),
                constants: Seq::new(alloc),
                predicates: Seq::new(alloc),
                functions: Seq::new(alloc),
                actions: Seq::new(alloc),
            },
            types: Index::new(alloc),
            constants: Index::new(alloc),
            predicates: Index::new(alloc),
            functions: Index::new(alloc),
            actions: Index::new(alloc),
        }
    }

    /// This domain with its indexes.
    pub fn of(alloc: Global, domain: Domain) -> Result<Declared, AllocError>
        ensures { IfOk result (λ d. d ≡ domain) }
    {
        let indexes = Indexes::of(alloc, &domain)?;
        Ok(Declared {
            domain,
            types: indexes.types,
            constants: indexes.constants,
            predicates: indexes.predicates,
            functions: indexes.functions,
            actions: indexes.actions,
        })
    }

    /// The domain.
    pub fn domain(&self) -> &Domain
        ensures { result.now ≡ self.now }
    {
        &self.domain
    }

    /// The domain, given back. It takes no memory.
    pub fn into_domain(self) -> Domain
        ensures { result ≡ self }
    {
        self.domain
    }

    /// Whether the domain has this type: `object`, or one that it declares.
    pub fn is_type(&self, name: Name) -> bool
        ensures { result ≡ is_type self.now name }
    {
        name == Name::OBJECT || self.parent_of(name).is_some()
    }

    /// The parent of a declared type. None exactly where the type isn't declared.
    pub fn parent_of(&self, name: Name) -> Option<Name>
        ensures { result ≡ parent_of self.now name }
    {
        self.types
            .find(self.domain.types.as_slice(), name)
            .map(|t| t.kind)
    }

    /// Whether the first type is the second or below it.
    pub fn is_below(&self, low: Name, high: Name) -> bool
        ensures { result ≡ is_below self.now low high }
    {
        let mut at = low;
        for _climbed in 0..self.domain.types.len() {
            if at == high {
                return true;
            }
            match self.parent_of(at) {
                Some(parent) => at = parent,
                None => return false,
            }
        }
        at == high
    }

    /// The declaration of a predicate. None exactly where it isn't declared.
    pub fn predicate(&self, name: Name) -> Option<&Decl>
        ensures { option_copied result ≡ predicate_of self.now name }
    {
        self.predicates
            .find(self.domain.predicates.as_slice(), name)
    }

    /// The declaration of a function. None exactly where it isn't declared.
    pub fn function(&self, name: Name) -> Option<&Decl>
        ensures { option_copied result ≡ function_of self.now name }
    {
        self.functions.find(self.domain.functions.as_slice(), name)
    }

    /// A declared action. None exactly where it isn't declared.
    pub fn action(&self, name: Name) -> Option<&ActionDef>
        ensures { option_copied result ≡ action_of self.now name }
    {
        self.actions.find(self.domain.actions.as_slice(), name)
    }

    /// A declared constant, with its type. None exactly where it isn't declared.
    pub fn constant(&self, name: Name) -> Option<&Param>
        ensures { option_copied result ≡ constant_of self.now name }
    {
        self.constants.find(self.domain.constants.as_slice(), name)
    }

    /// Puts these types in place of all that were there. Where memory runs out nothing changes.
    pub fn set_types(&mut self, alloc: Global, list: Seq<Param>) -> Result<(), AllocError>
        ensures ok { OnOk result (self.new ≡ record self.old { types = list }) }
        ensures err { OnErr result (self.new ≡ self.old) }
    {
        self.types = Index::of(alloc, list.as_slice())?;
        self.domain.types = list;
        Ok(())
    }

    /// Puts these constants in place of all that were there. Where memory runs out nothing changes.
    pub fn set_constants(&mut self, alloc: Global, list: Seq<Param>) -> Result<(), AllocError>
        ensures ok { OnOk result (self.new ≡ record self.old { constants = list }) }
        ensures err { OnErr result (self.new ≡ self.old) }
    {
        self.constants = Index::of(alloc, list.as_slice())?;
        self.domain.constants = list;
        Ok(())
    }

    /// Puts these predicates in place of all that were there. Where memory runs out nothing changes.
    pub fn set_predicates(&mut self, alloc: Global, list: Seq<Decl>) -> Result<(), AllocError>
        ensures ok { OnOk result (self.new ≡ record self.old { predicates = list }) }
        ensures err { OnErr result (self.new ≡ self.old) }
    {
        self.predicates = Index::of(alloc, list.as_slice())?;
        self.domain.predicates = list;
        Ok(())
    }

    /// Puts these functions in place of all that were there. Where memory runs out nothing changes.
    pub fn set_functions(&mut self, alloc: Global, list: Seq<Decl>) -> Result<(), AllocError>
        ensures ok { OnOk result (self.new ≡ record self.old { functions = list }) }
        ensures err { OnErr result (self.new ≡ self.old) }
    {
        self.functions = Index::of(alloc, list.as_slice())?;
        self.domain.functions = list;
        Ok(())
    }

    /// Puts these actions in place of all that were there. Where memory runs out nothing changes.
    pub fn set_actions(&mut self, alloc: Global, list: Seq<ActionDef>) -> Result<(), AllocError>
        ensures ok { OnOk result (self.new ≡ record self.old { actions = list }) }
        ensures err { OnErr result (self.new ≡ self.old) }
    {
        self.actions = Index::of(alloc, list.as_slice())?;
        self.domain.actions = list;
        Ok(())
    }
}
