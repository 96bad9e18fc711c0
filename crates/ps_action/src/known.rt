//! What conditions, effects and edits ask of what is known and of a domain.
ghost use Rattle.std.specs.Prelude.{◌≡◌};
ghost use Rattle.std.specs.List.{list_any};
ghost use Rattle.std.specs.Map.{lookup};
ghost use Rattle.std.specs.Option.{option_copied};
ghost use Rattle.ps_world.specs.Names.{same_name};
ghost use Rattle.ps_world.specs.Knowledge.{function_of, is_below, is_known, is_type, kind_of, predicate_of, same_fact, value_in};

use ps_world::{Decl, Domain, Fact, Knowledge, Name, Num};

/// What is known, which contracts see as `known` of it. Nothing here takes memory.
pub trait Known {
    ghost use Rattle.ps_world.specs.declared.known.Knowledge.{Knowledge as KnowledgeView};

    ghost known: { Self → KnowledgeView };

    /// Whether a fact is known.
    fn has(&self, fact: &Fact) -> bool
        ensures { result ≡ is_known (known self.now) fact.now };

    /// The value of a function term. None exactly where it has none.
    fn value(&self, term: &Fact) -> Option<Num>
        ensures { result ≡ value_in (known self.now) term.now };

    /// The type of an instance. None exactly where the name is no instance.
    fn kind_of(&self, name: Name) -> Option<Name>
        ensures { result ≡ kind_of (known self.now) name };

    /// The instances with their types, in the order of their list. The names of what is well known rise there.
    fn instances(&self) -> &[(Name, Name)]
        ensures { result.now ≡ (known self.now).instances };
}

/// The types of a domain, which contracts see as `types` of it.
pub trait Types {
    ghost use Rattle.ps_world.specs.declared.domains.Domain.{Domain as DomainView};

    ghost types: { Self → DomainView };

    /// Whether the domain has this type: `object`, or one that it declares.
    fn is_type(&self, name: Name) -> bool
        ensures { result ≡ is_type (types self.now) name };

    /// Whether the first type is the second or below it.
    fn is_subtype(&self, low: Name, high: Name) -> bool
        ensures { result ≡ is_below (types self.now) low high };
}

/// What a domain declares.
pub trait Declares: Types {
    /// The declaration of a predicate. None exactly where it isn't declared.
    fn predicate(&self, head: Name) -> Option<&Decl>
        ensures { option_copied result ≡ predicate_of (Self.types self.now) head };

    /// The declaration of a function. None exactly where it isn't declared.
    fn function(&self, head: Name) -> Option<&Decl>
        ensures { option_copied result ≡ function_of (Self.types self.now) head };
}

/// Whether the fact is one of these.
fn is_among(facts: &[Fact], fact: &Fact) -> bool
    ensures { result ≡ list_any (same_fact fact.now) facts.now }
{
    facts.iter().any(|there| fact.cmp(there).is_eq())
}

/// The value of a function term among these.
fn value_among(values: &[(Fact, Num)], term: &Fact) -> Option<Num>
    ensures { result ≡ lookup (same_fact term.now) values.now }
{
    for (there, number) in values {
        if term.cmp(there).is_eq() {
            return Some(*number);
        }
    }
    None
}

/// The type of an instance among these.
fn kind_among(instances: &[(Name, Name)], name: Name) -> Option<Name>
    ensures { result ≡ lookup (same_name name) instances.now }
{
    for (there, kind) in instances {
        if name == *there {
            return Some(*kind);
        }
    }
    None
}

impl Known for Knowledge {
    ghost known = { λ k. k };

    fn has(&self, fact: &Fact) -> bool {
        is_among(self.facts.as_slice(), fact)
    }

    fn value(&self, term: &Fact) -> Option<Num> {
        value_among(self.values.as_slice(), term)
    }

    fn kind_of(&self, name: Name) -> Option<Name> {
        kind_among(self.instances.as_slice(), name)
    }

    fn instances(&self) -> &[(Name, Name)] {
        self.instances.as_slice()
    }
}

impl Types for Domain {
    ghost types = { λ d. d };

    fn is_type(&self, name: Name) -> bool {
        Domain::is_type(self, name)
    }

    fn is_subtype(&self, low: Name, high: Name) -> bool {
        self.is_below(low, high)
    }
}

impl Declares for Domain {
    fn predicate(&self, head: Name) -> Option<&Decl> {
        Domain::predicate(self, head)
    }

    fn function(&self, head: Name) -> Option<&Decl> {
        Domain::function(self, head)
    }
}

/// Instances alone, of which nothing else is known.
#[derive(Drop)]
pub struct Instances<'a> {
    pub listed: &'a [(Name, Name)],
}

impl<'a> Known for Instances<'a> {
    ghost use Rattle.std.specs.Prelude.{[], None};

    ghost known = { λ i. record { instances = i.listed.now; facts = []; values = []; goal = None } };

    fn has(&self, _fact: &Fact) -> bool {
        false
    }

    fn value(&self, _term: &Fact) -> Option<Num> {
        None
    }

    fn kind_of(&self, name: Name) -> Option<Name> {
        kind_among(self.listed, name)
    }

    fn instances(&self) -> &[(Name, Name)] {
        self.listed
    }
}
