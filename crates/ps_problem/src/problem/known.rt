//! What is known, for those who ask.
ghost use Rattle.std.specs.Prelude.{◌≡◌, ◌↔◌, IfOk, OnOk, IsTrue, filter, map, slice_get};
ghost use Rattle.std.specs.List.{Contains};
ghost use Rattle.std.specs.List.Sorted.{IsStrictlySortedBy};
ghost use Rattle.std.specs.Map.{keys_of};
ghost use Rattle.std.specs.Option.{option_copied};
ghost use Rattle.ps_world.specs.Facts.{fact_cmp};
ghost use Rattle.ps_world.specs.Names.{same_name};
ghost use Rattle.ps_world.specs.Knowledge.{is_among, is_below, is_known, kind_of, value_in};

use super::Problem;
use ps_action::Known;
use ps_domain::Expert;
use ps_world::{Cond, Fact, Name, Num};
use std::alloc::AllocError;

impl Problem {
    /// Whether the fact is known.
    pub fn has(&self, fact: &Fact) -> bool
        ensures known { result ≡ is_known self.now fact.now }
        ensures listed { IsTrue result ↔ Contains self.now.facts fact.now }
    {
        self.facts.contains(fact)
    }

    /// The value of a function at its arguments. None exactly where it has none.
    pub fn value(&self, fact: &Fact) -> Option<Num>
        ensures { result ≡ value_in self.now fact.now }
    {
        self.values.get(fact)
    }

    /// The type of an instance. None exactly where the name is no instance.
    pub fn kind_of(&self, name: Name) -> Option<Name>
        ensures { result ≡ kind_of self.now name }
    {
        self.instances.get(name)
    }

    /// The instance at a place in the order of their names, with its type. None exactly where there are no more instances than that.
    /// It takes no memory.
    pub fn instance_at(&self, i: u32) -> Option<(Name, Name)>
        ensures { result ≡ slice_get self.now.instances i }
    {
        self.instances.nth(i as usize)
    }

    /// The goal. None exactly where there is none.
    pub fn goal(&self) -> Option<&Cond>
        ensures { option_copied result ≡ self.now.goal }
    {
        match &self.goal {
            None => None,
            Some(goal) => Some(goal.get()),
        }
    }

    /// The instances with their types, in the order of their names.
    pub fn instances(&self) -> Result<Vec<(Name, Name)>, AllocError>
        ensures { IfOk result (λ v. v.items ≡ self.now.instances) }
    {
        self.instances.list(self.alloc)
    }

    /// The facts in their order, each once. The only error is out of memory.
    pub fn facts(&self) -> Result<Vec<Fact>, AllocError>
        ensures items { IfOk result (λ v. v.items ≡ self.now.facts) }
        ensures rise { OnOk result (IsStrictlySortedBy fact_cmp self.now.facts) }
    {
        self.facts.list(self.alloc)
    }

    /// The functions at their arguments, in their order and each once, with their values. The only error is out of memory.
    pub fn values(&self) -> Result<Vec<(Fact, Num)>, AllocError>
        ensures items { IfOk result (λ v. v.items ≡ self.now.values) }
        ensures rise { OnOk result (IsStrictlySortedBy fact_cmp (keys_of self.now.values)) }
    {
        self.values.list(self.alloc)
    }

    /// The instances whose type is this one or below it, in their order.
    pub fn instances_of(&self, expert: &Expert, kind: Name) -> Result<Vec<Name>, AllocError>
        ensures { IfOk result (λ v. v.items
            ≡ map (λ i. i.0) (filter (λ i. is_below expert.now i.1 kind) self.now.instances)) }
    {
        self.instances.list_below(self.alloc, expert, kind)
    }

    /// The facts of this predicate, in their order.
    pub fn facts_of(&self, head: Name) -> Result<Vec<Fact>, AllocError>
        ensures { IfOk result (λ v. v.items ≡ filter (λ f. same_name head f.head) self.now.facts) }
    {
        self.facts.list_of(self.alloc, head)
    }

    /// The facts that name this, in their order. Once an instance was removed no others are gone over.
    pub fn facts_naming(&self, name: Name) -> Result<Vec<Fact>, AllocError>
        ensures { IfOk result (λ v. v.items ≡ filter (λ f. is_among name f.args) self.now.facts) }
    {
        self.facts.list_naming(self.alloc, name)
    }

    /// The functions at arguments that name this and have a value, in their order. Once an instance was removed no others are gone over.
    pub fn terms_naming(&self, name: Name) -> Result<Vec<Fact>, AllocError>
        ensures { IfOk result (λ v. v.items ≡ filter (λ f. is_among name f.args) (keys_of self.now.values)) }
    {
        self.values.list_naming(self.alloc, name)
    }
}

impl Known for Problem {
    ghost known = { λ p. p };

    fn has(&self, fact: &Fact) -> bool {
        Problem::has(self, fact)
    }

    fn value(&self, term: &Fact) -> Option<Num> {
        Problem::value(self, term)
    }

    fn kind_of(&self, name: Name) -> Option<Name> {
        Problem::kind_of(self, name)
    }

    fn instances(&self) -> &[(Name, Name)] {
        self.instances.as_slice()
    }
}
