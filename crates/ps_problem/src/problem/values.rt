//! The values of functions that are known.
ghost use Rattle.std.specs.Prelude.{◌≡◌, ◌≢◌, ◌↔◌, ℕ, [], false, true, not, ◌++◌, filter, fold, take, is_some, All, IfOk, OnOk, OnErr, IsTrue};
ghost use Rattle.std.specs.List.{list_any};
ghost use Rattle.std.specs.Map.{lookup, keys_of, set_value};
ghost use Rattle.std.specs.List.Sorted.{IsStrictlySortedBy};
ghost use Rattle.std.specs.BTreeMap.{insert_entry};
ghost use Rattle.ps_world.specs.Facts.{fact_cmp};
ghost use Rattle.ps_world.specs.Knowledge.{is_among, same_fact};
ghost use Rattle.ps_world.specs.declared.facts.Fact.{Fact};
ghost use Rattle.ps_action.specs.Effects.{with_value};
ghost use Rattle.ps_problem.specs.Namings.{AreNamed};
ghost use Rattle.ps_problem.specs.Puts.{dropped_in, held_in, put_back, with_held, without_term};

use super::facts::Facts;
use super::namings::{Naming, note, note_where_taken, noted_with, take_naming};
use ps_world::{Fact, Name, Num};
use std::alloc::{AllocError, Global};
use std::collections::{BTreeMap, BTreeSet};
use std::marker::Model;

/// Functions at their arguments, in their order, with their values, which are found by the names that stand in them as
/// well. Contracts see their list.
#[derive(Drop)]
pub struct Values {
    all: BTreeMap<Fact, Num>,
    /// None until a name is left out: most sessions leave none out, and then no notes are needed.
    namings: Option<BTreeSet<Naming>>,
}

impl Model for Values {
    ghost use Rattle.std.specs.Prelude.{List, IfSome};
    ghost use Rattle.std.specs.Map.{keys_of};
    ghost use Rattle.ps_world.specs.declared.facts.Fact.{Fact};
    ghost use Rattle.ps_world.specs.declared.numbers.Num.{Num};
    ghost use Rattle.ps_problem.specs.Namings.{AreNamed};

    ghost Value = { List (Fact × Num) };

    ghost view = { λ a. a.all.entries };

    ghost invariant = { λ a. IfSome a.namings (λ s. AreNamed (keys_of a.all.entries) s.keys) };
}

impl Values {
    /// No values.
    pub fn new(alloc: Global) -> Values
        ensures { result ≡ [] }
    {
        Values {
            all: BTreeMap::new(alloc),
            namings: None,
        }
    }

    /// Equal values.
    pub fn copy(&self) -> Result<Values, AllocError>
        ensures { IfOk result (λ values. values ≡ self.now) }
    {
        Ok(Values {
            all: self.all.clone()?,
            namings: None,
        })
    }

    /// The value that the function has there. None exactly where it has none.
    pub fn get(&self, fact: &Fact) -> Option<Num>
        ensures { result ≡ lookup (same_fact fact.now) self.now }
    {
        self.all.get(fact).copied()
    }

    /// Sets a value, and answers the one that was held there. Where memory runs out nothing changes.
    pub fn insert(&mut self, fact: Fact, number: Num) -> Result<Option<Num>, AllocError>
        ensures ok { OnOk result (self.new ≡ insert_entry fact_cmp self.old fact number) }
        ensures held { IfOk result (λ held. held ≡ lookup (same_fact fact) self.old) }
        ensures rose { OnOk result (IsStrictlySortedBy fact_cmp (keys_of self.old)) }
        ensures err { OnErr result (self.new ≡ self.old) }
    {
        note_where_taken(&mut self.namings, &fact)?;
        let held = self.all.insert(fact, number)?;
        Ok(held)
    }

    /// Takes a value out, and answers whether there was one.
    pub fn remove(&mut self, fact: &Fact) -> bool
        ensures was { result ≡ is_some (lookup (same_fact fact.now) self.old) }
        ensures left { self.new ≡ filter (λ v. not (same_fact fact.now v.0)) self.old }
        ensures same { result ≡ false → self.new ≡ self.old }
        ensures fell { result ≡ true → self.new ≢ self.old }
    {
        // A map says of its length that its keys rise, so that the function stands in it once.
        let _count = self.all.len();
        self.all.remove(fact).is_some()
    }

    /// Takes out every value of a function that names this.
    pub fn leave_out(&mut self, alloc: Global, name: Name)
        ensures { self.new ≡ filter (λ v. not (is_among name v.0.args)) self.old }
    {
        if self.namings.is_none() {
            self.namings = notes_of(alloc, &self.all).ok();
        }
        match &mut self.namings {
            Some(namings) => leave_out_named(&mut self.all, namings, name),
            // There is no memory for notes.
            None => leave_out_each(&mut self.all, name),
        }
    }

    /// Sets these values one after another. Where memory runs out some of the first may be set.
    pub fn insert_all(&mut self, ready: &[(Fact, Num)]) -> Result<(), AllocError>
        ensures ok { OnOk result (self.new ≡ fold with_value self.old ready.now) }
        ensures err { OnErr result ((k : ℕ)
            × (self.new ≡ fold with_value self.old (take k ready.now))) }
    {
        for (term, number) in ready {
            self.insert(*term, *number)?;
        }
        Ok(())
    }

    /// The terms of these values and these terms, each with the value that it has here.
    pub fn held(
        &self,
        alloc: Global,
        ready: &[(Fact, Num)],
        gone: &[Fact],
    ) -> Result<Vec<(Fact, Option<Num>)>, AllocError>
        ensures held { IfOk result (λ v. v.items
            ≡ held_in self.now (keys_of ready.now ++ gone.now)) }
        ensures rises { OnOk result (IsStrictlySortedBy fact_cmp (keys_of self.now)) }
    {
        // A map says of its length that its keys rise.
        let _count = self.all.len();
        let mut held = Vec::with_capacity(alloc, ready.len())?;
        self.hold_given(&mut held, ready)?;
        self.hold(&mut held, gone)?;
        Ok(held)
    }

    fn hold_given(
        &self,
        held: &mut Vec<(Fact, Option<Num>)>,
        ready: &[(Fact, Num)],
    ) -> Result<(), AllocError>
        ensures { OnOk result (held.new.items
            ≡ held.old.items ++ held_in self.now (keys_of ready.now)) }
    {
        for (term, _) in ready {
            held.push((*term, self.get(term)))?;
        }
        Ok(())
    }

    fn hold(&self, held: &mut Vec<(Fact, Option<Num>)>, terms: &[Fact]) -> Result<(), AllocError>
        ensures { OnOk result (held.new.items ≡ held.old.items ++ held_in self.now terms.now) }
    {
        for term in terms {
            held.push((*term, self.get(term)))?;
        }
        Ok(())
    }

    /// Takes the values of these terms out, of those of them that have one.
    pub fn remove_all(&mut self, terms: &[Fact])
        ensures { self.new ≡ fold without_term self.old terms.now }
    {
        for term in terms {
            self.remove(term);
        }
    }

    /// Whether each of these terms has the value that it held.
    pub fn are_held(&self, held: &[(Fact, Option<Num>)]) -> bool
        ensures { IsTrue result ↔ All (λ h. lookup (same_fact h.0) self.now ≡ h.1) held.now }
    {
        for (term, value) in held {
            if !is_same(self.get(term), *value) {
                return false;
            }
        }
        true
    }

    /// Gives each of these terms the value that it held; a number only where it has a value now.
    pub fn put_back_all(&mut self, held: &[(Fact, Option<Num>)])
        ensures { self.new ≡ fold with_held self.old held.now }
    {
        for (term, value) in held {
            self.put_back(term, *value);
        }
    }

    fn put_back(&mut self, term: &Fact, value: Option<Num>)
        ensures { self.new ≡ put_back self.old term.now value }
    {
        match value {
            None => {
                self.remove(term);
            }
            Some(number) => self.replace(term, number),
        }
    }

    /// Gives a term that has a value another one. It takes no memory.
    fn replace(&mut self, term: &Fact, number: Num)
        ensures { self.new ≡ set_value (same_fact term.now) self.old number }
    {
        if let Some(place) = self.all.get_mut(term) {
            *place = number;
        }
    }

    /// The functions at arguments that name this and have a value, in order. The only error is out of memory.
    pub fn list_naming(&self, alloc: Global, name: Name) -> Result<Vec<Fact>, AllocError>
        ensures { IfOk result (λ v. v.items ≡ filter (λ f. is_among name f.args) (keys_of self.now)) }
    {
        match &self.namings {
            Some(namings) => naming_noted(alloc, &self.all, namings, name),
            None => naming_each(alloc, &self.all, name),
        }
    }

    /// The functions at their arguments with their values, in order. The only error is out of memory.
    pub fn list(&self, alloc: Global) -> Result<Vec<(Fact, Num)>, AllocError>
        ensures items { IfOk result (λ v. v.items ≡ self.now) }
        ensures rise { OnOk result (IsStrictlySortedBy fact_cmp (keys_of self.now)) }
    {
        let mut all = Vec::with_capacity(alloc, self.all.len())?;
        for (fact, number) in &self.all {
            all.push((*fact, *number))?;
        }
        Ok(all)
    }
}

/// The functions at arguments that name this and have a value, found one by one.
fn naming_each(
    alloc: Global,
    all: &BTreeMap<Fact, Num>,
    name: Name,
) -> Result<Vec<Fact>, AllocError>
    ensures { IfOk result (λ v. v.items ≡ filter (λ f. is_among name f.args) (keys_of all.now.entries)) }
{
    let mut found = Vec::new(alloc);
    for (term, _) in all {
        if term.args.contains(name) {
            found.push(*term)?;
        }
    }
    Ok(found)
}

/// The functions at arguments that name this and have a value, found by notes.
fn naming_noted(
    alloc: Global,
    all: &BTreeMap<Fact, Num>,
    namings: &BTreeSet<Naming>,
    name: Name,
) -> Result<Vec<Fact>, AllocError>
    requires { AreNamed (keys_of all.now.entries) namings.now.keys }
    ensures { IfOk result (λ v. v.items ≡ filter (λ f. is_among name f.args) (keys_of all.now.entries)) }
{
    // A map says of its length that its keys rise.
    let _count = all.len();
    let mut found = noted_with(alloc, namings, name)?;
    found.retain(|term| all.contains_key(term));
    Ok(found)
}

/// The terms among those that lose their values that aren't given one as well, in their order.
pub fn dropped(alloc: Global, ready: &[(Fact, Num)], gone: &[Fact]) -> Result<Vec<Fact>, AllocError>
    ensures { IfOk result (λ v. v.items ≡ dropped_in ready.now gone.now) }
{
    if gone.is_empty() {
        return Ok(Vec::new(alloc));
    }
    let given = terms_of(alloc, ready)?;
    dropped_but(alloc, &given, gone)
}

fn dropped_but(alloc: Global, given: &Facts, gone: &[Fact]) -> Result<Vec<Fact>, AllocError>
    ensures { IfOk result (λ v. v.items
        ≡ filter (λ f. not (list_any (same_fact f) given.now)) gone.now) }
{
    let mut dropped = Vec::new(alloc);
    for term in gone {
        if !given.contains(term) {
            dropped.push(*term)?;
        }
    }
    Ok(dropped)
}

/// The set of the terms of these values.
fn terms_of(alloc: Global, ready: &[(Fact, Num)]) -> Result<Facts, AllocError>
    ensures { IfOk result (λ s. (f : Fact) → list_any (same_fact f) s
        ≡ list_any (same_fact f) (keys_of ready.now)) }
{
    let mut all = Facts::new(alloc);
    for (term, _) in ready {
        all.insert(*term)?;
    }
    Ok(all)
}

/// Whether two values are the same.
fn is_same(a: Option<Num>, b: Option<Num>) -> bool
    ensures { IsTrue result ↔ (a ≡ b) }
{
    match (a, b) {
        (Some(a), Some(b)) => a == b,
        (None, None) => true,
        _ => false,
    }
}

/// The notes of the functions that have these values. The only error is out of memory.
fn notes_of(alloc: Global, values: &BTreeMap<Fact, Num>) -> Result<BTreeSet<Naming>, AllocError>
    ensures { IfOk result (λ s. AreNamed (keys_of values.now.entries) s.keys) }
{
    let mut namings = BTreeSet::new(alloc);
    for (fact, _) in values {
        note(&mut namings, fact)?;
    }
    Ok(namings)
}

/// Takes out every value of a function that names this, without notes. It takes no memory.
fn leave_out_each(all: &mut BTreeMap<Fact, Num>, name: Name)
    ensures { all.new.entries ≡ filter (λ v. not (is_among name v.0.args)) all.old.entries }
{
    all.retain(|fact, _| !fact.args.contains(name));
}

/// Takes out every value of a function that names this, and each note of the name.
fn leave_out_named(all: &mut BTreeMap<Fact, Num>, namings: &mut BTreeSet<Naming>, name: Name)
    requires { AreNamed (keys_of all.old.entries) namings.old.keys }
    ensures left { all.new.entries ≡ filter (λ v. not (is_among name v.0.args)) all.old.entries }
    ensures named { AreNamed (keys_of all.new.entries) namings.new.keys }
{
    while let Some(fact) = take_naming(namings, name) {
        // A map says of its length that its keys rise, so that the function stands in it once.
        let _count = all.len();
        all.remove(&fact);
    }
}
