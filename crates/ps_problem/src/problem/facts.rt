//! The facts that are known.
ghost use Rattle.std.specs.Prelude.{◌≡◌, ◌≢◌, ℕ, [], false, true, not, ◌&&◌, filter, filter_map, fold, take, IfOk, OnOk, OnErr};
ghost use Rattle.std.specs.List.{list_any};
ghost use Rattle.std.specs.List.Sorted.{IsStrictlySortedBy};
ghost use Rattle.std.specs.BTreeSet.{insert_key};
ghost use Rattle.ps_world.specs.Names.{same_name};
ghost use Rattle.ps_world.specs.Facts.{fact_cmp};
ghost use Rattle.ps_world.specs.declared.facts.Fact.{Fact};
ghost use Rattle.ps_world.specs.Knowledge.{is_among, same_fact};
ghost use Rattle.ps_action.specs.Effects.{added_by};
ghost use Rattle.ps_problem.specs.Namings.{AreNamed};
ghost use Rattle.ps_problem.specs.Puts.{deleted_by, fresh_in, lost_in, without_one};

use super::namings::{Naming, lowest_of, note, note_where_taken, noted_with, take_naming};
use ps_world::{Effect, Fact, Name};
use std::alloc::{AllocError, Global};
use std::collections::BTreeSet;
use std::marker::Model;

/// Facts in their order, which are found by the names that stand in them as well. Contracts see their list.
#[derive(Drop)]
pub struct Facts {
    all: BTreeSet<Fact>,
    /// None until a name is left out: most sessions leave none out, and then no notes are needed.
    namings: Option<BTreeSet<Naming>>,
}

impl Model for Facts {
    ghost use Rattle.std.specs.Prelude.{List, IfSome};
    ghost use Rattle.ps_world.specs.declared.facts.Fact.{Fact};
    ghost use Rattle.ps_problem.specs.Namings.{AreNamed};

    ghost Value = { List Fact };

    ghost view = { λ a. a.all.keys };

    ghost invariant = { λ a. IfSome a.namings (λ s. AreNamed a.all.keys s.keys) };
}

impl Facts {
    /// No facts.
    pub fn new(alloc: Global) -> Facts
        ensures { result ≡ [] }
    {
        Facts {
            all: BTreeSet::new(alloc),
            namings: None,
        }
    }

    /// Whether the fact is there.
    pub fn contains(&self, fact: &Fact) -> bool
        ensures { result ≡ list_any (same_fact fact.now) self.now }
    {
        self.all.contains(fact)
    }

    /// An equal set.
    pub fn copy(&self) -> Result<Facts, AllocError>
        ensures { IfOk result (λ facts. facts ≡ self.now) }
    {
        Ok(Facts {
            all: self.all.clone()?,
            namings: None,
        })
    }

    /// Puts a fact in, and answers whether it is new. Where memory runs out nothing changes.
    pub fn insert(&mut self, fact: Fact) -> Result<bool, AllocError>
        ensures ok { OnOk result (self.new ≡ insert_key fact_cmp self.old fact) }
        ensures added { IfOk result (λ added. added ≡ not (list_any (same_fact fact) self.old)) }
        ensures same { IfOk result (λ added. added ≡ false → self.new ≡ self.old) }
        ensures grew { IfOk result (λ added. added ≡ true → self.new ≢ self.old) }
        ensures err { OnErr result (self.new ≡ self.old) }
    {
        note_where_taken(&mut self.namings, &fact)?;
        let added = self.all.insert(fact)?;
        Ok(added)
    }

    /// Takes a fact out, and answers whether it was there.
    pub fn remove(&mut self, fact: &Fact) -> bool
        ensures was { result ≡ list_any (same_fact fact.now) self.old }
        ensures left { self.new ≡ filter (λ g. not (same_fact fact.now g)) self.old }
        ensures same { result ≡ false → self.new ≡ self.old }
        ensures fell { result ≡ true → self.new ≢ self.old }
    {
        // A set says of its length that its items rise, so that the fact stands in it once.
        let _count = self.all.len();
        self.all.remove(fact)
    }

    /// Takes out every fact that names this.
    pub fn leave_out(&mut self, alloc: Global, name: Name)
        ensures { self.new ≡ filter (λ f. not (is_among name f.args)) self.old }
    {
        if self.namings.is_none() {
            self.namings = notes_of(alloc, &self.all).ok();
        }
        match &mut self.namings {
            Some(namings) => leave_out_named(&mut self.all, namings, name),
            // There is no memory for notes.
            None => leave_out_each(&mut self.all, name),
        }
    }

    /// Puts these facts in. Where memory runs out some of the first may be there.
    pub fn insert_all(&mut self, facts: &[Fact]) -> Result<(), AllocError>
        ensures ok { OnOk result (self.new ≡ fold (insert_key fact_cmp) self.old facts.now) }
        ensures err { OnErr result ((k : ℕ)
            × (self.new ≡ fold (insert_key fact_cmp) self.old (take k facts.now))) }
    {
        for fact in facts {
            self.insert(*fact)?;
        }
        Ok(())
    }

    /// Takes these facts out, those of them that are there.
    pub fn remove_all(&mut self, facts: &[Fact])
        ensures { self.new ≡ fold without_one self.old facts.now }
    {
        for fact in facts {
            self.remove(fact);
        }
    }

    /// The facts among those that come that aren't there, in their order.
    pub fn fresh(&self, alloc: Global, adds: &[Fact]) -> Result<Vec<Fact>, AllocError>
        ensures fresh { IfOk result (λ v. v.items ≡ fresh_in self.now adds.now) }
        ensures rises { OnOk result (IsStrictlySortedBy fact_cmp self.now) }
    {
        // A set says of its length that its items rise.
        let _count = self.all.len();
        let mut fresh = Vec::new(alloc);
        for fact in adds {
            if !self.contains(fact) {
                fresh.push(*fact)?;
            }
        }
        Ok(fresh)
    }

    /// The facts among those that go that are there and don't come as well, in their order.
    pub fn lost(
        &self,
        alloc: Global,
        adds: &[Fact],
        deletes: &[Fact],
    ) -> Result<Vec<Fact>, AllocError>
        ensures { IfOk result (λ v. v.items ≡ lost_in self.now adds.now deletes.now) }
    {
        if deletes.is_empty() {
            return Ok(Vec::new(alloc));
        }
        let come = set_of(alloc, adds)?;
        self.lost_but(alloc, deletes, &come)
    }

    fn lost_but(
        &self,
        alloc: Global,
        deletes: &[Fact],
        come: &Facts,
    ) -> Result<Vec<Fact>, AllocError>
        ensures { IfOk result (λ v. v.items ≡ filter
            (λ f. list_any (same_fact f) self.now && not (list_any (same_fact f) come.now))
            deletes.now) }
    {
        let mut lost = Vec::new(alloc);
        for fact in deletes {
            if self.is_lost(fact, come) {
                lost.push(*fact)?;
            }
        }
        Ok(lost)
    }

    fn is_lost(&self, fact: &Fact, come: &Facts) -> bool
        ensures { result ≡ (list_any (same_fact fact.now) self.now
            && not (list_any (same_fact fact.now) come.now)) }
    {
        self.contains(fact) && !come.contains(fact)
    }

    /// The facts in their order. The only error is out of memory.
    pub fn list(&self, alloc: Global) -> Result<Vec<Fact>, AllocError>
        ensures items { IfOk result (λ v. v.items ≡ self.now) }
        ensures rise { OnOk result (IsStrictlySortedBy fact_cmp self.now) }
    {
        // A set says of its length that its items rise.
        let _count = self.all.len();
        self.all.iter().copied().collect(alloc)
    }

    /// The facts that name this, in their order. The only error is out of memory.
    pub fn list_naming(&self, alloc: Global, name: Name) -> Result<Vec<Fact>, AllocError>
        ensures { IfOk result (λ v. v.items ≡ filter (λ f. is_among name f.args) self.now) }
    {
        match &self.namings {
            Some(namings) => naming_noted(alloc, &self.all, namings, name),
            None => naming_each(alloc, &self.all, name),
        }
    }

    /// The facts with this head, in their order.
    pub fn list_of(&self, alloc: Global, head: Name) -> Result<Vec<Fact>, AllocError>
        ensures { IfOk result (λ v. v.items ≡ filter (λ f. same_name head f.head) self.now) }
    {
        let mut found = Vec::new(alloc);
        // They stand together, from the lowest of them on.
        for fact in self.all.range(lowest_of(head)..) {
            if head != fact.head {
                return Ok(found);
            }
            found.push(*fact)?;
        }
        Ok(found)
    }
}

/// The facts that name this, found one by one.
fn naming_each(alloc: Global, all: &BTreeSet<Fact>, name: Name) -> Result<Vec<Fact>, AllocError>
    ensures { IfOk result (λ v. v.items ≡ filter (λ f. is_among name f.args) all.now.keys) }
{
    let mut found = Vec::new(alloc);
    for fact in all {
        if fact.args.contains(name) {
            found.push(*fact)?;
        }
    }
    Ok(found)
}

/// The facts that name this, found by notes.
fn naming_noted(
    alloc: Global,
    all: &BTreeSet<Fact>,
    namings: &BTreeSet<Naming>,
    name: Name,
) -> Result<Vec<Fact>, AllocError>
    requires { AreNamed all.now.keys namings.now.keys }
    ensures { IfOk result (λ v. v.items ≡ filter (λ f. is_among name f.args) all.now.keys) }
{
    // A set says of its length that its items rise.
    let _count = all.len();
    let mut found = noted_with(alloc, namings, name)?;
    found.retain(|fact| all.contains(fact));
    Ok(found)
}

/// The fact that an effect adds. None exactly where it adds none.
fn added(effect: &Effect) -> Option<Fact>
    ensures { result ≡ added_by effect.now }
{
    match effect {
        Effect::Add(lifted) => Some(lifted.ground()),
        Effect::Delete(_) | Effect::Number(..) => None,
    }
}

/// The fact that an effect deletes. None exactly where it deletes none.
fn deleted(effect: &Effect) -> Option<Fact>
    ensures { result ≡ deleted_by effect.now }
{
    match effect {
        Effect::Delete(lifted) => Some(lifted.ground()),
        Effect::Add(_) | Effect::Number(..) => None,
    }
}

/// The set of these facts.
fn set_of(alloc: Global, facts: &[Fact]) -> Result<Facts, AllocError>
    ensures { IfOk result (λ s. (f : Fact) → list_any (same_fact f) s
        ≡ list_any (same_fact f) facts.now) }
{
    let mut all = Facts::new(alloc);
    all.insert_all(facts)?;
    Ok(all)
}

/// The facts that effects add, in the order of the effects.
pub fn adds_of(alloc: Global, effects: &[Effect]) -> Result<Vec<Fact>, AllocError>
    ensures { IfOk result (λ v. v.items ≡ filter_map added_by effects.now) }
{
    let mut all = Vec::new(alloc);
    for effect in effects {
        if let Some(fact) = added(effect) {
            all.push(fact)?;
        }
    }
    Ok(all)
}

/// The facts that effects delete, in the order of the effects.
pub fn deletes_of(alloc: Global, effects: &[Effect]) -> Result<Vec<Fact>, AllocError>
    ensures { IfOk result (λ v. v.items ≡ filter_map deleted_by effects.now) }
{
    let mut all = Vec::new(alloc);
    for effect in effects {
        if let Some(fact) = deleted(effect) {
            all.push(fact)?;
        }
    }
    Ok(all)
}

/// The notes of these facts. The only error is out of memory.
fn notes_of(alloc: Global, facts: &BTreeSet<Fact>) -> Result<BTreeSet<Naming>, AllocError>
    ensures { IfOk result (λ s. AreNamed facts.now.keys s.keys) }
{
    let mut namings = BTreeSet::new(alloc);
    for fact in facts {
        note(&mut namings, fact)?;
    }
    Ok(namings)
}

/// Takes out every fact that names this, without notes. It takes no memory.
fn leave_out_each(all: &mut BTreeSet<Fact>, name: Name)
    ensures { all.new.keys ≡ filter (λ f. not (is_among name f.args)) all.old.keys }
{
    all.retain(|fact| !fact.args.contains(name));
}

/// Takes out every fact that names this, and each note of the name.
fn leave_out_named(all: &mut BTreeSet<Fact>, namings: &mut BTreeSet<Naming>, name: Name)
    requires { AreNamed all.old.keys namings.old.keys }
    ensures left { all.new.keys ≡ filter (λ f. not (is_among name f.args)) all.old.keys }
    ensures named { AreNamed all.new.keys namings.new.keys }
{
    while let Some(fact) = take_naming(namings, name) {
        // A set says of its length that its items rise, so that the fact stands in it once.
        let _count = all.len();
        all.remove(&fact);
    }
}
