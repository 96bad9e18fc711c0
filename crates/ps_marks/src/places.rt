//! The places of facts, at which their flags stand.
ghost use Rattle.std.specs.Prelude.{◌≡◌, [], map, IfOk, OnOk};
ghost use Rattle.ps_world.specs.Knowledge.{is_known};
ghost use Rattle.ps_marks.specs.Landmarks.{each_once};
ghost use Rattle.ps_marks.specs.Rules.{AllIn, IsIndexed, IsOnce, place, with_fact};

use ps_problem::Problem;
use ps_world::Fact;
use std::alloc::{AllocError, Global};
use std::collections::BTreeMap;
use std::marker::Model;

/// Facts with their places, each once. Contracts see their list.
#[derive(Drop)]
pub struct Places {
    facts: Vec<Fact>,
    places: BTreeMap<Fact, usize>,
}

impl Model for Places {
    ghost use Rattle.std.specs.Prelude.{List};
    ghost use Rattle.ps_world.specs.declared.facts.Fact.{Fact};
    ghost use Rattle.ps_marks.specs.Rules.{IsIndexed};

    ghost Value = { List Fact };

    ghost view = { λ p. p.facts.items };

    ghost invariant = { λ p. IsIndexed p.facts.items p.places.entries };
}

/// Puts a fact at the next place, unless it has one.
fn enter(
    facts: &mut Vec<Fact>,
    places: &mut BTreeMap<Fact, usize>,
    fact: &Fact,
) -> Result<(), AllocError>
    requires { IsIndexed facts.old.items places.old.entries }
    ensures indexed { OnOk result (IsIndexed facts.new.items places.new.entries) }
    ensures facts { OnOk result (facts.new.items ≡ with_fact facts.old.items fact.now) }
{
    if places.contains_key(fact) {
        return Ok(());
    }
    places.insert(*fact, facts.len())?;
    facts.push(*fact)?;
    Ok(())
}

impl Places {
    /// These facts, each at the place at which it comes first.
    pub fn of(alloc: Global, list: &[Fact]) -> Result<Places, AllocError>
        ensures once { IfOk result (λ all. all ≡ each_once [] list.now) }
        ensures all { IfOk result (λ all. AllIn all list.now) }
    {
        let mut facts = Vec::new(alloc);
        let mut places = BTreeMap::new(alloc);
        for fact in list {
            enter(&mut facts, &mut places, fact)?;
        }
        Ok(Places { facts, places })
    }

    /// The facts at their places.
    pub fn as_slice(&self) -> &[Fact]
        ensures facts { result.now ≡ self.now }
        ensures once { IsOnce self.now }
    {
        self.facts.as_slice()
    }

    /// The place of a fact, counted from 0. None exactly where it has none.
    pub fn place_of(&self, fact: &Fact) -> Option<usize>
        ensures { result ≡ place self.now fact.now }
    {
        self.places.get(fact).copied()
    }

    /// Which facts are known, by their places.
    pub fn flags(&self, alloc: Global, problem: &Problem) -> Result<Vec<bool>, AllocError>
        ensures { IfOk result (λ flags. flags.items ≡ map (is_known problem.now) self.now) }
    {
        let mut flags = Vec::with_capacity(alloc, self.facts.len())?;
        for fact in &self.facts {
            flags.push(problem.has(fact))?;
        }
        Ok(flags)
    }
}
