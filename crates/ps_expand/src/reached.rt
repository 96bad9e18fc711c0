//! Differences that were reached, and how.
ghost use Rattle.std.specs.Prelude.{◌≡◌, ◌<◌, ◌≤◌, ◌++◌, ◌∷◌, [], false, length, slice_get, slice_index_or, Some, IfOk, OnErr, OnOk};
ghost use Rattle.std.specs.List.{list_any};
ghost use Rattle.std.specs.Option.{option_copied};
ghost use Rattle.ps_levels.specs.Paths.{paths};
ghost use Rattle.ps_expand.specs.Orders.{same_difference};
ghost use Rattle.ps_expand.specs.Reached.{acts_at, keys_in, path_in, with_difference};

use crate::differences::Difference;
use indexmap::IndexSet;
use ps_action::Act;
use ps_levels::Trail;
use ps_world::Seq;
use std::alloc::{AllocError, Global};
use std::marker::Model;

/// Differences from one start, each once, in the order in which they were reached. Contracts see each with the acts that lead to it.
#[derive(Drop)]
pub struct Reached {
    differences: IndexSet<Difference>,
    trail: Trail,
    /// The act of each step.
    acts: Vec<Act>,
}

impl Model for Reached {
    ghost use Rattle.std.specs.Prelude.{List};
    ghost use Rattle.std.specs.Coded.{coded_list, coded×};
    ghost use Rattle.std.specs.List.{zip};
    ghost use Rattle.ps_action.specs.declared.acts.Act.{Act as ActView};
    ghost use Rattle.ps_action.specs.contracts.acts.Act as act;
    ghost use Rattle.ps_expand.specs.Reached.{AreReached, act_paths};
    ghost use Rattle.ps_expand.specs.declared.differences.Difference.{Difference as DifferenceView};
    ghost use Rattle.ps_expand.specs.contracts.differences.Difference.{the_row};

    ghost Value = { List (DifferenceView × List ActView) };

    ghost coded = { coded_list (coded× the_row.coded (coded_list act.the_row.coded)) };

    ghost view = { λ a. zip a.differences.keys (act_paths a.acts.items a.trail) };

    ghost invariant = { λ a. AreReached a.differences.keys a.trail a.acts.items };
}

impl Reached {
    /// This difference alone.
    pub fn new(alloc: Global, first: Difference) -> Result<Reached, AllocError>
        ensures { IfOk result (λ reached. reached ≡ (first, []) ∷ []) }
    {
        let mut differences = IndexSet::new(alloc);
        differences.insert(first)?;
        Ok(Reached {
            differences,
            trail: Trail::new(alloc),
            acts: Vec::new(alloc),
        })
    }

    /// How many there are.
    pub fn len(&self) -> usize
        ensures { result ≡ length self.now }
    {
        self.differences.len()
    }

    /// The difference at a place. None exactly where there is none.
    pub fn get(&self, place: usize) -> Option<&Difference>
        ensures { option_copied result ≡ slice_get (keys_in self.now) place }
    {
        self.differences.get_index(place)
    }

    /// Whether a difference was reached.
    pub fn contains(&self, difference: &Difference) -> bool
        ensures { result ≡ list_any (same_difference difference.now) (keys_in self.now) }
    {
        self.differences.contains(difference)
    }

    /// The acts that lead to the difference at a place, and then one more.
    pub fn path(&self, alloc: Global, place: usize, act: Act) -> Result<Seq<Act>, AllocError>
        requires { place < length self.now }
        ensures { IfOk result (λ path. path ≡ path_in self.now place ++ act ∷ []) }
    {
        let places = self.trail.path(alloc, place)?;
        let mut path = acts_at(alloc, &self.acts, &places)?;
        path.push(act)?;
        Ok(path)
    }

    /// Puts in a difference that wasn't reached, to which an act leads from an earlier one.
    fn push(&mut self, difference: Difference, from: u32, act: Act) -> Result<(), AllocError>
        requires new { list_any (same_difference difference) (keys_in self.old) ≡ false }
        requires from { from < length self.old }
        requires few { length self.old < 4294967296 }
        ensures { OnOk result (self.new ≡ self.old
            ++ (difference, path_in self.old from ++ act ∷ []) ∷ []) }
    {
        push_step(&mut self.trail, &mut self.acts, from, act)?;
        match self.differences.insert(difference) {
            Ok(_) => Ok(()),
            Err(_) => {
                self.trail.pop();
                self.acts.pop();
                Err(AllocError)
            }
        }
    }

    /// Puts in a difference to which an act leads from an earlier one, unless it was reached or so many are kept.
    pub fn meet(
        &mut self,
        difference: Difference,
        from: u32,
        act: Act,
        most: u32,
    ) -> Result<(), AllocError>
        requires { from < length self.old }
        ensures { OnOk result (self.new ≡ with_difference most self.old difference from act) }
    {
        if self.len() >= most as usize || self.contains(&difference) {
            return Ok(());
        }
        self.push(difference, from, act)
    }
}

/// Puts in a step from an earlier node and its act, or neither.
fn push_step(trail: &mut Trail, acts: &mut Vec<Act>, from: u32, act: Act) -> Result<(), AllocError>
    requires from { from ≤ length trail.old }
    requires few { length acts.old.items < 4294967296 }
    ensures trail { OnOk result (trail.new ≡ trail.old ++ (from, length acts.old.items) ∷ []) }
    ensures paths { OnOk result (paths trail.new ≡ paths trail.old
        ++ (slice_index_or (paths trail.old) from [] ++ length acts.old.items ∷ []) ∷ []) }
    ensures acts { OnOk result (acts.new.items ≡ acts.old.items ++ act ∷ []) }
    ensures no_step { OnErr result (trail.new ≡ trail.old) }
    ensures no_act { OnErr result (acts.new.items ≡ acts.old.items) }
{
    let place = acts.len() as u32;
    trail.push(from, place)?;
    if acts.push(act).is_err() {
        trail.pop();
        return Err(AllocError);
    }
    Ok(())
}

/// Puts the act at a place at the end, if there is one.
fn push_act(acts: &[Act], place: u32, path: &mut Seq<Act>) -> Result<(), AllocError>
    ensures { OnOk result (path.new ≡ path.old ++ acts_at acts.now (place ∷ [])) }
{
    match acts.get(place as usize) {
        Some(act) => path.push(*act),
        None => Ok(()),
    }
}

/// The acts at these places.
fn acts_at(alloc: Global, acts: &[Act], places: &[u32]) -> Result<Seq<Act>, AllocError>
    ensures { IfOk result (λ path. path ≡ acts_at acts.now places.now) }
{
    let mut path = Seq::new(alloc);
    for place in places {
        push_act(acts, *place, &mut path)?;
    }
    Ok(path)
}
