//! Changes of facts and values, all of it or nothing.
ghost use Rattle.std.specs.Prelude.{◌≡◌, ◌≢◌, ◌↔◌, ◌++◌, ℕ, [], false, All, IfOk, OnOk, OnErr, IsTrue, fold, take};
ghost use Rattle.std.specs.List.Sorted.{IsStrictlySortedBy};
ghost use Rattle.std.specs.Map.{keys_of, lookup};
ghost use Rattle.std.specs.BTreeSet.{insert_key};
ghost use Rattle.ps_world.specs.Facts.{fact_cmp};
ghost use Rattle.ps_world.specs.Knowledge.{same_fact};
ghost use Rattle.ps_action.specs.Effects.{made, with_value};
ghost use Rattle.ps_problem.specs.Patches.{facts_after, values_after};
ghost use Rattle.ps_problem.specs.Puts.{dropped_in, fresh_in, lost_in, held_in, without_one, without_term, with_held};

use super::Problem;
use super::facts::{adds_of, deletes_of};
use super::values::dropped;
use ps_world::{Effect, Fact, Num};
use std::alloc::AllocError;

/// What changes, which is found before it is made.
#[derive(Drop)]
struct Found {
    /// The facts that come.
    fresh: Vec<Fact>,
    /// The facts that go.
    lost: Vec<Fact>,
    /// The terms whose values may change, each with the value from before.
    held: Vec<(Fact, Option<Num>)>,
    /// The terms that lose their values.
    dropped: Vec<Fact>,
}

impl Problem {
    /// Makes the deletes of a list of effects, then its adds, and then gives the terms these values, of which the last
    /// counts where a term stands there twice. Answers whether anything changed. Where memory runs out
    /// nothing has changed.
    pub fn put(&mut self, effects: &[Effect], ready: &[(Fact, Num)]) -> Result<bool, AllocError>
        ensures ok { OnOk result (self.new ≡ made self.old effects.now ready.now) }
        ensures changed { IfOk result (λ changed. IsTrue changed ↔ (self.new ≢ self.old)) }
        ensures err { OnErr result (self.new ≡ self.old) }
    {
        let adds = adds_of(self.alloc, effects)?;
        let deletes = deletes_of(self.alloc, effects)?;
        self.put_known(&adds, &deletes, ready, &[])
    }

    /// Takes out facts and the values of terms, and then puts facts and values in, of which the last counts where a term stands there
    /// twice. Answers whether anything changed. Where memory runs out nothing has changed.
    pub(crate) fn put_known(
        &mut self,
        adds: &[Fact],
        deletes: &[Fact],
        ready: &[(Fact, Num)],
        gone: &[Fact],
    ) -> Result<bool, AllocError>
        ensures ok { OnOk result (self.new ≡ record self.old {
          facts = facts_after self.old.facts adds.now deletes.now;
          values = values_after self.old.values ready.now gone.now;
        }) }
        ensures changed { IfOk result (λ changed. IsTrue changed ↔ (self.new ≢ self.old)) }
        ensures err { OnErr result (self.new ≡ self.old) }
    {
        let found = self.found(adds, deletes, ready, gone)?;
        self.make(&found, ready)
    }

    /// What changes.
    fn found(
        &self,
        adds: &[Fact],
        deletes: &[Fact],
        ready: &[(Fact, Num)],
        gone: &[Fact],
    ) -> Result<Found, AllocError>
        ensures fresh { IfOk result (λ c. c.fresh.items ≡ fresh_in self.now.facts adds.now) }
        ensures lost { IfOk result (λ c. c.lost.items
            ≡ lost_in self.now.facts adds.now deletes.now) }
        ensures held { IfOk result (λ c. c.held.items
            ≡ held_in self.now.values (keys_of ready.now ++ gone.now)) }
        ensures dropped { IfOk result (λ c. c.dropped.items ≡ dropped_in ready.now gone.now) }
        ensures facts_rise { OnOk result (IsStrictlySortedBy fact_cmp self.now.facts) }
        ensures values_rise { OnOk result (IsStrictlySortedBy fact_cmp (keys_of self.now.values)) }
    {
        let fresh = self.facts.fresh(self.alloc, adds)?;
        let lost = self.facts.lost(self.alloc, adds, deletes)?;
        let held = self.values.held(self.alloc, ready, gone)?;
        let dropped = dropped(self.alloc, ready, gone)?;
        Ok(Found {
            fresh,
            lost,
            held,
            dropped,
        })
    }

    /// Makes a change, and answers whether there was anything to change. Where memory runs out all that
    /// came is taken out, and each term has the value that it held.
    fn make(&mut self, found: &Found, ready: &[(Fact, Num)]) -> Result<bool, AllocError>
        ensures ok { OnOk result (self.new ≡ record self.old {
          facts = fold without_one
              (fold (insert_key fact_cmp) self.old.facts found.now.fresh.items)
              found.now.lost.items;
          values = fold without_term
              (fold with_value self.old.values ready.now)
              found.now.dropped.items;
        }) }
        ensures changed { IfOk result (λ changed. (changed ≡ false)
            ↔ ((found.now.fresh.items ≡ []) × (found.now.lost.items ≡ [])
            × All (λ h. lookup (same_fact h.0) self.new.values ≡ h.1) found.now.held.items)) }
        ensures err { OnErr result ((j k : ℕ) × (self.new ≡ record self.old {
          facts = fold without_one
              (fold (insert_key fact_cmp) self.old.facts (take j found.now.fresh.items))
              found.now.fresh.items;
          values = fold with_held
              (fold with_value self.old.values (take k ready.now))
              found.now.held.items;
        })) }
    {
        match self.grow(found, ready) {
            Ok(()) => {
                self.facts.remove_all(&found.lost);
                self.values.remove_all(&found.dropped);
                Ok(!self.is_as_before(found))
            }
            Err(error) => {
                self.facts.remove_all(&found.fresh);
                self.values.put_back_all(&found.held);
                Err(error)
            }
        }
    }

    /// Puts in the facts that come, and the values. Where memory runs out some may be there.
    fn grow(&mut self, found: &Found, ready: &[(Fact, Num)]) -> Result<(), AllocError>
        ensures ok { OnOk result (self.new ≡ record self.old {
          facts = fold (insert_key fact_cmp) self.old.facts found.now.fresh.items;
          values = fold with_value self.old.values ready.now;
        }) }
        ensures err { OnErr result ((j k : ℕ) × (self.new ≡ record self.old {
          facts = fold (insert_key fact_cmp) self.old.facts (take j found.now.fresh.items);
          values = fold with_value self.old.values (take k ready.now);
        })) }
    {
        self.facts.insert_all(&found.fresh)?;
        self.values.insert_all(ready)?;
        Ok(())
    }

    /// Whether a change that was made changed nothing.
    fn is_as_before(&self, found: &Found) -> bool
        ensures { IsTrue result ↔ ((found.now.fresh.items ≡ []) × (found.now.lost.items ≡ [])
            × All (λ h. lookup (same_fact h.0) self.now.values ≡ h.1) found.now.held.items) }
    {
        if !found.fresh.is_empty() || !found.lost.is_empty() {
            return false;
        }
        self.values.are_held(&found.held)
    }
}
