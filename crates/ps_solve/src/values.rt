//! The values of functions in a state.
ghost use Rattle.std.specs.Prelude.{◌≡◌, fold, IfOk, OnOk};
ghost use Rattle.std.specs.List.Sorted.{IsStrictlySortedBy};
ghost use Rattle.std.specs.Map.{keys_of, lookup};
ghost use Rattle.ps_world.specs.Facts.{fact_cmp};
ghost use Rattle.ps_world.specs.Knowledge.{same_fact};
ghost use Rattle.ps_action.specs.Effects.{with_value};

use ps_world::{Fact, Num};
use std::alloc::{AllocError, Global};
use std::collections::BTreeMap;
use std::hash::{Hash, Hasher};
use std::marker::Model;

/// Functions at their arguments, in their order, with their values. Contracts see their list.
#[derive(Drop)]
pub struct Values {
    /// Mostly there are none, and then there is no map.
    all: Option<Box<BTreeMap<Fact, Num>>>,
}

impl Model for Values {
    ghost use Rattle.std.specs.Prelude.{List, []};
    ghost use Rattle.std.specs.Option.{option_map_or};
    ghost use Rattle.ps_world.specs.declared.facts.Fact.{Fact};
    ghost use Rattle.ps_world.specs.declared.numbers.Num.{Num};

    ghost Value = { List (Fact × Num) };

    ghost view = { λ a. option_map_or (λ m. m.value.entries) a.all [] };
}

impl Values {
    /// These values.
    pub fn of(alloc: Global, values: &[(Fact, Num)]) -> Result<Values, AllocError>
        requires { IsStrictlySortedBy fact_cmp (keys_of values.now) }
        ensures { IfOk result (λ made. made ≡ values.now) }
    {
        let mut made = Values { all: None };
        made.insert_all(alloc, values)?;
        Ok(made)
    }

    /// Equal values.
    pub fn copy(&self, alloc: Global) -> Result<Values, AllocError>
        ensures { IfOk result (λ values. values ≡ self.now) }
    {
        match &self.all {
            Some(all) => {
                let copied: BTreeMap<Fact, Num> = all.as_ref().clone()?;
                Ok(Values {
                    all: Some(Box::new(alloc, copied)?),
                })
            }
            None => Ok(Values { all: None }),
        }
    }

    /// Makes these values equal to others. Where memory runs out they stay as they are.
    pub fn set_to(&mut self, alloc: Global, other: &Values) -> Result<(), AllocError>
        ensures { OnOk result (self.new ≡ other.now) }
    {
        if self.all.is_none() && other.all.is_none() {
            return Ok(());
        }
        *self = other.copy(alloc)?;
        Ok(())
    }

    /// The value that the function has there. None exactly where it has none.
    pub fn get(&self, term: &Fact) -> Option<Num>
        ensures { result ≡ lookup (same_fact term.now) self.now }
    {
        match &self.all {
            Some(all) => all.get(term).copied(),
            None => None,
        }
    }

    /// Sets a value.
    fn insert(&mut self, alloc: Global, term: Fact, number: Num) -> Result<(), AllocError>
        ensures { OnOk result (self.new ≡ with_value self.old (term, number)) }
    {
        if self.all.is_none() {
            self.all = Some(Box::new(alloc, BTreeMap::new(alloc))?);
        }
        if let Some(all) = &mut self.all {
            all.insert(term, number)?;
        }
        Ok(())
    }

    /// Sets these values one after another. Where memory runs out some of the first may be set.
    pub fn insert_all(&mut self, alloc: Global, ready: &[(Fact, Num)]) -> Result<(), AllocError>
        ensures { OnOk result (self.new ≡ fold with_value self.old ready.now) }
    {
        for (term, number) in ready {
            self.insert(alloc, *term, *number)?;
        }
        Ok(())
    }
}

impl PartialEq for Values {
    ghost use Rattle.std.specs.Cmp.{partial_equiv_from_equiv, eq_by_cmp_equiv};
    ghost use Rattle.std.specs.Ordering.{eq_by_cmp};
    ghost use Rattle.ps_solve.specs.Orders.{values_cmp, values_total};

    ghost eq = { eq_by_cmp values_cmp };

    ghost laws = { partial_equiv_from_equiv (eq_by_cmp_equiv values_total) };

    fn eq(&self, other: &Self) -> bool {
        match (&self.all, &other.all) {
            (Some(mine), Some(theirs)) => mine.cmp(theirs).is_eq(),
            (Some(mine), None) => mine.is_empty(),
            (None, Some(theirs)) => theirs.is_empty(),
            (None, None) => true,
        }
    }
}

impl Eq for Values {
    ghost use Rattle.std.specs.Cmp.{eq_by_cmp_equiv};
    ghost use Rattle.ps_solve.specs.Orders.{values_total};

    ghost laws = { eq_by_cmp_equiv values_total };
}

impl Hash for Values {
    ghost use Rattle.std.specs.Prelude.{flat_map};
    ghost use Rattle.std.specs.Hash as fed;
    ghost use Rattle.ps_solve.specs.Orders.{values_fed_alike};

    ghost hash_input = { flat_map (λ v. fed.i64 v.1) };

    ghost respects_eq = { values_fed_alike };

    // The terms are mostly the same from state to state, so that the numbers alone tell states apart.
    fn hash<H: Hasher>(&self, state: &mut H) {
        let Some(all) = &self.all else {
            return;
        };
        for (_, number) in all.as_ref() {
            number.milli().hash(state);
        }
    }
}
