//! Rows: states over the atoms of a search.
ghost use Rattle.std.specs.Prelude.{◌≡◌, ◌∷◌, [], not, filter, filter_map, fold, length, option_to_list, IfOk, OnOk};
ghost use Rattle.std.specs.List.{list_all, list_any};
ghost use Rattle.std.specs.List.Sorted.{IsStrictlySortedBy};
ghost use Rattle.std.specs.BTreeSet.{insert_key};
ghost use Rattle.std.specs.Map.{keys_of};
ghost use Rattle.ps_world.specs.Facts.{fact_cmp};
ghost use Rattle.ps_world.specs.Knowledge.{same_fact};
ghost use Rattle.ps_action.specs.Effects.{added_by, deletes};
ghost use Rattle.ps_ground.specs.States.{made_state};
ghost use Rattle.ps_ground.specs.Atoms.{AddAtoms, AreAtoms};
ghost use Rattle.ps_solve.specs.Rows.{facts_of, plain_state};
ghost use Rattle.ps_ground.specs.Prepared.{known_at, with_at, without_at};

use super::flags::Flags;
use super::values::Values;
use ps_ground::Atoms;
use ps_world::{Effect, Fact, Num};
use std::alloc::{AllocError, Global};
use std::hash::{Hash, Hasher};

/// A state over the atoms of a search: a flag for each atom, whether it is known, and the values of functions.
#[derive(Drop)]
pub struct Row {
    pub flags: Flags,
    pub values: Values,
}

impl PartialEq for Row {
    ghost use Rattle.std.specs.Cmp.{partial_equiv_from_equiv};
    ghost use Rattle.ps_solve.specs.Rows.{same_row, rows_equiv};

    ghost eq = { same_row };

    ghost laws = { partial_equiv_from_equiv rows_equiv };

    fn eq(&self, other: &Self) -> bool {
        self.flags == other.flags && self.values == other.values
    }
}

impl Eq for Row {
    ghost use Rattle.ps_solve.specs.Rows.{rows_equiv};

    ghost laws = { rows_equiv };
}

impl Hash for Row {
    ghost use Rattle.ps_solve.specs.Rows.{row_fed, rows_fed_alike};

    ghost hash_input = { row_fed };

    ghost respects_eq = { rows_fed_alike };

    fn hash<H: Hasher>(&self, state: &mut H) {
        self.flags.hash(state);
        self.values.hash(state);
    }
}

impl Row {
    /// The row of these facts and values. The only error is out of memory.
    pub fn of(
        alloc: Global,
        atoms: &Atoms,
        facts: &[Fact],
        values: &[(Fact, Num)],
    ) -> Result<Row, AllocError>
        requires facts { IsStrictlySortedBy fact_cmp facts.now }
        requires values { IsStrictlySortedBy fact_cmp (keys_of values.now) }
        requires atoms { AreAtoms atoms.now facts.now }
        ensures same { IfOk result (λ row. (facts_of atoms.now row.flags ≡ facts.now)
            × (row.values ≡ values.now)) }
        ensures wide { IfOk result (λ row. length row.flags ≡ length atoms.now) }
    {
        Ok(Row {
            flags: flags_of(alloc, atoms, facts)?,
            values: Values::of(alloc, values)?,
        })
    }

    /// An equal row.
    pub fn copy(&self, alloc: Global) -> Result<Row, AllocError>
        ensures flags { IfOk result (λ copied. copied.flags ≡ self.now.flags) }
        ensures values { IfOk result (λ copied. copied.values ≡ self.now.values) }
    {
        Ok(Row {
            flags: self.flags.copy(alloc)?,
            values: self.values.copy(alloc)?,
        })
    }

    /// Makes the row equal to another one, which has as many flags. Where memory runs out the row may have changed.
    pub fn set_to(&mut self, alloc: Global, other: &Row) -> Result<(), AllocError>
        requires { length self.old.flags ≡ length other.now.flags }
        ensures flags { OnOk result (self.new.flags ≡ other.now.flags) }
        ensures values { OnOk result (self.new.values ≡ other.now.values) }
    {
        self.flags.set_to(&other.flags);
        self.values.set_to(alloc, &other.values)
    }

    /// Makes the deletes of a list of effects, then its adds, and then gives the terms these values. Where memory runs out the row may
    /// have changed.
    pub fn put(
        &mut self,
        alloc: Global,
        atoms: &Atoms,
        effects: &[Effect],
        ready: &[(Fact, Num)],
    ) -> Result<(), AllocError>
        requires wide { length self.old.flags ≡ length atoms.now }
        requires atoms { AddAtoms atoms.now effects.now }
        ensures state { OnOk result (plain_state atoms.now self.new
            ≡ made_state (plain_state atoms.now self.old) effects.now ready.now) }
        ensures wide { OnOk result (length self.new.flags ≡ length self.old.flags) }
    {
        delete_all(&mut self.flags, atoms, effects);
        add_all(&mut self.flags, atoms, effects);
        self.values.insert_all(alloc, ready)
    }

    /// Clears the flags at these places.
    pub fn clear_all(&mut self, atoms: &Atoms, places: &[usize])
        ensures state { plain_state atoms.now self.new
            ≡ record {
              facts = fold (without_at atoms.now)
                  (plain_state atoms.now self.old).facts places.now;
              values = self.old.values;
            } }
        ensures wide { length self.new.flags ≡ length self.old.flags }
    {
        for place in places {
            clear_at(&mut self.flags, atoms, *place);
        }
    }

    /// Sets the flags at these places.
    pub fn set_all(&mut self, atoms: &Atoms, places: &[usize])
        requires { length self.old.flags ≡ length atoms.now }
        ensures state { plain_state atoms.now self.new
            ≡ record {
              facts = fold (with_at atoms.now)
                  (plain_state atoms.now self.old).facts places.now;
              values = self.old.values;
            } }
        ensures wide { length self.new.flags ≡ length self.old.flags }
    {
        for place in places {
            set_at(&mut self.flags, atoms, *place);
        }
    }
}

/// Whether the atom at a place is known in a row; false where there is none.
fn is_known_at(atoms: &Atoms, row: &Row, place: usize) -> bool
    ensures { result ≡ known_at atoms.now (plain_state atoms.now row.now) place }
{
    if place < atoms.as_slice().len() {
        row.flags.get(place)
    } else {
        false
    }
}

/// Whether the atoms at these places are known in a row.
pub fn are_known(atoms: &Atoms, row: &Row, places: &[usize]) -> bool
    ensures { result ≡ list_all (known_at atoms.now (plain_state atoms.now row.now)) places.now }
{
    for place in places {
        if !is_known_at(atoms, row, *place) {
            return false;
        }
    }
    true
}

/// Flags for the atoms, where these facts are set. The only error is out of memory.
fn flags_of(alloc: Global, atoms: &Atoms, facts: &[Fact]) -> Result<Flags, AllocError>
    requires { AreAtoms atoms.now facts.now }
    ensures facts { IfOk result (λ flags. facts_of atoms.now flags
        ≡ fold (insert_key fact_cmp) [] facts.now) }
    ensures wide { IfOk result (λ flags. length flags ≡ length atoms.now) }
{
    let mut flags = Flags::cleared(alloc, atoms.as_slice().len())?;
    // Both rise, so that each is found after the one before it.
    let mut near = 0;
    for fact in facts {
        near = learn(&mut flags, atoms, near, fact);
    }
    Ok(flags)
}

/// Clears the flag at a place, if there is one.
fn clear_at(flags: &mut Flags, atoms: &Atoms, place: usize)
    ensures facts { facts_of atoms.now flags.new
        ≡ without_at atoms.now (facts_of atoms.now flags.old) place }
    ensures wide { length flags.new ≡ length flags.old }
{
    // The atoms say with their slice that they rise.
    let _atoms = atoms.as_slice();
    flags.clear(place);
}

/// Sets the flag at a place, if there is one.
fn set_at(flags: &mut Flags, atoms: &Atoms, place: usize)
    requires { length flags.old ≡ length atoms.now }
    ensures facts { facts_of atoms.now flags.new
        ≡ with_at atoms.now (facts_of atoms.now flags.old) place }
    ensures wide { length flags.new ≡ length flags.old }
{
    let _atoms = atoms.as_slice();
    flags.set(place);
}

/// Clears the flag of a fact, if it is an atom.
fn forget(flags: &mut Flags, atoms: &Atoms, fact: &Fact)
    ensures facts { facts_of atoms.now flags.new
        ≡ filter (λ f. not (same_fact fact.now f)) (facts_of atoms.now flags.old) }
    ensures wide { length flags.new ≡ length flags.old }
{
    if let Some(place) = atoms.place_of(fact) {
        flags.clear(place);
    }
}

/// Sets the flag of a fact, which is looked for near a place first, and gives its place.
fn learn(flags: &mut Flags, atoms: &Atoms, near: usize, fact: &Fact) -> usize
    requires wide { length flags.old ≡ length atoms.now }
    requires atom { AreAtoms atoms.now (fact.now ∷ []) }
    ensures set { facts_of atoms.now flags.new
        ≡ insert_key fact_cmp (facts_of atoms.now flags.old) fact.now }
    ensures wide { length flags.new ≡ length flags.old }
{
    match atoms.place_near(near, fact) {
        Some(place) => {
            flags.set(place);
            place
        }
        None => unreachable!(),
    }
}

/// Clears the flags of every fact that one of these effects deletes.
fn delete_all(flags: &mut Flags, atoms: &Atoms, effects: &[Effect])
    ensures facts { facts_of atoms.now flags.new
        ≡ filter (λ f. not (list_any (deletes f) effects.now))
        (facts_of atoms.now flags.old) }
    ensures wide { length flags.new ≡ length flags.old }
{
    for effect in effects {
        delete(flags, atoms, effect);
    }
}

/// Clears the flag of the fact that an effect deletes, if it deletes one.
fn delete(flags: &mut Flags, atoms: &Atoms, effect: &Effect)
    ensures facts { facts_of atoms.now flags.new
        ≡ filter (λ f. not (deletes f effect.now)) (facts_of atoms.now flags.old) }
    ensures wide { length flags.new ≡ length flags.old }
{
    match effect {
        Effect::Delete(lifted) => forget(flags, atoms, &lifted.ground()),
        Effect::Add(_) => {}
        Effect::Number(..) => {}
    }
}

/// Sets the flags of every fact that one of these effects adds.
fn add_all(flags: &mut Flags, atoms: &Atoms, effects: &[Effect])
    requires wide { length flags.old ≡ length atoms.now }
    requires atoms { AddAtoms atoms.now effects.now }
    ensures facts { facts_of atoms.now flags.new
        ≡ fold (insert_key fact_cmp) (facts_of atoms.now flags.old)
        (filter_map added_by effects.now) }
    ensures wide { length flags.new ≡ length flags.old }
{
    for effect in effects {
        add(flags, atoms, effect);
    }
}

/// Sets the flag of the fact that an effect adds, if it adds one.
fn add(flags: &mut Flags, atoms: &Atoms, effect: &Effect)
    requires wide { length flags.old ≡ length atoms.now }
    requires atom { AreAtoms atoms.now (option_to_list (added_by effect.now)) }
    ensures facts { facts_of atoms.now flags.new
        ≡ fold (insert_key fact_cmp) (facts_of atoms.now flags.old)
        (option_to_list (added_by effect.now)) }
    ensures wide { length flags.new ≡ length flags.old }
{
    if let Effect::Add(lifted) = effect {
        let _place = learn(flags, atoms, 0, &lifted.ground());
    }
}
