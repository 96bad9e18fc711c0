//! The acts that use each thing.
ghost use Rattle.std.specs.Prelude.{◌≡◌, ◌∷◌, [], IfOk, OnOk, OnErr};
ghost use Rattle.std.specs.List.{list_any};
ghost use Rattle.ps_users.specs.Singles.{wide_of, singles_of, touched_of};
ghost use Rattle.ps_users.specs.Users.{Enters, GrowsBy, IsSame, Marks, Puts, uses};

use super::marks::{are_set, mark_one, mark_places};
use super::single::Single;
use ps_action::Touched;
use std::alloc::{AllocError, Global};
use std::collections::BTreeMap;
use std::marker::Model;

/// Places of acts, which contracts see as their list.
#[derive(Drop)]
struct Places {
    acts: Vec<u32>,
}

impl Model for Places {
    ghost use Rattle.std.specs.Prelude.{ℕ, List};

    ghost Value = { List ℕ };

    ghost view = { λ p. p.acts.items };
}

impl Places {
    /// The place of one act.
    fn of(alloc: Global, act: u32) -> Result<Places, AllocError>
        ensures { IfOk result (λ places. places ≡ act ∷ []) }
    {
        Ok(Places {
            acts: vec![in alloc; act; 1]?,
        })
    }

    /// Puts a place at the end, unless it stands there.
    fn put(&mut self, act: u32) -> Result<(), AllocError>
        ensures ok { OnOk result (Puts self.old act self.new) }
        ensures err { OnErr result (self.new ≡ self.old) }
    {
        if let Some(last) = self.acts.as_slice().last() {
            if *last == act {
                return Ok(());
            }
        }
        self.acts.push(act)?;
        Ok(())
    }
}

/// Notes that an act uses a single thing.
fn enter_single(
    alloc: Global,
    singles: &mut BTreeMap<Single, Places>,
    thing: Single,
    act: u32,
) -> Result<(), AllocError>
    ensures ok { OnOk result (Enters (singles_of singles.old.entries) (touched_of thing ∷ []) act
        (singles_of singles.new.entries)) }
    ensures err { OnErr result (IsSame (singles_of singles.old.entries) (singles_of singles.new.entries)) }
{
    if let Some(places) = singles.get_mut(&thing) {
        places.put(act)?;
        return Ok(());
    }
    singles.insert(thing, Places::of(alloc, act)?)?;
    Ok(())
}

/// Sets the flag of each act that uses this single thing.
fn mark_single(flags: &mut [bool], singles: &BTreeMap<Single, Places>, thing: &Single)
    ensures { Marks flags.old (uses (singles_of singles.now.entries) (touched_of thing.now)) flags.new }
{
    if singles.len() == 0 {
        return;
    }
    if let Some(places) = singles.get(thing) {
        mark_places(flags, places.acts.as_slice());
    }
}

/// Sets the flag of each act that uses a single thing that meets this.
fn mark_met(flags: &mut [bool], singles: &BTreeMap<Single, Places>, touched: &Touched)
    ensures { Marks flags.old (uses (singles_of singles.now.entries) touched.now) flags.new }
{
    for (thing, places) in singles {
        mark_one(flags, touched, &thing.touched(), places.acts.as_slice());
    }
}

/// Sets the flag of each act that uses a place that meets this.
fn mark_wide(flags: &mut [bool], wide: &[(Touched, u32)], touched: &Touched)
    ensures { Marks flags.old (uses (wide_of wide.now) touched.now) flags.new }
{
    for (place, act) in wide {
        mark_one(flags, touched, place, &[*act]);
    }
}

/// The acts that use each thing, by their places. Contracts see the things and places with the acts.
#[derive(Drop)]
pub struct Users {
    alloc: Global,
    /// Facts, values and instances with their acts.
    singles: BTreeMap<Single, Places>,
    /// Places of facts and values, and all instances, each with one act. Where no condition binds variables there are none.
    wide: Vec<(Touched, u32)>,
}

impl Model for Users {
    ghost use Rattle.std.specs.Prelude.{ℕ, List, ◌++◌};
    ghost use Rattle.ps_action.specs.declared.touched.Touched.{Touched};
    ghost use Rattle.ps_users.specs.Singles.{wide_of, singles_of};

    ghost Value = { List (Touched × List ℕ) };

    ghost view = { λ u. singles_of u.singles.entries ++ wide_of u.wide.items };
}

impl Users {
    /// No act uses anything.
    pub fn new(alloc: Global) -> Users
        ensures { result ≡ [] }
    {
        Users {
            alloc,
            singles: BTreeMap::new(alloc),
            wide: Vec::new(alloc),
        }
    }

    /// Sets the flag of each act that uses something that meets this.
    fn mark(&self, touched: &Touched, flags: &mut [bool])
        ensures { Marks flags.old (uses self.now touched.now) flags.new }
    {
        match Single::of(touched) {
            Some(thing) => mark_single(flags, &self.singles, &thing),
            None => mark_met(flags, &self.singles, touched),
        }
        mark_wide(flags, self.wide.as_slice(), touched);
    }

    /// Sets the flag of each act that uses something that meets one of these. Where all are set it stops. It takes no memory.
    pub fn mark_all(&self, touched: &[Touched], flags: &mut [bool])
        ensures { Marks flags.old (λ j. list_any (λ t. uses self.now t j) touched.now) flags.new }
    {
        for one in touched {
            if are_set(flags) {
                return;
            }
            self.mark(one, flags);
        }
    }

    /// Notes that an act uses a thing or a place.
    fn enter(&mut self, touched: Touched, act: u32) -> Result<(), AllocError>
        ensures ok { OnOk result (Enters self.old (touched ∷ []) act self.new) }
        ensures err { OnErr result (IsSame self.old self.new) }
    {
        match Single::of(&touched) {
            Some(thing) => enter_single(self.alloc, &mut self.singles, thing, act),
            None => {
                self.wide.push((touched, act))?;
                Ok(())
            }
        }
    }

    /// Notes that an act uses these things and places. Where memory runs out some of the first may be noted, and nothing of another
    /// act.
    pub fn enter_all(&mut self, touched: &[Touched], act: u32) -> Result<(), AllocError>
        ensures ok { OnOk result (Enters self.old touched.now act self.new) }
        ensures more { GrowsBy self.old act self.new }
    {
        for one in touched {
            self.enter(*one, act)?;
        }
        Ok(())
    }

    /// No act uses anything any longer.
    pub fn clear(&mut self)
        ensures { self.new ≡ [] }
    {
        self.singles.clear();
        self.wide.clear();
    }
}
