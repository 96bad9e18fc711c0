//! The index of a list by the names in it.
ghost use Rattle.std.specs.Prelude.{◌≡◌, [], find, IfOk, OnOk, OnErr};
ghost use Rattle.std.specs.Map.{lookup};
ghost use Rattle.std.specs.Option.{option_copied};
ghost use Rattle.ps_domain.specs.Places.{IsIndexOf, Notes};
ghost use Rattle.ps_world.specs.Names.{same_name};

use ps_world::{ActionDef, Decl, Name, Param};
use std::alloc::{AllocError, Global};
use std::collections::BTreeMap;
use std::marker::Model;

/// What a domain declares under a name.
pub trait Named {
    ghost use Rattle.ps_world.specs.declared.names.Name.{Name};

    ghost name_of: { Self → Name };

    fn name(&self) -> Name
        ensures { result ≡ name_of self.now };
}

impl Named for Param {
    ghost name_of = { λ p. p.name };

    fn name(&self) -> Name {
        self.name
    }
}

impl Named for Decl {
    ghost name_of = { λ decl. decl.name };

    fn name(&self) -> Name {
        self.name
    }
}

impl Named for ActionDef {
    ghost name_of = { λ action. action.name };

    fn name(&self) -> Name {
        self.name
    }
}

/// The first place of each name in a list. Contracts see it as the names with their places.
#[derive(Drop)]
pub struct Index {
    places: BTreeMap<Name, usize>,
}

impl Model for Index {
    ghost use Rattle.std.specs.Prelude.{ℕ, List};
    ghost use Rattle.ps_world.specs.declared.names.Name.{Name};

    ghost Value = { List (Name × ℕ) };

    ghost view = { λ i. i.places.entries };
}

impl Index {
    /// The index of an empty list. It takes no memory.
    pub fn new(alloc: Global) -> Index
        ensures { result ≡ [] }
    {
        Index {
            places: BTreeMap::new(alloc),
        }
    }

    /// The index of this list.
    pub fn of<T: Named>(alloc: Global, list: &[T]) -> Result<Index, AllocError>
        ensures { IfOk result (IsIndexOf T.name_of list.now) }
    {
        let mut index = Index::new(alloc);
        for (place, item) in list.iter().enumerate() {
            index.note(item.name(), place)?;
        }
        Ok(index)
    }

    /// Gives a name this place, unless it has one. Where memory runs out nothing changes.
    fn note(&mut self, name: Name, place: usize) -> Result<(), AllocError>
        ensures ok { OnOk result (Notes self.old self.new name place) }
        ensures err { OnErr result (self.new ≡ self.old) }
    {
        if !self.places.contains_key(&name) {
            self.places.insert(name, place)?;
        }
        Ok(())
    }

    fn place(&self, name: Name) -> Option<usize>
        ensures { result ≡ lookup (same_name name) self.now }
    {
        self.places.get(&name).copied()
    }

    /// The first of the list with this name, where this is the list's index. None exactly where no name is this.
    pub fn find<'a, T: Named>(&self, list: &'a [T], name: Name) -> Option<&'a T>
        requires { IsIndexOf T.name_of list.now self.now }
        ensures { option_copied result ≡ find (λ x. same_name name (T.name_of x)) list.now }
    {
        let place = self.place(name)?;
        list.get(place)
    }
}
