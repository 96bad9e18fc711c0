//! The instances that are known.
ghost use Rattle.std.specs.Prelude.{◌≡◌, ◌↔◌, [], List, not, filter, fold, map, length, slice_get, unwrap_or, IfOk, IsTrue, OnOk, OnErr};
ghost use Rattle.std.specs.List.Sorted.{IsStrictlySortedBy};
ghost use Rattle.std.specs.Map.{keys_of, lookup};
ghost use Rattle.std.specs.BTreeMap.{insert_entry};
ghost use Rattle.ps_world.specs.Names.{name_cmp, same_name};
ghost use Rattle.ps_world.specs.Knowledge.{is_below};
ghost use Rattle.ps_world.specs.declared.names.Name.{Name};
ghost use Rattle.ps_problem.specs.KindLists.{AreKinds, AreAfter, IsListed, is_named, place_of};
ghost use Rattle.ps_problem.specs.Patches.{instances_after, with_instance};
ghost use Rattle.ps_problem.specs.Puts.{without_instance};

use ps_domain::Expert;
use ps_world::Name;
use std::alloc::{AllocError, Global};
use std::marker::Model;

/// The most names whose types stand in a list by their numbers.
const MOST_KINDS: u32 = 4_096;

/// The instances with their types, in the order of their names. Contracts see their list.
#[derive(Drop)]
pub struct Instances {
    all: Vec<(Name, Name)>,
    /// The types of the names with the lowest numbers, so that an argument's type is found without a search.
    kinds: Vec<Option<Name>>,
}

impl Model for Instances {
    ghost use Rattle.std.specs.Prelude.{List};
    ghost use Rattle.ps_world.specs.declared.names.Name.{Name};
    ghost use Rattle.ps_problem.specs.KindLists.{IsListed};

    ghost Value = { List (Name × Name) };

    ghost view = { λ a. a.all.items };

    ghost invariant = { λ a. IsListed a.kinds.items a.all.items };
}

impl Instances {
    /// No instances.
    pub fn new(alloc: Global) -> Instances
        ensures { result ≡ [] }
    {
        Instances {
            all: Vec::new(alloc),
            kinds: Vec::new(alloc),
        }
    }

    /// Equal instances.
    pub fn copy(&self) -> Result<Instances, AllocError>
        ensures { IfOk result (λ instances. instances ≡ self.now) }
    {
        Ok(Instances {
            all: self.all.clone()?,
            kinds: self.kinds.clone()?,
        })
    }

    /// How many instances.
    pub fn len(&self) -> usize
        ensures { result ≡ length self.now }
    {
        self.all.len()
    }

    /// The type of an instance. None exactly where the name is no instance.
    pub fn get(&self, name: Name) -> Option<Name>
        ensures { result ≡ lookup (same_name name) self.now }
    {
        match self.kinds.get(name.0 as usize) {
            Some(kind) => *kind,
            None => kind_of(self.all.as_slice(), name),
        }
    }

    /// Gives a name this type. Where memory runs out nothing changes.
    pub fn insert(&mut self, name: Name, kind: Name) -> Result<(), AllocError>
        ensures ok { OnOk result (self.new ≡ insert_entry name_cmp self.old name kind) }
        ensures err { OnErr result (self.new ≡ self.old) }
    {
        list_kinds(self.all.as_slice(), &mut self.kinds, name)?;
        put_in(&mut self.all, name, kind)?;
        write_kind(&mut self.kinds, name, Some(kind));
        Ok(())
    }

    /// Takes an instance out.
    pub fn remove(&mut self, name: Name)
        ensures { self.new ≡ filter (λ i. not (same_name name i.0)) self.old }
    {
        take_out(&mut self.all, name);
        write_kind(&mut self.kinds, name, None);
    }

    /// The instances with their types, in order.
    pub fn as_slice(&self) -> &[(Name, Name)]
        ensures { result.now ≡ self.now }
    {
        self.all.as_slice()
    }

    /// What the instances are without those that go, and then with those that come. None where nothing goes and nothing comes.
    pub fn patched(
        &self,
        goes: &[Name],
        comes: &[(Name, Name)],
    ) -> Result<Option<Instances>, AllocError>
        ensures { IfOk result (λ next. unwrap_or next self.now
            ≡ instances_after self.now goes.now comes.now) }
    {
        if goes.is_empty() && comes.is_empty() {
            return Ok(None);
        }
        let mut next = self.copy()?;
        next.remove_all(goes);
        next.insert_all(comes)?;
        Ok(Some(next))
    }

    /// Takes these instances out.
    fn remove_all(&mut self, names: &[Name])
        ensures { self.new ≡ fold without_instance self.old names.now }
    {
        for name in names {
            self.remove(*name);
        }
    }

    /// Gives these names their types, one after another. Where memory runs out some of the first may be there.
    fn insert_all(&mut self, instances: &[(Name, Name)]) -> Result<(), AllocError>
        ensures { OnOk result (self.new ≡ fold with_instance self.old instances.now) }
    {
        for (name, kind) in instances {
            self.insert(*name, *kind)?;
        }
        Ok(())
    }

    /// Whether they are the same.
    pub fn is_same(&self, other: &Instances) -> bool
        ensures { IsTrue result ↔ (self.now ≡ other.now) }
    {
        self.all == other.all
    }

    /// The instance at a place, with its type. None exactly where there are no more instances than that.
    pub fn nth(&self, i: usize) -> Option<(Name, Name)>
        ensures { result ≡ slice_get self.now i }
    {
        self.all.get(i).copied()
    }

    /// The instances with their types, in order. The only error is out of memory.
    pub fn list(&self, alloc: Global) -> Result<Vec<(Name, Name)>, AllocError>
        ensures { IfOk result (λ v. v.items ≡ self.now) }
    {
        let mut all = Vec::with_capacity(alloc, self.all.len())?;
        all.extend_from_slice(self.all.as_slice())?;
        Ok(all)
    }

    /// The instances whose type is this one or below it, in order. The only error is out of memory.
    pub fn list_below(
        &self,
        alloc: Global,
        expert: &Expert,
        kind: Name,
    ) -> Result<Vec<Name>, AllocError>
        ensures { IfOk result (λ v. v.items
            ≡ map (λ i. i.0) (filter (λ i. is_below expert.now i.1 kind) self.now)) }
    {
        let mut found = Vec::new(alloc);
        for (name, there) in self.all.as_slice() {
            if expert.is_subtype(*there, kind) {
                found.push(*name)?;
            }
        }
        Ok(found)
    }
}

/// The place of a name in a list that rises: how many names are below it.
fn place_of(all: &[(Name, Name)], name: Name) -> usize
    requires { IsStrictlySortedBy name_cmp (keys_of all.now) }
    ensures { result ≡ place_of name all.now }
{
    all.partition_point(|(there, _)| name.cmp(there).is_gt())
}

/// Whether the instance at a place has this name.
fn is_at(all: &[(Name, Name)], at: usize, name: Name) -> bool
    ensures { result ≡ is_named name (slice_get all.now at) }
{
    match all.get(at) {
        Some((there, _)) => name == *there,
        None => false,
    }
}

/// The type of a name in a list that rises. None exactly where the name isn't in it.
fn kind_of(all: &[(Name, Name)], name: Name) -> Option<Name>
    requires { IsStrictlySortedBy name_cmp (keys_of all.now) }
    ensures { result ≡ lookup (same_name name) all.now }
{
    let at = place_of(all, name);
    if is_at(all, at, name) {
        Some(all[at].1)
    } else {
        None
    }
}

/// Gives a name this type in a list that rises. Where memory runs out nothing changes.
fn put_in(all: &mut Vec<(Name, Name)>, name: Name, kind: Name) -> Result<(), AllocError>
    requires { IsStrictlySortedBy name_cmp (keys_of all.old.items) }
    ensures ok { OnOk result (all.new.items ≡ insert_entry name_cmp all.old.items name kind) }
    ensures err { OnErr result (all.new.items ≡ all.old.items) }
{
    let at = place_of(all.as_slice(), name);
    if is_at(all.as_slice(), at, name) {
        all[at] = (name, kind);
    } else {
        all.insert(at, (name, kind))?;
    }
    Ok(())
}

/// Takes a name out of a list that rises.
fn take_out(all: &mut Vec<(Name, Name)>, name: Name)
    requires { IsStrictlySortedBy name_cmp (keys_of all.old.items) }
    ensures { all.new.items ≡ filter (λ i. not (same_name name i.0)) all.old.items }
{
    let at = place_of(all.as_slice(), name);
    if is_at(all.as_slice(), at, name) {
        all.remove(at);
    }
}

/// Lists the types up to this name's, if its number is one of the lowest. Where memory runs out some may be listed.
fn list_kinds(
    all: &[(Name, Name)],
    kinds: &mut Vec<Option<Name>>,
    name: Name,
) -> Result<(), AllocError>
    requires { IsListed kinds.old.items all.now }
    ensures { IsListed kinds.new.items all.now }
{
    if name.0 >= MOST_KINDS {
        return Ok(());
    }
    for at in kinds.len()..name.0 as usize + 1 {
        kinds.push(kind_of(all, Name(at as u32)))?;
    }
    Ok(())
}

/// Writes the type that a name has now, if types are listed up to it.
fn write_kind(kinds: &mut Vec<Option<Name>>, name: Name, kind: Option<Name>)
    ensures { (old new : List (Name × Name)) → AreKinds kinds.old.items old
        → AreAfter name kind old new → AreKinds kinds.new.items new }
{
    let at = name.0 as usize;
    if at < kinds.len() {
        kinds[at] = kind;
    }
}
