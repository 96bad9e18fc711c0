//! Which facts name which names.
ghost use Rattle.std.specs.Prelude.{◌≡◌, ◌≢◌, ◌<◌, List, length, All, IfSome, IfNone, IfOk, OnOk};
ghost use Rattle.std.specs.List.{Contains};
ghost use Rattle.std.specs.List.Sorted.{IsStrictlySortedBy};
ghost use Rattle.std.specs.BTreeSet.{insert_key};
ghost use Rattle.ps_world.specs.Facts.{fact_cmp};
ghost use Rattle.ps_world.specs.declared.facts.Fact.{Fact};
ghost use Rattle.ps_problem.specs.Namings.{IsNaming, IsNoted, Covers, AreNamed, lowest_of as lowest, lowest_with, naming_cmp, noted_with};
ghost use Rattle.ps_problem.specs.declared.problem.namings.Naming.{Naming};

use ps_world::{Args, Fact, Name};
use std::alloc::{AllocError, Global};
use std::collections::BTreeSet;

/// An argument of a fact, and the fact.
#[derive(Clone, Copy, PartialEq, Eq, PartialOrd, Ord)]
pub struct Naming {
    pub name: Name,
    pub fact: Fact,
}

/// Notes each argument of a fact with it. Where memory runs out some may be noted.
pub fn note(namings: &mut BTreeSet<Naming>, fact: &Fact) -> Result<(), AllocError>
    ensures noted { OnOk result (Covers namings.new.keys fact.now) }
    ensures kept { (x : Naming) → Contains namings.old.keys x → Contains namings.new.keys x }
    ensures sound { All IsNaming namings.old.keys → All IsNaming namings.new.keys }
{
    for name in fact.args.as_slice() {
        namings.insert(Naming {
            name: *name,
            fact: *fact,
        })?;
    }
    Ok(())
}

/// Notes one more fact where notes are taken. Where memory runs out some of its arguments may be noted.
pub fn note_where_taken(taken: &mut Option<BTreeSet<Naming>>, fact: &Fact) -> Result<(), AllocError>
    ensures more { OnOk result ((facts : List Fact)
        → IfSome taken.old (λ s. AreNamed facts s.keys)
        → IfSome taken.new (λ s. AreNamed (insert_key fact_cmp facts fact.now) s.keys)) }
    ensures same { (facts : List Fact)
        → IfSome taken.old (λ s. AreNamed facts s.keys)
        → IfSome taken.new (λ s. AreNamed facts s.keys) }
{
    match taken {
        None => Ok(()),
        Some(namings) => note(namings, fact),
    }
}

/// Takes out a note of this name, and answers its fact. None exactly where the name is noted with no fact.
pub fn take_naming(namings: &mut BTreeSet<Naming>, name: Name) -> Option<Fact>
    ensures none { IfNone result ((f : Fact) → IsNoted namings.old.keys name f → ⊥) }
    ensures same { IfNone result (namings.new.keys ≡ namings.old.keys) }
    ensures there { IfSome result (λ f. IsNoted namings.old.keys name f) }
    ensures kept { IfSome result (λ f. (x : Naming) → (x.fact ≢ f)
        → Contains namings.old.keys x → Contains namings.new.keys x) }
    ensures falls { IfSome result (λ f. length namings.new.keys < length namings.old.keys) }
    ensures sound { All IsNaming namings.old.keys → All IsNaming namings.new.keys }
{
    let found = first_naming(namings, name)?;
    namings.remove(&found);
    Some(found.fact)
}

/// The first note of this name. None exactly where there is none.
fn first_naming(namings: &BTreeSet<Naming>, name: Name) -> Option<Naming>
    ensures none { IfNone result ((f : Fact) → IsNoted namings.now.keys name f → ⊥) }
    ensures name { IfSome result (λ x. x.name ≡ name) }
    ensures there { IfSome result (λ x. Contains namings.now.keys x) }
{
    let lowest = Naming {
        name,
        fact: lowest_of(Name(0)),
    };
    let found = *namings.range(lowest..).next()?;
    if found.name == name {
        Some(found)
    } else {
        None
    }
}

/// The facts that this name is noted with, in their order. Some may be known no more.
pub fn noted_with(
    alloc: Global,
    namings: &BTreeSet<Naming>,
    name: Name,
) -> Result<Vec<Fact>, AllocError>
    ensures noted { IfOk result (λ v. v.items ≡ noted_with name namings.now.keys) }
    ensures rise { OnOk result (IsStrictlySortedBy naming_cmp namings.now.keys) }
{
    // A set says of its length that its items rise.
    let _count = namings.len();
    let mut found = Vec::new(alloc);
    // They stand together, from the lowest of them on.
    for naming in namings.range(lowest_with(name)..) {
        if name != naming.name {
            return Ok(found);
        }
        found.push(naming.fact)?;
    }
    Ok(found)
}

/// The note that stands before all others with this name.
fn lowest_with(name: Name) -> Naming
    ensures { result ≡ lowest_with name }
{
    Naming {
        name,
        fact: lowest_of(Name(0)),
    }
}

/// The fact that stands before all others with this head.
pub fn lowest_of(head: Name) -> Fact
    ensures { result ≡ lowest head }
{
    match Args::of(&[]) {
        Some(args) => Fact { head, args },
        None => unreachable!(),
    }
}
