//! The names that may stand for a parameter. Those for each type are found once.
ghost use Rattle.std.specs.Prelude.{◌≡◌, IfOk};
ghost use Rattle.ps_action.specs.Grounding.{by_name};
ghost use Rattle.ps_domain.specs.Listing.{choices_in, AreChoices};

use super::expert::Expert;
use ps_world::{Duplicate, Name, Param, Seq};
use std::alloc::{AllocError, Global};
use std::collections::BTreeMap;

/// The instances in the order of their names. One that stands twice has the type of its last place.
pub fn by_name(
    alloc: Global,
    instances: &[(Name, Name)],
) -> Result<BTreeMap<Name, Name>, AllocError>
    ensures { IfOk result (λ sorted. sorted.entries ≡ by_name instances.now) }
{
    let mut sorted = BTreeMap::new(alloc);
    for (name, kind) in instances {
        sorted.insert(*name, *kind)?;
    }
    Ok(sorted)
}

/// The names that may stand for a parameter, rising.
fn choices(
    alloc: Global,
    expert: &Expert,
    sorted: &BTreeMap<Name, Name>,
    param: &Param,
) -> Result<Seq<Name>, AllocError>
    ensures { IfOk result (λ names. names ≡ choices_in expert.now sorted.now.entries param.now) }
{
    let mut names = Seq::new(alloc);
    for (name, kind) in sorted {
        if expert.is_subtype(*kind, param.kind) {
            names.push(*name)?;
        }
    }
    Ok(names)
}

/// Keeps the names that may stand for a parameter under its type, unless they are kept already.
fn learn(
    alloc: Global,
    expert: &Expert,
    sorted: &BTreeMap<Name, Name>,
    param: &Param,
    known: &mut BTreeMap<Name, Seq<Name>>,
) -> Result<(), AllocError>
    requires { AreChoices expert.now sorted.now.entries known.old.entries }
    ensures { AreChoices expert.now sorted.now.entries known.new.entries }
{
    if !known.contains_key(&param.kind) {
        let names = choices(alloc, expert, sorted, param)?;
        known.insert(param.kind, names)?;
    }
    Ok(())
}

/// Keeps the names that may stand for a parameter of any action.
fn learn_all(
    alloc: Global,
    expert: &Expert,
    sorted: &BTreeMap<Name, Name>,
    known: &mut BTreeMap<Name, Seq<Name>>,
) -> Result<(), AllocError>
    requires { AreChoices expert.now sorted.now.entries known.old.entries }
    ensures { AreChoices expert.now sorted.now.entries known.new.entries }
{
    for action in expert.domain().actions.as_slice() {
        for param in action.params.as_slice() {
            learn(alloc, expert, sorted, param, known)?;
        }
    }
    Ok(())
}

/// The names that may stand for a parameter of each type, as far as there is memory for them.
pub fn known_choices(expert: &Expert, instances: &[(Name, Name)]) -> BTreeMap<Name, Seq<Name>>
    ensures { AreChoices expert.now (by_name instances.now) result.entries }
{
    let mut known = BTreeMap::new(expert.alloc);
    if let Ok(sorted) = by_name(expert.alloc, instances) {
        // Where memory ran out fewer types are known, which is just as right.
        let _learned = learn_all(expert.alloc, expert, &sorted, &mut known).is_ok();
    }
    known
}

/// The names that may stand for a parameter, rising, from those that are known where its type is among them.
pub fn choices_of(
    alloc: Global,
    expert: &Expert,
    sorted: &BTreeMap<Name, Name>,
    known: &BTreeMap<Name, Seq<Name>>,
    param: &Param,
) -> Result<Seq<Name>, AllocError>
    requires { AreChoices expert.now sorted.now.entries known.now.entries }
    ensures { IfOk result (λ names. names ≡ choices_in expert.now sorted.now.entries param.now) }
{
    match known.get(&param.kind) {
        Some(names) => names.copy(alloc),
        None => choices(alloc, expert, sorted, param),
    }
}
