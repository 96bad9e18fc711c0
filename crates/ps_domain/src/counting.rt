//! How many ground actions there are, counted before any is made. It takes no memory, and is quick where the choices are known.
ghost use Rattle.std.specs.Prelude.{◌≡◌, length, map, min, nat_lt};
ghost use Rattle.std.specs.List.{list_any};
ghost use Rattle.ps_world.specs.Names.{same_name};
ghost use Rattle.ps_action.specs.Grounding.{by_name, choices, picks, all_ground, most_ground};
ghost use Rattle.ps_domain.specs.Listing.{AreChoices};

use super::expert::Expert;
use ps_world::{Name, Param, Seq};
use std::collections::BTreeMap;

/// The most ground actions.
pub const MOST_GROUND: usize = 50_000;

/// Where the count of an action's ground actions stops.
const ENOUGH: usize = 50_001;

/// Whether one of these instances has the name.
fn is_named(instances: &[(Name, Name)], name: Name) -> bool
    ensures { result ≡ list_any (λ i. same_name name i.0) instances.now }
{
    instances.iter().any(|i| name == i.0)
}

/// How many names may stand for a parameter. An instance that stands twice has the type of its last place.
fn choice_count(expert: &Expert, instances: &[(Name, Name)], param: &Param) -> usize
    ensures { result ≡ length (choices expert.now instances.now param.now) }
{
    let mut count = 0;
    for at in 0..instances.len() {
        let (name, kind) = instances[at];
        if expert.is_subtype(kind, param.kind) && !is_named(&instances[at + 1..], name) {
            count += 1;
        }
    }
    count
}

/// How many names may stand for a parameter, from those that are known where its type is among them.
fn known_count(
    expert: &Expert,
    instances: &[(Name, Name)],
    known: &BTreeMap<Name, Seq<Name>>,
    param: &Param,
) -> usize
    requires { AreChoices expert.now (by_name instances.now) known.now.entries }
    ensures { result ≡ length (choices expert.now instances.now param.now) }
{
    match known.get(&param.kind) {
        Some(names) => names.len(),
        None => choice_count(expert, instances, param),
    }
}

/// How many lists of arguments these parameters have, or 50,001 where they have more.
fn pick_count(
    expert: &Expert,
    instances: &[(Name, Name)],
    known: &BTreeMap<Name, Seq<Name>>,
    params: &[Param],
) -> usize
    requires { AreChoices expert.now (by_name instances.now) known.now.entries }
    ensures { result ≡ min ENOUGH
        (length (picks (map (choices expert.now instances.now) params.now))) }
{
    let mut count = 1;
    for param in params {
        let choices = known_count(expert, instances, known, param);
        count = usize::saturating_mul(count, choices).min(ENOUGH);
    }
    count
}

/// Whether there are more ground actions than may be listed.
pub fn too_many(
    expert: &Expert,
    instances: &[(Name, Name)],
    known: &BTreeMap<Name, Seq<Name>>,
) -> bool
    requires { AreChoices expert.now (by_name instances.now) known.now.entries }
    ensures { result ≡ nat_lt most_ground (length (all_ground expert.now instances.now)) }
{
    let mut count = 0;
    for action in expert.domain().actions.as_slice() {
        count += pick_count(expert, instances, known, action.params.as_slice());
        if count > MOST_GROUND {
            return true;
        }
    }
    false
}
