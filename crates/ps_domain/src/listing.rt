//! All ground actions, in the order of the domain's text and of their arguments.
ghost use Rattle.std.specs.Prelude.{◌≡◌, ◌==◌, ◌+◌, ◌++◌, [], ◌∷◌, length, map, IfOk, OnOk};
ghost use Rattle.std.specs.List.{list_any};
ghost use Rattle.ps_action.specs.Grounding.{by_name, picks, all_ground};
ghost use Rattle.ps_domain.specs.Grounding.{GroundsAll};
ghost use Rattle.ps_domain.specs.Listing.{choices_in, AreChoices, ground_with, ground_from, all_with};

use super::choosing::{by_name, choices_of, known_choices};
use super::counting::too_many;
use super::expert::Expert;
use super::grounding::grounded;
use super::refusals::GroundAllRefusal;
use ps_action::{Act, GroundAction};
use ps_world::{ActionDef, Args, Failure, Name, Param, Seq};
use std::alloc::{AllocError, Global};
use std::collections::BTreeMap;

/// The names that may stand for each parameter.
fn all_choices(
    alloc: Global,
    expert: &Expert,
    sorted: &BTreeMap<Name, Name>,
    known: &BTreeMap<Name, Seq<Name>>,
    params: &[Param],
) -> Result<Vec<Seq<Name>>, AllocError>
    requires { AreChoices expert.now sorted.now.entries known.now.entries }
    ensures { IfOk result (λ all. all.items
        ≡ map (choices_in expert.now sorted.now.entries) params.now) }
{
    let mut all = Vec::new(alloc);
    for param in params {
        all.push(choices_of(alloc, expert, sorted, known, param)?)?;
    }
    Ok(all)
}

/// Adds the ground action with these arguments.
fn push_one(
    alloc: Global,
    action: &ActionDef,
    args: &[Name],
    all: &mut Vec<GroundAction>,
) -> Result<(), AllocError>
    requires { length action.now.params ≡ length args.now }
    ensures { OnOk result (all.new.items ≡ all.old.items ++ ground_with action.now args.now ∷ []) }
{
    // Parameters say of their length that they are few, and so are the arguments.
    let _count = action.params.len();
    let Some(args) = Args::of(args) else {
        unreachable!()
    };
    let act = Act {
        action: action.name,
        args,
    };
    all.push(grounded(alloc, action, &act)?)?;
    Ok(())
}

/// Adds the ground action of each list of arguments that begins with the first ones and goes on with one of each choice.
fn push_picks(
    alloc: Global,
    action: &ActionDef,
    first: &mut Vec<Name>,
    choices: &[Seq<Name>],
    all: &mut Vec<GroundAction>,
) -> Result<(), AllocError>
    requires { length action.now.params ≡ length first.old.items + length choices.now }
    ensures first { OnOk result (first.new.items ≡ first.old.items) }
    ensures all { OnOk result (all.new.items ≡ all.old.items
        ++ ground_from action.now first.old.items (picks choices.now)) }
{
    let Some((names, rest)) = choices.split_first() else {
        return push_one(alloc, action, first.as_slice(), all);
    };
    for name in names.as_slice() {
        first.push(*name)?;
        push_picks(alloc, action, first, rest, all)?;
        first.pop();
    }
    Ok(())
}

/// Whether one of the choices is empty.
fn has_empty(choices: &[Seq<Name>]) -> bool
    ensures { result ≡ list_any (λ names. length names == 0) choices.now }
{
    choices.iter().any(|names| names.is_empty())
}

/// Adds all ground actions of an action.
fn push_all_of(
    alloc: Global,
    expert: &Expert,
    sorted: &BTreeMap<Name, Name>,
    known: &BTreeMap<Name, Seq<Name>>,
    action: &ActionDef,
    all: &mut Vec<GroundAction>,
) -> Result<(), AllocError>
    requires { AreChoices expert.now sorted.now.entries known.now.entries }
    ensures { OnOk result (all.new.items ≡ all.old.items
        ++ all_with expert.now sorted.now.entries action.now) }
{
    let choices = all_choices(alloc, expert, sorted, known, action.params.as_slice())?;
    // An earlier parameter's choices would be tried in vain.
    if has_empty(choices.as_slice()) {
        return Ok(());
    }
    let mut first = Vec::with_capacity(alloc, action.params.len())?;
    push_picks(alloc, action, &mut first, choices.as_slice(), all)
}

fn all_ground(
    alloc: Global,
    expert: &Expert,
    instances: &[(Name, Name)],
    known: &BTreeMap<Name, Seq<Name>>,
) -> Result<Vec<GroundAction>, AllocError>
    requires { AreChoices expert.now (by_name instances.now) known.now.entries }
    ensures { IfOk result (λ all. all.items ≡ all_ground expert.now instances.now) }
{
    let sorted = by_name(alloc, instances)?;
    let mut all = Vec::new(alloc);
    for action in expert.domain().actions.as_slice() {
        push_all_of(alloc, expert, &sorted, known, action, &mut all)?;
    }
    Ok(all)
}

impl Expert {
    /// All ground actions among these instances: the actions in the order of the domain's text, and the arguments of each
    /// in the order of their names. An instance that stands twice has the type of its last place.
    ///
    /// `TooMany` where there are more than 50,000, which is found before any is made.
    pub fn ground_all(
        &self,
        instances: &[(Name, Name)],
    ) -> Result<Vec<GroundAction>, Failure<GroundAllRefusal>>
        ensures { GroundsAll self.now instances.now result }
    {
        let known = known_choices(self, instances);
        if too_many(self, instances, &known) {
            return Err(Failure::Refused(GroundAllRefusal::TooMany));
        }
        Ok(all_ground(self.alloc, self, instances, &known)?)
    }
}
