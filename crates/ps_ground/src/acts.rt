//! The acts of a search: all that can be grounded and may lead anywhere, in the order of the domain's text and of their arguments.
ghost use Rattle.std.specs.Prelude.{◌≡◌, ◌+◌, ◌++◌, ◌<◌, ◌≤◌, [], ◌∷◌, List, length, map, min, true, IfOk, IfSome, IsSome, MatchOption, OnOk};
ghost use Rattle.ps_world.specs.declared.names.Name.{Name as NameView};
ghost use Rattle.ps_action.specs.Grounding.{all_ground, by_name, most_ground, picks};
ghost use Rattle.ps_action.specs.declared.acts.Act.{Act as ActView};
ghost use Rattle.ps_domain.specs.Listing.{choices_in};
ghost use Rattle.ps_ground.specs.Acts.{act_with, acts_with};
ghost use Rattle.ps_ground.specs.Fitting.{AreFirstInstances};
ghost use Rattle.ps_ground.specs.Thinned.{GoesOn, IsThinned, IsUseless, IsUselessFrom};

use super::fixed::Fixed;
use ps_action::Act;
use ps_domain::{Expert, MOST_GROUND};
use ps_world::{ActionDef, Args, MOST_ARGUMENTS, Name, Param, Seq};
use std::alloc::{AllocError, Global};
use std::collections::BTreeMap;

/// Where the count of an action's acts stops.
const ENOUGH: usize = 50_001;

/// Whether the names of instances rise, so that they stand in their order, and each once.
pub fn rise(instances: &[(Name, Name)]) -> bool
    ensures order { result ≡ true → by_name instances.now ≡ instances.now }
    ensures first { result ≡ true → AreFirstInstances instances.now }
{
    // All names before are below this number.
    let mut bound: u32 = 0;
    for (name, _) in instances {
        if name.0 < bound || name.0 == u32::MAX {
            return false;
        }
        bound = name.0 + 1;
    }
    true
}

/// The instances in the order of their names, put in one after another.
fn put_by_name(
    alloc: Global,
    instances: &[(Name, Name)],
) -> Result<BTreeMap<Name, Name>, AllocError>
    ensures { IfOk result (λ sorted. sorted.entries ≡ by_name instances.now) }
{
    let mut sorted = BTreeMap::new(alloc);
    for (name, kind) in instances {
        sorted.insert(*name, *kind)?;
    }
    Ok(sorted)
}

/// The instances in the order of their names. One that stands twice has the type of its last place.
fn by_name(alloc: Global, instances: &[(Name, Name)]) -> Result<Vec<(Name, Name)>, AllocError>
    ensures { IfOk result (λ sorted. sorted.items ≡ by_name instances.now) }
{
    // Mostly they rise already.
    if rise(instances) {
        return Vec::from_slice(alloc, instances);
    }
    let mut sorted = Vec::new(alloc);
    for (name, kind) in &put_by_name(alloc, instances)? {
        sorted.push((*name, *kind))?;
    }
    Ok(sorted)
}

/// The names that may stand for a parameter, rising.
fn choices(
    alloc: Global,
    expert: &Expert,
    sorted: &[(Name, Name)],
    param: &Param,
) -> Result<Seq<Name>, AllocError>
    ensures { IfOk result (λ names. names ≡ choices_in expert.now sorted.now param.now) }
{
    let mut names = Seq::new(alloc);
    // Mostly many in a row have one type.
    let mut last = param.kind;
    let mut may_stand = expert.is_subtype(last, param.kind);
    for (name, kind) in sorted {
        if *kind != last {
            last = *kind;
            may_stand = expert.is_subtype(last, param.kind);
        }
        if may_stand {
            names.push(*name)?;
        }
    }
    Ok(names)
}

/// The names that may stand for each parameter.
fn all_choices(
    alloc: Global,
    expert: &Expert,
    sorted: &[(Name, Name)],
    params: &[Param],
) -> Result<Vec<Seq<Name>>, AllocError>
    ensures { IfOk result (λ all. all.items
        ≡ map (choices_in expert.now sorted.now) params.now) }
{
    let mut all = Vec::new(alloc);
    for param in params {
        all.push(choices(alloc, expert, sorted, param)?)?;
    }
    Ok(all)
}

/// How many lists of arguments there are with one of each choice, or 50,001 where there are more.
fn pick_count(choices: &[Seq<Name>]) -> usize
    ensures { result ≡ min ENOUGH (length (picks choices.now)) }
{
    let mut count = 1;
    for names in choices {
        count = usize::saturating_mul(count, names.len()).min(ENOUGH);
    }
    count
}

/// Makes the names these, then this one, and then those.
fn lay_out(
    args: &mut Vec<Name>,
    before: &[Name],
    name: Name,
    tail: &[Name],
) -> Result<(), AllocError>
    ensures { OnOk result (args.new.items ≡ before.now ++ name ∷ tail.now) }
{
    args.clear();
    args.extend_from_slice(before)?;
    args.push(name)?;
    args.extend_from_slice(tail)
}

/// These names, and one more.
fn with_one(alloc: Global, names: &[Name], name: Name) -> Result<Vec<Name>, AllocError>
    ensures { IfOk result (λ more. more.items ≡ names.now ++ name ∷ []) }
{
    let mut more = Vec::with_capacity(alloc, names.len() + 1)?;
    more.extend_from_slice(names)?;
    more.push(name)?;
    Ok(more)
}

/// The arguments with this name and then those. None where they are too many.
fn longer(name: Name, tail: &[Name]) -> Option<Args>
    ensures { IfSome result (λ args. args ≡ name ∷ tail.now) }
{
    if tail.len() >= MOST_ARGUMENTS {
        return None;
    }
    let count = tail.len() + 1;
    let mut names = [name; MOST_ARGUMENTS];
    names[1..count].copy_from_slice(tail);
    Args::of(&names[..count])
}

/// An action whose acts are listed, and the facts by which many of them lead nowhere.
#[derive(Clone, Copy)]
struct Listing<'a> {
    expert: &'a Expert,
    fixed: &'a Fixed,
    action: Name,
}

impl<'a> Listing<'a> {
    /// Adds the list of arguments with this name and then those, unless it leads nowhere, whatever the arguments before it. Conditions
    /// are only looked at where they are asked.
    fn push_one(
        &self,
        is_asked: bool,
        before: &[Name],
        name: Name,
        tail: &[Name],
        args: &mut Vec<Name>,
        kept: &mut Vec<Args>,
    ) -> Result<(), AllocError>
        ensures { OnOk result ((left : List (List NameView)) (whole : List (List NameView))
            → GoesOn (IsUselessFrom self.now.expert.now self.now.fixed.now.heads.keys
            self.now.fixed.now.facts self.now.action (length before.now))
            ((name ∷ tail.now) ∷ left) whole kept.old.items
            → GoesOn (IsUselessFrom self.now.expert.now self.now.fixed.now.heads.keys
            self.now.fixed.now.facts self.now.action (length before.now))
            left whole kept.new.items) }
    {
        if !is_asked {
            // Mostly so, and then nothing has to be looked up.
            if let Some(list) = longer(name, tail) {
                kept.push(list)?;
                return Ok(());
            }
        }
        lay_out(args, before, name, tail)?;
        if self.fixed.is_useless(self.expert, self.action, is_asked, before, args.as_slice()) {
            return Ok(());
        }
        let (_, list) = args.as_slice().split_at(before.len());
        let Some(list) = Args::of(list) else {
            unreachable!()
        };
        kept.push(list)?;
        Ok(())
    }

    /// Adds the lists of arguments with this name and then one of those lists.
    fn push_each(
        &self,
        is_asked: bool,
        before: &[Name],
        name: Name,
        tails: &[Args],
        args: &mut Vec<Name>,
        kept: &mut Vec<Args>,
    ) -> Result<(), AllocError>
        ensures { OnOk result ((left : List (List NameView)) (whole : List (List NameView))
            → GoesOn (IsUselessFrom self.now.expert.now self.now.fixed.now.heads.keys
            self.now.fixed.now.facts self.now.action (length before.now))
            (map (λ args. name ∷ args) tails.now ++ left) whole kept.old.items
            → GoesOn (IsUselessFrom self.now.expert.now self.now.fixed.now.heads.keys
            self.now.fixed.now.facts self.now.action (length before.now))
            left whole kept.new.items) }
    {
        for tail in tails {
            self.push_one(is_asked, before, name, tail.as_slice(), args, kept)?;
        }
        Ok(())
    }

    /// The lists of arguments with one of each choice, in their order, without those that lead nowhere, whatever the arguments
    /// before them, for which these stand.
    fn lists(
        &self,
        alloc: Global,
        before: &[Name],
        choices: &[Seq<Name>],
    ) -> Result<Vec<Args>, AllocError>
        ensures { IfOk result (λ kept. IsThinned (IsUselessFrom self.now.expert.now
            self.now.fixed.now.heads.keys self.now.fixed.now.facts self.now.action
            (length before.now)) kept.items (picks choices.now)) }
    {
        let mut kept = Vec::new(alloc);
        let Some((names, rest)) = choices.split_first() else {
            let Some(none) = Args::of(&[]) else {
                unreachable!()
            };
            kept.push(none)?;
            return Ok(kept);
        };
        let longer = with_one(alloc, before, Name::OBJECT)?;
        let tails = self.lists(alloc, longer.as_slice(), rest)?;
        let is_asked = self.fixed.has_asked(self.expert, self.action, before.len());
        let mut args = Vec::new(alloc);
        for name in names.as_slice() {
            self.push_each(
                is_asked,
                before,
                *name,
                tails.as_slice(),
                &mut args,
                &mut kept,
            )?;
        }
        Ok(kept)
    }
}

/// Adds the acts of an action with these lists of arguments.
fn push_with(action: &ActionDef, lists: &[Args], all: &mut Vec<Act>) -> Result<(), AllocError>
    ensures { OnOk result (all.new.items ≡ all.old.items ++ map (act_with action.now) lists.now) }
{
    all.reserve(lists.len())?;
    for args in lists {
        all.push(Act {
            action: action.name,
            args: *args,
        })?;
    }
    Ok(())
}

/// Adds the acts of an action from the choices for its parameters, of which there are so many lists of arguments, without acts that
/// lead nowhere.
fn push_counted(
    alloc: Global,
    expert: &Expert,
    fixed: &Fixed,
    action: &ActionDef,
    choices: &[Seq<Name>],
    count: usize,
    all: &mut Vec<Act>,
) -> Result<(), AllocError>
    requires { count ≡ min ENOUGH (length (picks choices.now)) }
    ensures { OnOk result ((left : List ActView) (whole : List ActView)
        → GoesOn (IsUseless expert.now fixed.now.heads.keys fixed.now.facts)
        (map (act_with action.now) (picks choices.now) ++ left) whole all.old.items
        → GoesOn (IsUseless expert.now fixed.now.heads.keys fixed.now.facts)
        left whole all.new.items) }
{
    // An earlier parameter's choices would be tried in vain.
    if count == 0 {
        return Ok(());
    }
    let listing = Listing {
        expert,
        fixed,
        action: action.name,
    };
    let lists = listing.lists(alloc, &[], choices)?;
    push_with(action, lists.as_slice(), all)?;
    Ok(())
}

/// Adds the acts of an action, without acts that lead nowhere, and answers how many were counted with them before some were left out;
/// or None where those are more than 50,000.
fn push_all_of(
    alloc: Global,
    expert: &Expert,
    fixed: &Fixed,
    sorted: &[(Name, Name)],
    action: &ActionDef,
    counted: usize,
    all: &mut Vec<Act>,
) -> Result<Option<usize>, AllocError>
    requires { counted ≤ most_ground }
    ensures thinned { IfOk result (λ sum. IsSome sum
        → (left : List ActView) (whole : List ActView)
        → GoesOn (IsUseless expert.now fixed.now.heads.keys fixed.now.facts)
        (acts_with expert.now sorted.now action.now ++ left) whole all.old.items
        → GoesOn (IsUseless expert.now fixed.now.heads.keys fixed.now.facts)
        left whole all.new.items) }
    ensures count { IfOk result (λ sum. MatchOption sum
        (most_ground < counted + length (acts_with expert.now sorted.now action.now))
        (λ n. (n ≤ most_ground)
        × (n ≡ counted + length (acts_with expert.now sorted.now action.now)))) }
{
    let choices = all_choices(alloc, expert, sorted, action.params.as_slice())?;
    let count = pick_count(choices.as_slice());
    if counted + count > MOST_GROUND {
        return Ok(None);
    }
    push_counted(alloc, expert, fixed, action, choices.as_slice(), count, all)?;
    Ok(Some(counted + count))
}

/// The acts that can be grounded among these instances, by the order of the domain's text, and of each action by the names of the
/// arguments, without acts that lead nowhere. None exactly where there are more than 50,000 with those, which is found before those
/// of the action that passes it are made.
pub fn all_acts(
    alloc: Global,
    expert: &Expert,
    fixed: &Fixed,
    instances: &[(Name, Name)],
) -> Result<Option<Vec<Act>>, AllocError>
    ensures { IfOk result (λ acts. MatchOption acts
        (most_ground < length (all_ground expert.now instances.now)) (λ v.
        (IsThinned (IsUseless expert.now fixed.now.heads.keys fixed.now.facts) v.items
        (map (λ g. g.act) (all_ground expert.now instances.now)))
        × (length (all_ground expert.now instances.now) ≤ most_ground))) }
{
    let sorted = by_name(alloc, instances)?;
    let sorted = sorted.as_slice();
    let mut all = Vec::new(alloc);
    let mut counted = 0;
    for action in expert.domain().actions.as_slice() {
        let Some(sum) = push_all_of(alloc, expert, fixed, sorted, action, counted, &mut all)? else {
            return Ok(None);
        };
        counted = sum;
    }
    Ok(Some(all))
}
