//! What rules give: places that get set, each of which is to be looked at.
ghost use Rattle.std.specs.Prelude.{◌≡◌, ◌<◌, [], ◌∷◌, All, IfOk, OnOk, length};
ghost use Rattle.ps_closing.specs.Closing.{AreWithin, FitsIn, Gives, Grows};
ghost use Rattle.ps_closing.specs.Users.{AreSeen, AreUsersSeen, IsSeen, Queues};

use super::rule::{Rule, are_set, has_out, is_out};
use std::alloc::AllocError;

/// Sets a place, unless it is left out or was set. One that wasn't is to be looked at.
fn set(
    out: Option<usize>,
    flags: &mut [bool],
    queue: &mut Vec<usize>,
    place: usize,
) -> Result<(), AllocError>
    requires { place < length flags.old }
    ensures gives { OnOk result (Gives out (place ∷ []) flags.old flags.new) }
    ensures queues { OnOk result (Queues flags.old flags.new queue.old.items queue.new.items) }
{
    if is_out(out, place) || flags[place] {
        return Ok(());
    }
    queue.push(place)?;
    flags[place] = true;
    Ok(())
}

/// Sets these places, but for the one left out.
fn give(
    out: Option<usize>,
    flags: &mut [bool],
    queue: &mut Vec<usize>,
    places: &[usize],
) -> Result<(), AllocError>
    requires { AreWithin (length flags.old) places.now }
    ensures gives { OnOk result (Gives out places.now flags.old flags.new) }
    ensures queues { OnOk result (Queues flags.old flags.new queue.old.items queue.new.items) }
{
    for place in places {
        set(out, flags, queue, *place)?;
    }
    Ok(())
}

/// Sets what a rule gives, if it is usable.
fn apply(
    out: Option<usize>,
    flags: &mut [bool],
    queue: &mut Vec<usize>,
    rule: &Rule,
) -> Result<(), AllocError>
    requires { FitsIn (length flags.old) rule.now }
    ensures seen { OnOk result (IsSeen out flags.new queue.new.items rule.now) }
    ensures grows { OnOk result (Grows out (rule.now ∷ []) flags.old flags.new) }
    ensures queues { OnOk result (Queues flags.old flags.new queue.old.items queue.new.items) }
{
    if are_set(flags, &rule.needs) && !has_out(out, &rule.own) {
        give(out, flags, queue, &rule.gives)?;
        Ok(())
    } else {
        Ok(())
    }
}

/// Sets what each rule gives that is usable when its turn comes.
pub fn apply_all(
    out: Option<usize>,
    flags: &mut [bool],
    queue: &mut Vec<usize>,
    rules: &[Rule],
) -> Result<(), AllocError>
    requires { All (FitsIn (length flags.old)) rules.now }
    ensures seen { OnOk result (AreSeen out rules.now flags.new queue.new.items) }
    ensures grows { OnOk result (Grows out rules.now flags.old flags.new) }
{
    for rule in rules {
        apply(out, flags, queue, rule)?;
    }
    Ok(())
}

/// Sets what each of these users gives that is usable when its turn comes.
pub fn apply_users(
    out: Option<usize>,
    flags: &mut [bool],
    queue: &mut Vec<usize>,
    rules: &[Rule],
    users: &[usize],
) -> Result<(), AllocError>
    requires fits { All (FitsIn (length flags.old)) rules.now }
    requires within { AreWithin (length rules.now) users.now }
    ensures seen { OnOk result (AreUsersSeen out rules.now users.now flags.new queue.new.items) }
    ensures grows { OnOk result (Grows out rules.now flags.old flags.new) }
    ensures queues { OnOk result (Queues flags.old flags.new queue.old.items queue.new.items) }
{
    for user in users {
        apply(out, flags, queue, &rules[*user])?;
    }
    Ok(())
}
