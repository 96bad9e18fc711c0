//! The parts of conditions.
ghost use Rattle.std.specs.Prelude.{◌≡◌, option_map};
ghost use Rattle.std.specs.Option.{option_copied};
ghost use Rattle.ps_world.specs.CondViews.{cond_tree};
ghost use Rattle.ps_places.specs.Parts.{first_false, first_false_of};

use ps_action::{Known, Types, is_true};
use ps_world::{Cond, Conds};

/// The first part of a condition that is false: the parts are those of its `and`s, in their order, and any other form is one part. None exactly
/// where the condition holds. It takes no memory.
#[cycle(parts)]
pub fn first_false<'a, K: Known, T: Types>(known: &K, types: &T, cond: &'a Cond) -> Option<&'a Cond>
    ensures { option_map cond_tree (option_copied result)
        ≡ first_false (T.types types.now) (K.known known.now) (cond_tree cond.now) }
{
    match cond {
        Cond::And(parts) => first_false_of(known, types, parts),
        part if is_true(known, types, part) => None,
        part => Some(part),
    }
}

/// The first part of these conditions that is false. None exactly where each of them holds. It takes no memory.
#[cycle(parts)]
pub fn first_false_of<'a, K: Known, T: Types>(
    known: &K,
    types: &T,
    conds: &'a Conds,
) -> Option<&'a Cond>
    ensures { option_map cond_tree (option_copied result)
        ≡ first_false_of (T.types types.now) (K.known known.now) conds.now }
{
    for cond in conds.as_slice() {
        let found = first_false(known, types, cond);
        if found.is_some() {
            return found;
        }
    }
    None
}
