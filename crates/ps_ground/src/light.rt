//! Ground actions without the conditions that hold in every state.
ghost use Rattle.std.specs.Prelude.{◌≡◌, true, IfOk, OnOk};
ghost use Rattle.ps_world.specs.CondViews.{cond_tree};
ghost use Rattle.ps_action.specs.Truth.{all_true, is_true};
ghost use Rattle.ps_ground.specs.States.{State, at};
ghost use Rattle.ps_ground.specs.Moves.{Node, move};
ghost use Rattle.ps_ground.specs.Atoms.{adds};

use ps_action::{GroundAction, Known, Types, is_true};
use ps_world::{Cond, Conds, Duplicate};
use std::alloc::{AllocError, Global};

/// Whether a condition holds in every state, since it says of an instance that it has its type.
fn is_settled<K: Known, T: Types>(given: &K, types: &T, cond: &Cond) -> bool
    ensures { result ≡ true → (s : State)
        → is_true (T.types types.now) (at (K.known given.now) s) (cond_tree cond.now) ≡ true }
{
    match cond {
        Cond::IsA(..) => is_true(given, types, cond),
        _ => false,
    }
}

/// Conditions without those that hold in every state.
fn lighter<K: Known, T: Types>(
    alloc: Global,
    given: &K,
    types: &T,
    conds: &Conds,
) -> Result<Conds, AllocError>
    ensures { IfOk result (λ light. (s : State)
        → all_true (T.types types.now) (at (K.known given.now) s) light
        ≡ all_true (T.types types.now) (at (K.known given.now) s) conds.now) }
{
    let mut light = Conds::new(alloc);
    for cond in conds.as_slice() {
        if !is_settled(given, types, cond) {
            light.push(cond.copy(alloc)?)?;
        }
    }
    Ok(light)
}

/// Takes those that hold in every state out of conditions.
fn lighten_conds<K: Known, T: Types>(
    alloc: Global,
    given: &K,
    types: &T,
    conds: &mut Conds,
) -> Result<(), AllocError>
    ensures { OnOk result ((s : State)
        → all_true (T.types types.now) (at (K.known given.now) s) conds.new
        ≡ all_true (T.types types.now) (at (K.known given.now) s) conds.old) }
{
    *conds = lighter(alloc, given, types, conds)?;
    Ok(())
}

/// Takes the conditions that hold in every state out of a ground action, so that it leads to the same nodes.
pub fn lighten<K: Known, T: Types>(
    alloc: Global,
    given: &K,
    types: &T,
    action: &mut GroundAction,
) -> Result<(), AllocError>
    ensures moves { OnOk result ((n : Node)
        → move (T.types types.now) (K.known given.now) n action.new
        ≡ move (T.types types.now) (K.known given.now) n action.old) }
    ensures adds { OnOk result (adds (T.types types.now) (K.known given.now) action.new
        ≡ adds (T.types types.now) (K.known given.now) action.old) }
{
    lighten_conds(alloc, given, types, &mut action.conditions.at_start)?;
    lighten_conds(alloc, given, types, &mut action.conditions.over_all)?;
    lighten_conds(alloc, given, types, &mut action.conditions.at_end)?;
    Ok(())
}
