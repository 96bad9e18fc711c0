//! A goal, which many hold and nobody changes.
ghost use Rattle.std.specs.Prelude.{◌≡◌, IfOk};

use super::conditions::Cond;
use super::lists::Duplicate;
use std::alloc::{AllocError, Global};
use std::marker::Model;
use std::sync::Arc;

/// A goal. A long one takes its room once, however many hold it: the line that sets it, the entry that tells so, and what is known.
/// Contracts see it as its condition.
#[derive(Drop)]
pub struct Goal {
    cond: Arc<Cond>,
}

impl Model for Goal {
    ghost use Rattle.ps_world.specs.declared.conditions.Cond.{Cond};
    ghost use Rattle.ps_world.specs.contracts.conditions.Cond.{the_row};

    ghost Value = { Cond };

    ghost coded = { the_row.coded };

    ghost view = { λ g. g.cond.value };
}

impl Goal {
    /// The condition, as a goal.
    pub fn new(alloc: Global, cond: Cond) -> Result<Goal, AllocError>
        ensures { IfOk result (λ g. g ≡ cond) }
    {
        Ok(Goal {
            cond: Arc::new(alloc, cond)?,
        })
    }

    /// The condition.
    pub fn get(&self) -> &Cond
        ensures { result.now ≡ self.now }
    {
        &self.cond
    }
}

impl Duplicate for Goal {
    /// The same goal, held once more. Where no more holders can be counted it is a condition of its own.
    fn copy(&self, alloc: Global) -> Result<Self, AllocError> {
        match Arc::try_clone(&self.cond) {
            Ok(cond) => Ok(Goal { cond }),
            Err(AllocError) => Goal::new(alloc, self.cond.copy(alloc)?),
        }
    }
}

impl PartialEq for Goal {
    ghost use Rattle.std.specs.Cmp.{partial_equiv_from_equiv, on_equiv};
    ghost use Rattle.std.specs.Ordering.{on};
    ghost use Rattle.ps_world.specs.Same.{is_same, is_same_equiv};
    ghost use Rattle.ps_world.specs.Trees.{cond_tree_code};
    ghost use Rattle.ps_world.specs.CondViews.{cond_tree};

    ghost eq = { on cond_tree (is_same cond_tree_code) };

    ghost laws = { partial_equiv_from_equiv (on_equiv cond_tree (is_same_equiv cond_tree_code)) };

    fn eq(&self, other: &Self) -> bool {
        self.get() == other.get()
    }
}

impl Eq for Goal {
    ghost use Rattle.std.specs.Cmp.{on_equiv};
    ghost use Rattle.ps_world.specs.Same.{is_same_equiv};
    ghost use Rattle.ps_world.specs.Trees.{cond_tree_code};
    ghost use Rattle.ps_world.specs.CondViews.{cond_tree};

    ghost laws = { on_equiv cond_tree (is_same_equiv cond_tree_code) };
}
