//! Watched conditions.
ghost use Rattle.std.specs.Prelude.{◌≡◌, IfOk};
ghost use Rattle.std.specs.List.{list_any};
ghost use Rattle.ps_action.specs.Arcs.{meet, meets};
ghost use Rattle.ps_action.specs.Touching.{read_by_list};

use ps_action::Touched;
use ps_eval::reads;
use ps_world::{Conds, Duplicate};
use std::alloc::{AllocError, Global};
use std::marker::Model;

/// A watched condition, with what it reads. Contracts see the condition.
#[derive(Drop)]
pub struct Watch {
    over: Conds,
    reads: Vec<Touched>,
}

impl Model for Watch {
    ghost use Rattle.std.specs.Prelude.{◌≡◌, List};
    ghost use Rattle.ps_world.specs.Trees.{CondTree, conds_code};
    ghost use Rattle.ps_action.specs.Touching.{read_by_list};

    ghost Value = { List CondTree };

    ghost coded = { conds_code };

    ghost view = { λ w. w.over };

    ghost invariant = { λ w. w.reads.items ≡ read_by_list w.over };
}

impl Watch {
    /// A condition.
    pub fn of(alloc: Global, over: &Conds) -> Result<Watch, AllocError>
        ensures { IfOk result (λ watch. watch ≡ over.now) }
    {
        let reads = reads(alloc, over)?;
        Ok(Watch {
            over: over.copy(alloc)?,
            reads,
        })
    }

    /// The condition.
    pub fn over(&self) -> &Conds
        ensures { result.now ≡ self.now }
    {
        &self.over
    }

    /// What it reads.
    pub fn reads(&self) -> &[Touched]
        ensures { result.now ≡ read_by_list self.now }
    {
        &self.reads
    }

    /// Whether it reads something that meets one of these.
    pub fn is_hit(&self, changed: &[Touched]) -> bool
        ensures { result ≡ meet changed.now (read_by_list self.now) }
    {
        changed.iter().any(|one| is_among(&self.reads, one))
    }
}

/// Whether one of these meets a thing.
fn is_among(touched: &[Touched], one: &Touched) -> bool
    ensures { result ≡ list_any (meets one.now) touched.now }
{
    touched.iter().any(|there| one.meets(there))
}
