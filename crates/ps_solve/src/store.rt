//! The rows that a search has reached.
ghost use Rattle.std.specs.Prelude.{◌≡◌, ℕ, IfOk};
ghost use Rattle.ps_levels.specs.Levels.{Begins};
ghost use Rattle.ps_solve.specs.Stores.{IsStore, nodes_in, space_of};

use super::expansion::Expansion;
use super::reached::Reached;
use super::task::Task;
use ps_action::{Act, is_true};
use ps_levels::Frontier;
use ps_world::Seq;
use std::alloc::AllocError;

/// The rows that a search has reached, in the order in which it reached them, of which so many are expanded.
#[derive(Drop)]
pub struct Rows<'a> {
    pub task: &'a Task<'a>,
    pub reached: Reached,
    pub expanded: usize,
}

impl<'a> Rows<'a> {
    /// The row of what is known at first alone.
    pub fn new(task: &'a Task<'a>) -> Result<Rows<'a>, AllocError>
        ensures task { IfOk result (λ rows. rows.task.now ≡ task.now) }
        ensures begin { IfOk result (λ rows. Begins (space_of rows.task.now) rows.expanded
            (nodes_in rows.task.now rows.reached)) }
        ensures store { IfOk result (λ rows. (most : ℕ)
            → IsStore rows.task.now most rows.expanded rows.reached) }
    {
        let start = task.start()?;
        let reached = Reached::new(task.alloc, start)?;
        Ok(Rows {
            task,
            reached,
            expanded: 0,
        })
    }
}

impl<'a> Frontier for Rows<'a> {
    ghost use Rattle.ps_ground.specs.Moves.{Node as NodeView};
    ghost use Rattle.ps_ground.specs.States.{State as StateView};
    ghost use Rattle.ps_solve.specs.Stores.{IsStore, nodes_in, space_of};
    ghost use Rattle.ps_solve.specs.declared.task.Task.{Task as TaskView};

    type Path = Seq<Act>;

    ghost Node = { NodeView };

    ghost State = { StateView };

    ghost Held = { TaskView };

    ghost path = { λ n. n.path };

    ghost space = { λ r. space_of r.task.now };

    ghost nodes = { λ r. nodes_in r.task.now r.reached };

    ghost expanded = { λ r. r.expanded };

    ghost held = { λ r. r.task.now };

    ghost sound = { λ r most. IsStore r.task.now most r.expanded r.reached };

    fn first(&self) -> Result<Option<Seq<Act>>, AllocError> {
        if is_true(self.task.problem, self.task.expert, self.task.goal) {
            return Ok(Some(Seq::new(self.task.alloc)));
        }
        Ok(None)
    }

    fn len(&self) -> usize {
        self.reached.len()
    }

    fn expand(&mut self, most: u32) -> Result<Option<Seq<Act>>, AllocError> {
        // The atoms say with their slice that they rise.
        let _atoms = self.task.grounds.atoms.as_slice();
        let place = self.expanded;
        self.expanded += 1;
        let here = self.reached.row(place).copy(self.task.alloc)?;
        let expansion = Expansion {
            task: self.task,
            here,
            from: place as u32,
            most,
        };
        expansion.run(&mut self.reached)
    }
}
