//! A search that may expand any of the states that it has reached.
ghost use Rattle.std.specs.Prelude.{◌≡◌, ◌<◌, ◌≤◌, ◌∷◌, ◌++◌, [], None, length, option_map, take, IfOk};
ghost use Rattle.ps_world.specs.Knowledge.{is_known};
ghost use Rattle.ps_levels.specs.Levels.{first_good, fresh};
ghost use Rattle.ps_ground.specs.States.{at};
ghost use Rattle.ps_solve.specs.Nodes.{root};
ghost use Rattle.ps_solve.specs.Reached.{rows_of};
ghost use Rattle.ps_solve.specs.Rows.{AreWide};
ghost use Rattle.ps_solve.specs.Spaces.{path_of};
ghost use Rattle.ps_solve.specs.Stores.{AreKept, node_at, nodes_in, space_of};

use super::expansion::Expansion;
use super::reached::Reached;
use super::task::Task;
use ps_action::{Act, Known};
use ps_world::{Fact, Seq};
use std::alloc::AllocError;

impl<'a> Task<'a> {
    /// The state of what is known at first, alone.
    pub fn begin(&self) -> Result<Reached, AllocError>
        ensures nodes { IfOk result (λ reached. nodes_in self.now reached
            ≡ root self.now.problem.now ∷ []) }
        ensures wide { IfOk result (λ reached. AreWide self.now.grounds.atoms (rows_of reached)) }
    {
        let start = self.start()?;
        let reached = Reached::new(self.alloc, start)?;
        Ok(reached)
    }

    /// Whether a fact is known in the state at a place.
    pub fn is_known(&self, reached: &Reached, place: usize, fact: &Fact) -> bool
        requires { place < length reached.now }
        ensures { result ≡ is_known
            (at self.now.problem.now (node_at self.now reached.now place).state) fact.now }
    {
        let row = reached.row(place);
        let here = self.at(row);
        here.has(fact)
    }

    /// Expands the state at a place, whether or not those before it are: keeps the new states that it leads to, as long as no more than so
    /// many are kept. Where one that it leads to meets the goal, the acts that lead to the first such one are answered, and then it isn't
    /// said what is kept.
    pub fn expand(
        &self,
        place: u32,
        most: u32,
        reached: &mut Reached,
    ) -> Result<Option<Seq<Act>>, AllocError>
        requires kept { AreKept self.now reached.old }
        requires there { place < length reached.old }
        requires room { length reached.old ≤ most }
        ensures found { IfOk result (λ found. found ≡ option_map path_of (first_good
            (space_of self.now) ((space_of self.now).moves (node_at self.now reached.old place)))) }
        ensures nodes { IfOk result (λ found. found ≡ None → nodes_in self.now reached.new
            ≡ take most (nodes_in self.now reached.old
            ++ fresh (space_of self.now) (nodes_in self.now reached.old)
            ((space_of self.now).moves (node_at self.now reached.old place)))) }
        ensures kept { IfOk result (λ found. found ≡ None → AreKept self.now reached.new) }
    {
        let here = reached.row(place as usize).copy(self.alloc)?;
        let expansion = Expansion {
            task: self,
            here,
            from: place,
            most,
        };
        expansion.run_all(reached)
    }
}
