//! The tree of the plan.
ghost use Rattle.std.specs.Prelude.{◌≡◌, length};
ghost use Rattle.ps_state.specs.Awaiting.{HasSameButTree, KeepsStanding};

use super::state::State;

impl State {
    /// Lets the tree take over the states of the acts. It takes no memory.
    pub fn tick_tree(&mut self)
        requires { length self.now.ledger.acts.states.items ≡ length self.now.tree.waits }
        ensures states { self.new.tree.states ≡ self.old.ledger.acts.states.items }
        ensures waits { self.new.tree.waits ≡ self.old.tree.waits }
        ensures rest { HasSameButTree self.old self.new }
        ensures stands { KeepsStanding self.old self.new }
    {
        self.tree.take(&self.ledger.acts.states);
    }
}
