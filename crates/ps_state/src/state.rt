//! What is kept of a session beside its entries.
use ps_action::{Arcs, GroundAction};
use ps_domain::Expert;
use ps_ledger::Ledger;
use ps_problem::Problem;
use ps_tree::Tree;

/// All that is kept of a session beside its entries.
#[derive(Drop)]
pub struct State {
    /// The domain.
    pub expert: Expert,
    /// How many lines are due: those up to the first `quit`.
    pub due: usize,
    /// What is known.
    pub problem: Problem,
    /// What the entries tell but what is known.
    pub ledger: Ledger,
    /// The ground actions of the plan, in order.
    pub grounds: Vec<GroundAction>,
    /// Their arcs.
    pub arcs: Arcs,
    /// The tree of the plan, over those arcs.
    pub tree: Tree,
}
