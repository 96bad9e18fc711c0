//! The store of a search over something that expands.
ghost use Rattle.std.specs.Prelude.{◌≡◌, ◌≤◌, ◌∷◌, [], IfOk};
ghost use Rattle.ps_levels.specs.Levels.{answer_from};
ghost use Rattle.ps_expand.specs.Trees.{IsCounted, IsTreeOf, MaySearch, nodes_in, path_of, root_of, tree_space};

use crate::expanding::Expand;
use crate::store::Store;
use ps_action::Act;
use ps_levels::{Found, Frontier, search};
use ps_problem::Problem;
use ps_world::Seq;
use std::alloc::AllocError;

/// The states that a search has reached, of which so many are expanded, and what expands them.
/// It owns neither, so that what becomes of both is known after it.
#[derive(Drop)]
struct Tree<'a, 'b, 'c, X> {
    expander: &'b mut X,
    store: &'c mut Store<'a>,
    expanded: usize,
}

impl<'a, 'b, 'c, X: Expand> Frontier for Tree<'a, 'b, 'c, X> {
    ghost use Rattle.std.specs.Prelude.{suc, ◌-◌};
    ghost use Rattle.ps_ground.specs.Moves.{Node as NodeView};
    ghost use Rattle.ps_ground.specs.States.{State as StateView};
    ghost use Rattle.ps_expand.specs.Trees.{Held as HeldView, IsTreeOf, nodes_in, tree_space};

    type Path = Seq<Act>;

    ghost Node = { NodeView };

    ghost State = { StateView };

    ghost Held = { HeldView };

    ghost path = { λ n. n.path };

    ghost space = { λ t. tree_space (X.domain t.expander.now) t.store.now.start.now (X.goal t.expander.now) };

    ghost nodes = { λ t. nodes_in t.store.now.start.now t.store.now.reached };

    ghost expanded = { λ t. t.expanded };

    ghost held = { λ t. record {
      name = t.expander.ghost_name;
      domain = X.domain t.expander.now;
      instances = X.instances t.expander.now;
      goal = X.goal t.expander.now;
      before = suc (X.count t.expander.now) - t.expanded;
    } };

    ghost sound = { λ t most. IsTreeOf (X.instances t.expander.now) (X.count t.expander.now)
        t.store.now.start.now t.store.now.here t.expanded t.store.now.reached };

    fn first(&self) -> Result<Option<Seq<Act>>, AllocError> {
        if self.expander.met(self.store.start) {
            return Ok(Some(Seq::new(self.store.start.allocator())));
        }
        Ok(None)
    }

    fn len(&self) -> usize {
        self.store.reached.len()
    }

    fn expand(&mut self, most: u32) -> Result<Option<Seq<Act>>, AllocError> {
        let from = self.expanded as u32;
        self.expanded += 1;
        let children = self.expander.expand(&self.store.here)?;
        self.store.run(&*self.expander, from, &children, most)
    }
}

/// Searches in a tree of which no node is expanded. The expander that it holds stays, and counts what is expanded.
fn search_in<X: Expand>(
    tree: &mut Tree<X>,
    budget: u32,
    most: u32,
) -> Result<Found<Seq<Act>>, AllocError>
    requires begin { nodes_in tree.old.store.now.start.now tree.old.store.now.reached
        ≡ root_of tree.old.store.now.start.now ∷ [] }
    requires none { tree.old.expanded ≡ 0 }
    requires sound { IsTreeOf (X.instances tree.old.expander.now)
        (X.count tree.old.expander.now) tree.old.store.now.start.now tree.old.store.now.here 0
        tree.old.store.now.reached }
    requires budget { 1 ≤ budget }
    ensures same_reference { tree.new.expander.ghost_name ≡ tree.old.expander.ghost_name }
    ensures domain { X.domain tree.new.expander.now ≡ X.domain tree.old.expander.now }
    ensures instances { X.instances tree.new.expander.now ≡ X.instances tree.old.expander.now }
    ensures goal { X.goal tree.new.expander.now ≡ X.goal tree.old.expander.now }
    ensures answer { IfOk result (λ found. found ≡ answer_from
        (tree_space (X.domain tree.old.expander.now) tree.old.store.now.start.now
        (X.goal tree.old.expander.now)) path_of budget most 0) }
    ensures frugal { IfOk result (λ found. IsCounted
        (tree_space (X.domain tree.old.expander.now) tree.old.store.now.start.now
        (X.goal tree.old.expander.now)) budget (X.count tree.old.expander.now)
        (X.count tree.new.expander.now) found) }
{
    search(tree, budget, most)
}

/// Searches level by level from a problem, by what expands for it: the least of the shortest plans, where it finds one. Each state that is
/// reached is kept as its difference from the start, and expanded at most once.
pub fn search_from<X: Expand>(
    expander: &mut X,
    problem: &Problem,
    budget: u32,
    most: u32,
) -> Result<Found<Seq<Act>>, AllocError>
    requires { MaySearch (X.instances expander.old) (X.goal expander.old) (X.count expander.old)
        problem.now budget }
    ensures answer { IfOk result (λ found. found ≡ answer_from
        (tree_space (X.domain expander.old) problem.now (X.goal expander.old))
        path_of budget most 0) }
    ensures frugal { IfOk result (λ found. IsCounted
        (tree_space (X.domain expander.old) problem.now (X.goal expander.old))
        budget (X.count expander.old) (X.count expander.new) found) }
    ensures domain { X.domain expander.new ≡ X.domain expander.old }
    ensures instances { X.instances expander.new ≡ X.instances expander.old }
    ensures goal { X.goal expander.new ≡ X.goal expander.old }
{
    let mut store = Store::new(problem)?;
    let mut tree = Tree {
        expander: &mut *expander,
        store: &mut *store,
        expanded: 0,
    };
    search_in(&mut tree, budget, most)
}
