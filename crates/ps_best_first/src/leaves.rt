//! What a search keeps of its nodes beside their states.
ghost use Rattle.std.specs.Prelude.{◌≡◌, ◌<◌, ◌∷◌, ◌++◌, [], nat_eq, length, slice_get, Some, OnOk};
ghost use Rattle.std.specs.List.{list_any};
ghost use Rattle.ps_action.specs.Plans.{most_acts};
ghost use Rattle.ps_best_first.specs.Leaves.{IsTaken, is_open};

use ps_world::{Fact, Seq};
use std::alloc::{AllocError, Global};
use std::collections::BTreeSet;
use std::marker::Model;

/// The most acts of a plan.
const MOST_ACTS: u32 = 256;

/// Of a node: how many acts lead to it, the marks that were known nowhere on the way, and whether it was expanded.
#[derive(Drop)]
pub struct Leaf {
    pub depth: u32,
    pub missing: Seq<Fact>,
    pub expanded: bool,
}

impl Leaf {
    /// Whether the node can be expanded.
    fn is_open(&self) -> bool
        ensures { result ≡ is_open self.now }
    {
        !self.expanded && self.depth < MOST_ACTS
    }
}

/// Nodes in the order in which they were reached. Contracts see their list.
#[derive(Drop)]
pub struct Leaves {
    all: Vec<Leaf>,
    /// For each node that can be expanded how many marks it misses, and its place.
    open: BTreeSet<(usize, usize)>,
}

impl Model for Leaves {
    ghost use Rattle.std.specs.Prelude.{List};
    ghost use Rattle.std.specs.Coded.{coded_list};
    ghost use Rattle.ps_best_first.specs.Leaves.{IsHeap};
    ghost use Rattle.ps_best_first.specs.declared.leaves.Leaf.{Leaf as LeafView};
    ghost use Rattle.ps_best_first.specs.contracts.leaves.Leaf.{the_row};

    ghost Value = { List LeafView };

    ghost coded = { coded_list the_row.coded };

    ghost view = { λ a. a.all.items };

    ghost invariant = { λ a. IsHeap a.all.items a.open.keys };
}

impl Leaves {
    /// No nodes.
    pub fn new(alloc: Global) -> Leaves
        ensures { result ≡ [] }
    {
        Leaves {
            all: Vec::new(alloc),
            open: BTreeSet::new(alloc),
        }
    }

    /// How many nodes there are.
    pub fn len(&self) -> usize
        ensures { result ≡ length self.now }
    {
        self.all.len()
    }

    /// The node at a place.
    pub fn at(&self, place: usize) -> &Leaf
        requires { place < length self.now }
        ensures { slice_get self.now place ≡ Some result.now }
    {
        &self.all[place]
    }

    /// Puts a node at the end.
    pub fn push(&mut self, leaf: Leaf) -> Result<(), AllocError>
        ensures { OnOk result (self.new ≡ self.old ++ leaf ∷ []) }
    {
        let key = (leaf.missing.len(), self.all.len());
        let open = leaf.is_open();
        self.all.push(leaf)?;
        if !open {
            return Ok(());
        }
        match self.open.insert(key) {
            Ok(_) => Ok(()),
            Err(_) => {
                self.all.pop();
                Err(AllocError)
            }
        }
    }

    /// Takes the first node with the fewest missing marks among those that can be expanded, which then counts as expanded. None exactly
    /// where none can be.
    pub fn take(&mut self) -> Option<usize>
        ensures { IsTaken self.old result self.new }
    {
        match self.open.pop_first() {
            Some((_, place)) => {
                self.all[place].expanded = true;
                Some(place)
            }
            None => None,
        }
    }

    /// Whether as many acts lead to some node as a plan may have.
    pub fn has_last(&self) -> bool
        ensures { result ≡ list_any (λ l. nat_eq l.depth most_acts) self.now }
    {
        for leaf in &self.all {
            if leaf.depth == MOST_ACTS {
                return true;
            }
        }
        false
    }
}
