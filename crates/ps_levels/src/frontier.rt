//! What a search asks of a store of nodes.
ghost use Rattle.std.specs.Prelude.{◌≡◌, ◌++◌, ◌∷◌, ℕ, suc, [], List, None, option_map, drop, length, take, IfOk};
ghost use Rattle.ps_levels.specs.Levels.{CanExpand, Space, Stays, first_good, fresh};

use std::alloc::AllocError;

/// The nodes that a search has reached, in the order in which it reached them, of which the first ones are expanded.
pub trait Frontier {
    /// How a node is reached.
    type Path;

    ghost Node: { Type 0 };

    ghost State: { Type 0 };

    ghost Held: { Type 0 };

    ghost path: { Self.Node → Self.Path };

    ghost space: { Self → Space Self.Node Self.State };

    ghost nodes: { Self → List Self.Node };

    ghost expanded: { Self → ℕ };

    /// What it holds besides, which no call changes.
    ghost held: { Self → Held };

    /// What the store rests on, where so many nodes may be kept. It is lost where a path was found and where memory ran out.
    ghost sound: { Self → ℕ → Type 0 };

    /// The path of the first node, if its state is looked for.
    fn first(&self) -> Result<Option<Self::Path>, AllocError>
        ensures { IfOk result (λ found. found ≡ option_map path
            (first_good (space self.now) ((space self.now).root ∷ []))) };

    /// How many nodes are kept.
    fn len(&self) -> usize
        ensures { result ≡ length (nodes self.now) };

    /// Expands the next node: keeps the new nodes that it leads to, as long as no more than so many are kept. Where one that it leads to
    /// is looked for, the path of the first such one is answered, and then it isn't said what is kept.
    fn expand(&mut self, most: u32) -> Result<Option<Self::Path>, AllocError>
        requires sound { sound self.old most }
        requires next { CanExpand (space self.old) most (expanded self.old) (nodes self.old) }
        ensures stays { Stays (space self.old) (held self.old) (space self.new) (held self.new) }
        ensures count { expanded self.new ≡ suc (expanded self.old) }
        ensures found { IfOk result (λ found. (n : Self.Node) (ns : List Self.Node)
            → drop (expanded self.old) (nodes self.old) ≡ n ∷ ns
            → found ≡ option_map path (first_good (space self.old) ((space self.old).moves n))) }
        ensures nodes { IfOk result (λ found. found ≡ None → (n : Self.Node) (ns : List Self.Node)
            → drop (expanded self.old) (nodes self.old) ≡ n ∷ ns
            → nodes self.new ≡ take most (nodes self.old
            ++ fresh (space self.old) (nodes self.old) ((space self.old).moves n))) }
        ensures sound { IfOk result (λ found. found ≡ None → sound self.new most) };
}
