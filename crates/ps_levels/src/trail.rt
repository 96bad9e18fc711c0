//! How the nodes of a search were reached.
ghost use Rattle.std.specs.Prelude.{◌≡◌, ◌<◌, ◌≤◌, ℕ, ◌∷◌, ◌++◌, [], length, slice_index_or, None, IfOk, OnOk, OnErr};
ghost use Rattle.std.specs.List.{last_or};
ghost use Rattle.ps_levels.specs.Paths.{paths};

use std::alloc::{AllocError, Global};
use std::marker::Model;

/// For each node but the first the place of the node before it and the place of the act that led on. It takes eight bytes a node.
/// Contracts see the list of these.
#[derive(Drop)]
pub struct Trail {
    steps: Vec<(u32, u32)>,
}

impl Model for Trail {
    ghost use Rattle.std.specs.Prelude.{ℕ, List};
    ghost use Rattle.ps_levels.specs.Paths.{IsTrail};

    ghost Value = { List (ℕ × ℕ) };

    ghost view = { λ t. t.steps.items };

    ghost invariant = { λ t. IsTrail t.steps.items };
}

impl Trail {
    /// The first node alone.
    pub fn new(alloc: Global) -> Trail
        ensures { result ≡ [] }
    {
        Trail {
            steps: Vec::new(alloc),
        }
    }

    /// One more node, to which this act leads on from an earlier one.
    pub fn push(&mut self, from: u32, act: u32) -> Result<(), AllocError>
        requires { from ≤ length self.old }
        ensures steps { OnOk result (self.new ≡ self.old ++ (from, act) ∷ []) }
        ensures paths { OnOk result (paths self.new ≡ paths self.old
            ++ (slice_index_or (paths self.old) from [] ++ act ∷ []) ∷ []) }
        ensures err { OnErr result (self.new ≡ self.old) }
    {
        self.steps.push((from, act))?;
        Ok(())
    }

    /// Takes the last node off.
    pub fn pop(&mut self)
        requires { 0 < length self.old }
        ensures { (s : ℕ × ℕ) × (self.old ≡ self.new ++ s ∷ []) }
    {
        let _step = self.steps.pop();
    }

    /// The act that led to the node at a place. None at the first node, which none led to.
    pub fn last(&self, place: usize) -> Option<u32>
        requires { place ≤ length self.now }
        ensures { result ≡ last_or None (slice_index_or (paths self.now) place []) }
    {
        if place == 0 {
            return None;
        }
        let (_, act) = self.steps[place - 1];
        Some(act)
    }

    /// The acts that lead to the node at a place.
    pub fn path(&self, alloc: Global, place: usize) -> Result<Vec<u32>, AllocError>
        requires { place ≤ length self.now }
        ensures { IfOk result (λ path. path.items ≡ slice_index_or (paths self.now) place []) }
    {
        let mut path = Vec::new(alloc);
        let mut at = place;
        while at > 0 {
            let (from, act) = self.steps[at - 1];
            path.push(act)?;
            at = from as usize;
        }
        path.reverse();
        Ok(path)
    }
}
