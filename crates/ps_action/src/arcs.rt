//! Arcs: pairs of ground actions that keep their order.
ghost use Rattle.std.specs.Prelude.{◌≡◌, ◌≤◌, ◌<◌, ◌*◌, [], ◌∷◌, ◌++◌, false, length, IfOk, OnOk, OnErr};
ghost use Rattle.ps_action.specs.ArcTables.{has_pair};

use ps_world::Duplicate;
use std::alloc::{AllocError, Global};
use std::marker::Model;

/// Pairs of ground actions, by their places, the earlier first. Contracts see how many ground actions there are and the list of the
/// pairs.
#[derive(Drop)]
pub struct Arcs {
    acts: u32,
    pairs: Vec<(u32, u32)>,
    /// A row of 256 flags for each ground action, which tell whether there is an arc from it to another one.
    flags: Vec<bool>,
}

impl Model for Arcs {
    ghost use Rattle.ps_action.specs.ArcTables.{IsTable, Pairs};

    ghost Value = { Pairs };

    ghost view = { λ a. record { acts = a.acts; pairs = a.pairs.items } };

    ghost invariant = { λ a. IsTable a.acts a.pairs.items a.flags.items };
}

impl Arcs {
    /// No arcs between so many ground actions.
    pub fn new(alloc: Global, acts: u32) -> Result<Arcs, AllocError>
        requires { acts ≤ 256 }
        ensures { IfOk result (λ arcs. (arcs.acts ≡ acts) × (arcs.pairs ≡ [])) }
    {
        let flags = vec![in alloc; false; acts as usize * 256]?;
        Ok(Arcs {
            acts,
            pairs: Vec::new(alloc),
            flags,
        })
    }

    /// Puts an arc at the end. Where memory runs out nothing changes.
    pub fn add(&mut self, i: u32, j: u32) -> Result<(), AllocError>
        requires order { i < j }
        requires within { j < self.old.acts }
        requires absent { has_pair i j self.old.pairs ≡ false }
        ensures ok { OnOk result (self.new.pairs ≡ self.old.pairs ++ (i, j) ∷ []) }
        ensures acts { self.new.acts ≡ self.old.acts }
        ensures err { OnErr result (self.new ≡ self.old) }
    {
        self.pairs.push((i, j))?;
        self.flags[i as usize * 256 + j as usize] = true;
        Ok(())
    }

    /// Whether there is an arc from one place to another one.
    pub fn has(&self, i: u32, j: u32) -> bool
        ensures { result ≡ has_pair i j self.now.pairs }
    {
        if i < self.acts && j < self.acts {
            self.flags[i as usize * 256 + j as usize]
        } else {
            false
        }
    }

    /// How many arcs there are.
    pub fn count(&self) -> u32
        ensures { result ≡ length self.now.pairs }
    {
        self.pairs.len() as u32
    }

    /// How many ground actions there are.
    pub fn acts(&self) -> u32
        ensures { result ≡ self.now.acts }
    {
        self.acts
    }
}

impl Duplicate for Arcs {
    fn copy(&self, _alloc: Global) -> Result<Self, AllocError> {
        Ok(Arcs {
            acts: self.acts,
            pairs: self.pairs.clone()?,
            flags: self.flags.clone()?,
        })
    }
}

impl PartialEq for Arcs {
    ghost use Rattle.ps_action.specs.ArcTables.{arcs_per, same_arcs};

    ghost eq = { same_arcs };

    ghost laws = { arcs_per };

    fn eq(&self, other: &Self) -> bool {
        self.acts == other.acts && self.pairs == other.pairs
    }
}
