//! What acts wait for.
ghost use Rattle.std.specs.Prelude.{◌≡◌, length, IfOk};
ghost use Rattle.ps_action.specs.Trees.{waits_at, waits_for, waits_of};

use ps_action::Arcs;
use std::alloc::{AllocError, Global};
use std::marker::Model;

/// The acts that an act waits for, rising. Contracts see the list.
#[derive(Drop)]
pub struct Waits {
    acts: Vec<u32>,
}

impl Model for Waits {
    ghost use Rattle.std.specs.Prelude.{ℕ, List};

    ghost Value = { List ℕ };

    ghost view = { λ w. w.acts.items };
}

impl Waits {
    /// What an act of these arcs waits for.
    pub fn of(alloc: Global, arcs: &Arcs, act: u32) -> Result<Waits, AllocError>
        ensures { IfOk result (λ w. w ≡ waits_for arcs.now.pairs act) }
    {
        let mut acts = Vec::new(alloc);
        for other in 0..act {
            if arcs.has(other, act) {
                acts.push(other)?;
            }
        }
        Ok(Waits { acts })
    }

    /// The acts.
    pub fn as_slice(&self) -> &[u32]
        ensures { result.now ≡ self.now }
    {
        self.acts.as_slice()
    }
}

/// What each act of these arcs waits for.
pub fn waits_of(alloc: Global, arcs: &Arcs) -> Result<Vec<Waits>, AllocError>
    ensures { IfOk result (λ v. v.items ≡ waits_of arcs.now) }
{
    let mut all = Vec::new(alloc);
    for act in 0..arcs.acts() {
        all.push(Waits::of(alloc, arcs, act)?)?;
    }
    Ok(all)
}

/// What an act of these waits for; nothing where there is no such act.
pub fn waits_at(all: &[Waits], act: u32) -> &[u32]
    ensures { result.now ≡ waits_at all.now act }
{
    match all.get(act as usize) {
        Some(waits) => waits.as_slice(),
        None => &[],
    }
}
