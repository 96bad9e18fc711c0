//! The cancels that an event forces.
ghost use Rattle.std.specs.Prelude.{◌≡◌, ◌++◌, ◌||◌, IfOk, OnOk, map};
ghost use Rattle.ps_machine.specs.declared.journal.CancelWhy.TheVariants.{OverAll as OverAllWhy};
ghost use Rattle.ps_rules.specs.History.{broken, cancels, forced_after, is_fail};
ghost use Rattle.ps_state.specs.Forced.{Adds, cancels_if, has_some, is_broken, is_sound};
ghost use Rattle.ps_state.specs.State.{Says};

use super::state::State;
use ps_machine::{CancelWhy, Entry, Event};
use std::alloc::{AllocError, Global};

fn is_fail(event: &Event) -> bool
    ensures { result ≡ is_fail event.now }
{
    match event {
        Event::Fail { act: _, why: _ } => true,
        _ => false,
    }
}

/// Adds the cancel of an act with this hand, if it is to be cancelled.
fn add_if(
    all: &mut Vec<Entry>,
    hand: u8,
    why: CancelWhy,
    act: u32,
    cancelled: bool,
) -> Result<(), AllocError>
    ensures { OnOk result (all.new.items ≡ all.old.items ++ cancels_if hand why cancelled act) }
{
    if !cancelled {
        return Ok(());
    }
    let entry = Entry {
        hand,
        what: Event::Cancel { act, why },
    };
    all.push(entry)?;
    Ok(())
}

/// Whether an event stops all active acts, where these cancels were forced.
fn stops(event: &Event, all: &[Entry]) -> bool
    ensures { result ≡ (is_fail event.now || has_some all.now) }
{
    let fails = is_fail(event);
    let some = !all.is_empty();
    fails || some
}

impl State {
    /// Whether an act is active and its over-all condition is false.
    fn is_broken(&self, act: u32) -> bool
        ensures { Says self.now result (λ i es. is_broken i es act) }
    {
        let active = self.ledger.acts.is_active(act);
        let fine = self.may_go_on(act);
        active && !fine
    }

    /// Whether an act is active and its over-all condition holds.
    fn is_sound(&self, act: u32) -> bool
        ensures { Says self.now result (λ i es. is_sound i es act) }
    {
        let active = self.ledger.acts.is_active(act);
        let fine = self.may_go_on(act);
        active && fine
    }

    /// The cancels of the active acts whose over-all condition is false.
    fn broken(&self, alloc: Global, hand: u8) -> Result<Vec<Entry>, AllocError>
        ensures { IfOk result (λ all. Says self.now all.items
            (λ i es. map (cancels hand OverAllWhy) (broken i es))) }
    {
        let mut all = Vec::new(alloc);
        for act in 0..self.count() {
            let broken = self.is_broken(act);
            add_if(&mut all, hand, CancelWhy::OverAll, act, broken)?;
        }
        Ok(all)
    }

    /// Adds the cancels of the active acts whose over-all condition holds.
    fn add_sound(&self, all: &mut Vec<Entry>, hand: u8) -> Result<(), AllocError>
        ensures { OnOk result (Adds self.now hand all.old.items all.new.items) }
    {
        for act in 0..self.count() {
            let sound = self.is_sound(act);
            add_if(all, hand, CancelWhy::Stop, act, sound)?;
        }
        Ok(())
    }

    /// The cancels with this hand that an event forces, where it is the last. The only error is out of memory.
    pub fn forced(&self, alloc: Global, hand: u8, event: &Event) -> Result<Vec<Entry>, AllocError>
        ensures { IfOk result (λ all. Says self.now all.items
            (λ i es. forced_after i es hand event.now)) }
    {
        let mut all = self.broken(alloc, hand)?;
        if !stops(event, &all) {
            return Ok(all);
        }
        self.add_sound(&mut all, hand)?;
        Ok(all)
    }
}
