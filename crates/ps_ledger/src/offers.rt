//! What the entries so far tell of the offers that stand.
ghost use Rattle.std.specs.Prelude.{◌≡◌, ◌≤◌, ◌+◌, ◌++◌, [], ◌∷◌, filter, OnOk};
ghost use Rattle.ps_ledger.specs.Kept.{Keeps, room_left, Takes};
ghost use Rattle.ps_ledger.specs.Offers.{HasOffers, is_other, TellsOffers};

use ps_machine::Event;
use ps_world::Name;
use std::alloc::{AllocError, Global};

/// An offer of a performer on a request.
#[derive(Clone, Copy)]
pub struct Offer {
    pub r: u64,
    pub by: Name,
}

/// The offers that are neither rejected nor confirmed.
#[derive(Drop)]
pub struct Offers {
    /// In the order in which they were made.
    pub all: Vec<Offer>,
}

/// Whether this isn't the offer of a performer on a request.
fn is_other(r: u64, by: Name, offer: Offer) -> bool
    ensures { result ≡ is_other r by offer }
{
    let same = offer.by == by;
    !(r == offer.r && same)
}

impl Offers {
    /// What an empty journal tells.
    pub fn new(alloc: Global) -> Offers
        ensures { TellsOffers [] result }
    {
        Offers {
            all: Vec::new(alloc),
        }
    }

    fn push(&mut self, r: u64, by: Name)
        requires { HasOffers 1 self.now }
        ensures all { self.new.all.items ≡ self.old.all.items ++ record { r = r; by = by } ∷ [] }
        ensures spare { room_left self.old.all ≤ room_left self.new.all + 1 }
    {
        if self.all.push(Offer { r, by }).is_err() {
            unreachable!();
        }
    }

    fn strike(&mut self, r: u64, by: Name)
        ensures all { self.new.all.items ≡ filter (is_other r by) self.old.all.items }
        ensures spare { room_left self.old.all ≤ room_left self.new.all }
    {
        self.all.retain(|offer| is_other(r, by, *offer));
    }

    /// Makes room for so many offers more.
    pub fn reserve(&mut self, more: usize) -> Result<(), AllocError>
        ensures ok { OnOk result (HasOffers more self.new) }
        ensures spare { room_left self.old.all ≤ room_left self.new.all }
        ensures told { Keeps TellsOffers self.old self.new }
    {
        self.all.reserve(more)?;
        Ok(())
    }

    /// Takes one more event.
    pub fn take(&mut self, event: &Event)
        requires { HasOffers 1 self.now }
        ensures told { Takes TellsOffers event.now self.old self.new }
        ensures spare { room_left self.old.all ≤ room_left self.new.all + 1 }
    {
        match event {
            Event::Offer { r, by } => self.push(*r, *by),
            Event::Reject { r, by } => self.strike(*r, *by),
            Event::Confirm { r, by } => self.strike(*r, *by),
            _ => {}
        }
    }
}
