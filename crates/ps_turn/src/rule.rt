//! The rule of the table, and its steps.
ghost use Rattle.ps_turn.specs.Rule.{Rule};
ghost use Rattle.ps_turn.specs.Turns.{opener, dealer, newcomer, noting, spent, Begins, Gives, Takes};
ghost use Rattle.std.specs.Prelude.{◌≡◌};

use crate::view::View;
use atomic_table::{Join, Play, Split, TableRule};
use ps_machine::Grows;
use std::snapshot::Snapshot;

/// What a table is founded on: how many seats it has, and, for the proofs alone, the first value.
pub struct Founding<V> {
    pub seats: u8,
    pub opened: Snapshot<V>,
}

impl<V> Founding<V> {
    pub fn of(value: &V, seats: u8) -> Founding<V>
        ensures { (result.seats ≡ seats) × (result.opened.value ≡ value.now) }
    {
        Founding {
            seats,
            opened: Snapshot::of(value),
        }
    }
}

impl<V> Drop for Founding<V> {
    fn drop(self) {
        let Self {
            seats: _,
            opened: _,
        } = self;
    }
}

/// The rule.
pub struct Turns;

impl<V: Grows> TableRule<Option<V>, View, Founding<V>> for Turns {
    ghost holds = { λ k s. Rule V.history V.input (record {
      seats = k.seats;
      base = V.history k.opened.value;
      input = V.input k.opened.value;
    }) s };

    ghost first = { λ k. opener (record {
      seats = k.seats;
      base = V.history k.opened.value;
      input = V.input k.opened.value;
    }) };
}

/// The first seat takes the empty slot.
pub struct Begin;

impl<V> Play<Option<V>, View> for Begin {
    ghost then = { Begins };
}

/// A seat gives the slot back, and the turn with it.
pub struct Give;

impl<V: Grows> Play<Option<V>, View> for Give {
    ghost then = { Gives V.history };
}

/// A seat takes the turn if it is free, and the slot with it.
pub struct Take;

impl<V: Grows> Play<Option<V>, View> for Take {
    ghost then = { Takes V.history V.input };
}

/// The first seat deals a seat with the next hand.
pub struct Deal;

impl Split<View> for Deal {
    ghost left = { dealer };

    ghost right = { newcomer };
}

/// A seat takes note of another, which is spent.
pub struct Gather;

impl Join<View> for Gather {
    ghost both = { noting };

    ghost spent = { spent };
}
