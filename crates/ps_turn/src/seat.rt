//! Seats.
ghost use Rattle.std.specs.Prelude.{◌≡◌};

use crate::rule::Founding;
use crate::view::View;
use atomic_table::Seat as Token;
use ps_machine::Grows;
use std::marker::Model;

/// A seat at a book. Contracts see it as its book, its hand, the history that it last saw, the entries of its hand there, and
/// whether it holds the turn. It is neither copied nor dropped: `TurnBook::close` wants every seat back.
pub struct Seat<V: Grows> {
    pub(crate) hand: u8,
    pub(crate) founding: Founding<V>,
    pub(crate) token: Token<Option<V>, View>,
}

impl<V: Grows> Model for Seat<V> {
    ghost use Rattle.ps_turn.specs.Books.{Place, place_code};
    ghost use Rattle.ps_turn.specs.Seats.{IsSeated};

    ghost Value = { Place };

    ghost coded = { place_code };

    ghost view = { λ s. record {
      book = record {
        identity = s.token.table_id;
        seats = s.founding.seats;
        opened = V.history s.founding.opened.value;
        input = V.input s.founding.opened.value;
      };
      hand = s.hand;
      seen = s.token.me.0.seen;
      mine = s.token.me.0.mine;
      holds = s.token.me.0.holds;
    } };

    ghost invariant = { λ s. IsSeated s.hand (V.input s.founding.opened.value) s.token.me };
}

impl<V: Grows> Seat<V> {
    /// The hand that the seat's entries have, counted from 1.
    pub fn hand(&self) -> u8
        ensures { result ≡ self.now.hand }
    {
        self.hand
    }
}
