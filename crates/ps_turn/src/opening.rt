//! Books are opened.
ghost use Rattle.std.specs.Prelude.{◌≡◌, ◌+◌, ◌-◌, ◌<◌, ◌≤◌, [], map, length, vec_len, vec_capacity, IfOk, IfErr};
ghost use Rattle.ps_turn.specs.Books.{new_place, hands, later_hands, IsOpening};
ghost use Rattle.ps_turn.specs.Seats.{IsDealing};

use crate::book::TurnBook;
use crate::rule::{Begin, Deal, Founding, Give};
use crate::seat::Seat;
use crate::view::View;
use atomic_table::{Seat as Token, Table};
use ps_machine::Grows;
use std::alloc::Global;
use std::sync::atomic::AtomicU32;
use std::sync::atomic::Ordering::SeqCst;

/// There was no memory for a book. The value comes back.
#[derive(Drop)]
pub struct NotOpened<V> {
    pub value: V,
}

impl<V: Grows> TurnBook<V> {
    /// A book of this value with 1 to 16 seats, of hands 1, 2 and so on, each of which has seen the value's history. Nobody has the
    /// turn. All memory that it takes is found before the value is moved.
    pub fn open(
        alloc: Global,
        value: V,
        seats: u8,
    ) -> Result<(TurnBook<V>, Vec<Seat<V>>), NotOpened<V>>
        requires { (1 ≤ seats) × (seats ≤ 16) }
        ensures book { IfOk result (λ r. (r.0.seats ≡ seats)
            × (r.0.opened ≡ V.history value) × (r.0.input ≡ V.input value)) }
        ensures seats { IfOk result (λ r. r.1.items ≡ map (new_place r.0) (hands seats)) }
        ensures err { IfErr result (λ refused. refused.value ≡ value) }
    {
        let Ok(places) = Vec::with_capacity(alloc, usize::from(seats)) else {
            return Err(NotOpened { value });
        };
        let founding = Founding::of(&value, seats);
        match Table::vacant(alloc, &[1], 1, &founding) {
            Ok((table, first)) => {
                let book = TurnBook {
                    table,
                    waiting: AtomicU32::new(0),
                };
                let places = book.seat_all(first, value, seats, places);
                Ok((book, places))
            }
            Err(_) => {
                places.destroy_empty();
                Err(NotOpened { value })
            }
        }
    }

    // Deals the other seats, and puts the value in its place.
    fn seat_all(
        &self,
        mut first: Token<Option<V>, View>,
        value: V,
        seats: u8,
        mut places: Vec<Seat<V>>,
    ) -> Vec<Seat<V>>
        requires token { IsDealing self.now 1 first.table_id first.me }
        requires value { IsOpening V.history V.input self.now value }
        requires seats { (0 < seats) × (seats ≡ self.now.seats) }
        requires room { (places.items ≡ []) × (seats ≤ vec_capacity places) }
        ensures { result.items ≡ map (new_place self.now) (hands seats) }
    {
        self.deal(&mut first, &value, seats, &mut places);
        let seat = self.begin(first, value, seats);
        let inserted = places.insert(0, seat);
        let Ok(()) = inserted else { unreachable!() };
        places
    }

    // Deals the seats after the first.
    fn deal(
        &self,
        first: &mut Token<Option<V>, View>,
        value: &V,
        seats: u8,
        places: &mut Vec<Seat<V>>,
    )
        requires token { IsDealing self.now 1 first.old.table_id first.old.me }
        requires value { IsOpening V.history V.input self.now value.now }
        requires seats { (0 < seats) × (seats ≡ self.now.seats) }
        requires room { (places.old.items ≡ []) × (seats ≤ vec_capacity places.old) }
        ensures token { IsDealing self.now seats first.new.table_id first.new.me }
        ensures places { places.new.items ≡ map (new_place self.now) (later_hands seats) }
        ensures count { vec_len places.new ≡ seats - 1 }
        ensures room { vec_capacity places.new ≡ vec_capacity places.old }
    {
        for made in 1..seats {
            let seat = self.deal_one(first, Founding::of(value, seats), made);
            places.push_reserved(seat);
        }
    }

    // Deals the seat after so many.
    fn deal_one(
        &self,
        first: &mut Token<Option<V>, View>,
        founding: Founding<V>,
        made: u8,
    ) -> Seat<V>
        requires token { IsDealing self.now made first.old.table_id first.old.me }
        requires seats { founding.seats ≡ self.now.seats }
        requires founding { IsOpening V.history V.input self.now founding.opened.value }
        requires room { made < self.now.seats }
        ensures token { IsDealing self.now (made + 1) first.new.table_id first.new.me }
        ensures seat { result ≡ new_place self.now (made + 1) }
    {
        let hand = made + 1;
        let token = self.table.shared.split_seat::<Deal>(first);
        Seat {
            hand,
            founding,
            token,
        }
    }

    // The first seat takes the empty slot, fills it and gives it back.
    fn begin(&self, mut first: Token<Option<V>, View>, value: V, seats: u8) -> Seat<V>
        requires token { IsDealing self.now seats first.table_id first.me }
        requires value { IsOpening V.history V.input self.now value }
        requires seats { seats ≡ self.now.seats }
        ensures { result ≡ new_place self.now 1 }
    {
        let founding = Founding::of(&value, seats);
        self.table.shared.store::<Begin>(&mut first, 0, 1);
        let slot = self.table.shared.exchange(&mut first, 0, Some(value));
        let None = slot else { unreachable!() };
        self.table.shared.store::<Give>(&mut first, 0, 0);
        Seat {
            hand: 1,
            founding,
            token: first,
        }
    }
}
