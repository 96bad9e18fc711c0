//! Books.
ghost use Rattle.std.specs.Prelude.{◌≡◌, true, false, MatchResult};
ghost use Rattle.ps_turn.specs.Books.{Took, now_at, IsFree};
ghost use Rattle.ps_turn.specs.Hands.{of_hand, IsBeginning, GoesOnBy};

use crate::rule::{Founding, Give, Take, Turns};
use crate::seat::Seat;
use crate::view::View;
use atomic_table::Table;
use ps_machine::Grows;
use std::alloc::Global;
use std::hint;
use std::marker::Model;
use std::sync::Wait;
use std::sync::atomic::AtomicU32;
use std::sync::atomic::Ordering::SeqCst;

// How often a seat tries for the turn before it sleeps.
const TRIES: u32 = 100;

/// A value that is taken in turns, by one seat at a time. Contracts see it as what tells it from other books, its number of
/// seats, and the history and the input of the value that it was opened with. It isn't dropped: `close` gives the value back.
pub struct TurnBook<V: Grows> {
    pub(crate) table: Table<Option<V>, View, Founding<V>, Turns, Global>,
    // How many seats sleep, or are about to. It stands beside the table, and no promise reads it.
    pub(crate) waiting: AtomicU32,
}

impl<V: Grows> Model for TurnBook<V> {
    ghost use Rattle.std.specs.Prelude.{◌≡◌, ◌<◌};
    ghost use Rattle.ps_turn.specs.Books.{Book, book_code};

    ghost Value = { Book };

    ghost coded = { book_code };

    ghost view = { λ b. record {
      identity = b.table.shared.table_id;
      seats = b.table.shared.key.seats;
      opened = V.history b.table.shared.key.opened.value;
      input = V.input b.table.shared.key.opened.value;
    } };

    ghost invariant = { λ b. (b.table.shared.table_id.words ≡ 1)
        × (b.table.shared.table_id.slots ≡ 1) × (0 < b.table.shared.key.seats) };
}

impl<V: Grows> TurnBook<V> {
    // Takes the turn if it is free, and else says which hand has it.
    fn try_take(&self, seat: &mut Seat<V>) -> Result<V, u32>
        requires { IsFree self.now seat.old }
        ensures { MatchResult result
            (λ value. Took V.history V.input self.now seat.old value seat.new)
            (λ _. seat.new ≡ seat.old) }
    {
        let hand = u64::from(seat.hand);
        let found = self
            .table
            .shared
            .compare_exchange::<Take>(&mut seat.token, 0, 0, hand);
        if found != 0 {
            return Err((found & 0xffff_ffff) as u32);
        }
        let slot = self.table.shared.exchange(&mut seat.token, 0, None);
        let Some(value) = slot else { unreachable!() };
        Ok(value)
    }

    /// Waits for the turn, and takes the value, which has the book's input. Its history begins with what the seat saw, and the
    /// seat's own entries are all that it has of the seat's hand. The seat then has seen it all. It takes no memory, and promises no
    /// return: it tries a few times, which costs no system call, and then sleeps until a seat that gives the turn up wakes it.
    pub fn take<R: Wait>(&self, rt: &R, seat: &mut Seat<V>) -> V
        requires { IsFree self.now seat.old }
        ensures of_input { V.input result ≡ self.now.input }
        ensures begins { IsBeginning seat.old.seen (V.history result) }
        ensures own { of_hand seat.old.hand (V.history result) ≡ seat.old.mine }
        ensures seat { seat.new ≡ now_at seat.old (V.history result) true }
    {
        for _ in 0..TRIES {
            if let Ok(value) = self.try_take(seat) {
                return value;
            }
            hint::spin_loop();
        }
        self.waiting.fetch_add(1, SeqCst);
        let value = self.take_asleep(rt, seat);
        self.waiting.fetch_sub(1, SeqCst);
        value
    }

    // Takes the turn, and sleeps until it is free. Who gives it up sees `waiting`, and wakes one seat.
    fn take_asleep<R: Wait>(&self, rt: &R, seat: &mut Seat<V>) -> V
        requires { IsFree self.now seat.old }
        ensures { Took V.history V.input self.now seat.old result seat.new }
    {
        for _ in rt.forever() {
            match self.try_take(seat) {
                Ok(value) => return value,
                Err(holder) => self.table.shared.park(rt, 0, holder),
            }
        }
        unreachable!()
    }

    /// Gives the turn up, and the value with it, whose history may have grown by entries of the seat's hand alone. The seat then
    /// has seen that history. It takes no memory, and makes a system call only where a seat sleeps or is about to: it wakes one.
    pub fn give(&self, seat: &mut Seat<V>, value: V)
        requires book { seat.old.book ≡ self.now }
        requires holds { seat.old.holds ≡ true }
        requires of_input { V.input value ≡ self.now.input }
        requires grows { GoesOnBy seat.old.hand seat.old.seen (V.history value) }
        ensures { seat.new ≡ now_at seat.old (V.history value) false }
    {
        let slot = self.table.shared.exchange(&mut seat.token, 0, Some(value));
        let None = slot else { unreachable!() };
        self.table.shared.store::<Give>(&mut seat.token, 0, 0);
        if self.waiting.load(SeqCst) > 0 {
            self.table.shared.wake_one(0);
        }
    }
}
