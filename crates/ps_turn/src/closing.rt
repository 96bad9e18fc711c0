//! Books are closed.
ghost use Rattle.std.specs.Prelude.{◌≡◌, ◌<◌, false, map};
ghost use Rattle.std.specs.List.{All};
ghost use Rattle.ps_turn.specs.Books.{Agrees, AreAll, IsFree};
ghost use Rattle.ps_turn.specs.Hands.{GoesOnByHands};
ghost use Rattle.ps_turn.specs.Seats.{place_note, HasHands, IsKeeper, Tells};
ghost use Rattle.ps_turn.specs.Turns.{with_note};

use crate::book::TurnBook;
use crate::rule::Gather;
use crate::seat::Seat;
use crate::view::View;
use atomic_table::Seat as Token;
use ps_machine::Grows;

impl<V: Grows> TurnBook<V> {
    /// Closes the book, and gives the value back, which has the book's input. Its history begins with the opening history, and each
    /// later entry has the hand of a seat. It begins with what each seat saw, which begins with the opening history, and each seat's own
    /// entries are all that it has of that seat's hand. It takes no memory.
    pub fn close(self, mut seats: Vec<Seat<V>>) -> V
        requires { AreAll self seats.items }
        ensures of_input { V.input result ≡ self.input }
        ensures grows { GoesOnByHands self.seats self.opened (V.history result) }
        ensures agrees { All (Agrees self.opened (V.history result)) seats.items }
    {
        let last = seats.pop();
        let Some(last) = last else { unreachable!() };
        let keeper = self.gather(last, seats);
        self.finish(keeper)
    }

    // Puts the seats together in the last one's token, with a note of each other.
    fn gather(&self, last: Seat<V>, mut seats: Vec<Seat<V>>) -> Token<Option<V>, View>
        requires last { IsFree self.now last }
        requires seats { All (IsFree self.now) seats.items }
        ensures token { result.table_id ≡ self.now.identity }
        ensures keeper { IsKeeper last result.me.0 }
        ensures notes { result.me.0.notes ≡ map place_note seats.items }
    {
        let Seat {
            hand: _,
            founding: _,
            token: mut keeper,
        } = last;
        while let Some(next) = seats.pop() {
            self.note(&mut keeper, next);
        }
        seats.destroy_empty();
        keeper
    }

    // The keeper takes note of a seat, which is used up.
    fn note(&self, keeper: &mut Token<Option<V>, View>, next: Seat<V>)
        requires token { keeper.old.table_id ≡ self.now.identity }
        requires live { 0 < keeper.old.me.0.hand }
        requires free { IsFree self.now next }
        ensures token { keeper.new.table_id ≡ keeper.old.table_id }
        ensures noted { keeper.new.me
            ≡ (with_note keeper.old.me.0 (place_note next), keeper.old.me.1) }
    {
        let Seat {
            hand: _,
            founding: _,
            token,
        } = next;
        self.table.shared.join_seat::<Gather>(keeper, token);
    }

    // Takes the value out of the slot, where the keeper is the one seat that is left.
    fn finish(self, keeper: Token<Option<V>, View>) -> V
        requires token { keeper.table_id ≡ self.identity }
        requires live { 0 < keeper.me.0.hand }
        requires aside { keeper.me.0.holds ≡ false }
        requires all { HasHands self.seats keeper.me.0 }
        ensures of_input { V.input result ≡ self.input }
        ensures grows { GoesOnByHands self.seats self.opened (V.history result) }
        ensures tells { Tells self.opened (V.history result) keeper.me.0 }
    {
        let TurnBook { table, waiting: _ } = self;
        let mut closed = table.close_with(keeper);
        let slot = closed.take(0);
        closed.free();
        let Some(value) = slot else { unreachable!() };
        value
    }
}
