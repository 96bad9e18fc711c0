//! What a worker does while it holds the board: one call.
ghost use Rattle.std.specs.Prelude.{◌≡◌, ◌&&◌, nat_le, true, false, IfOk, IsTrue};
ghost use Rattle.ps_action.specs.Search.{Fits};
ghost use Rattle.ps_machine.specs.declared.journal.Outcome.{Outcome};
ghost use Rattle.ps_rules.specs.Runs.{has_run, is_running};
ghost use Rattle.ps_turn.specs.Hands.{GoesOnBy};
ghost use Rattle.ps_board.specs.declared.ticks.Snapshot.{Snapshot as SnapshotView};
ghost use Rattle.ps_board.specs.declared.ticks.Ticked.TheVariants.{Over as IsOver, WantsPlan as Wanted};
ghost use Rattle.ps_pool.specs.declared.round_place.Stand.TheVariants.{Failed, Going};
ghost use Rattle.ps_pool.specs.Rounds.{IsWanted};
ghost use Rattle.ps_pool.specs.Workers.{HasStayed, IsOutline, IsThere, MayWork, WasWanted};

use crate::ordered::tick_with_room;
use crate::outline::{Outline, Who, outline_of};
use crate::round_place::{RoundPlace, Stand};
use ps_action::Answer;
use ps_board::{Board, Grant, Snapshot, Ticked, Turn};
use ps_turn::{Seat, TurnBook};
use std::alloc::{AllocError, Global};
use std::sync::Wait;

/// Does the turn of a member.
pub(crate) fn do_turn(board: &mut Board, hand: u8, who: Who) -> Result<Turn, AllocError>
    requires hand { IsTrue (nat_le 1 hand && nat_le hand 16) }
    requires there { IsThere board.old.input who }
    ensures grows { GoesOnBy hand board.old.entries board.new.entries }
    ensures input { board.new.input ≡ board.old.input }
{
    match who {
        Who::Performer(p) => board.performer_turn(hand, p),
        Who::Observer(o) => board.observer_turn(hand, o),
    }
}

/// Does the turn of the ticker, with room for its block. Where it asks the solver, nothing was appended.
pub(crate) fn do_tick(board: &mut Board, hand: u8) -> Result<Ticked, AllocError>
    requires hand { IsTrue (nat_le 1 hand && nat_le hand 16) }
    requires ran { has_run board.old.entries ≡ true }
    ensures wanted { IfOk result (λ t. (s : SnapshotView) → t ≡ Wanted s
        → IsWanted board.old.input board.new.entries s) }
    ensures over { IfOk result (λ t. (how : Outcome) → t ≡ IsOver how
        → is_running board.new.entries ≡ false) }
    ensures grows { GoesOnBy hand board.old.entries board.new.entries }
    ensures input { board.new.input ≡ board.old.input }
{
    tick_with_room(board, hand)
}

/// Hands in a grant. On an error nothing changes, and the grant stays out.
pub(crate) fn do_unit(board: &mut Board, hand: u8, grant: Grant) -> Result<(), AllocError>
    requires hand { IsTrue (nat_le 1 hand && nat_le hand 16) }
    ensures grows { GoesOnBy hand board.old.entries board.new.entries }
    ensures input { board.new.input ≡ board.old.input }
{
    match board.after_unit(hand, grant) {
        Ok(()) => Ok(()),
        Err(_) => Err(AllocError),
    }
}

/// Hands in the solver's answer for a snapshot, which is left where an entry has counted since. On an error nothing
/// changes.
pub(crate) fn do_answer(
    board: &mut Board,
    hand: u8,
    snapshot: Snapshot,
    answer: Answer,
) -> Result<(), AllocError>
    requires hand { IsTrue (nat_le 1 hand && nat_le hand 16) }
    requires asked { WasWanted board.old.input board.old.entries snapshot }
    requires fits { Fits board.old.input.domain snapshot.problem board.old.input.budget answer }
    ensures grows { GoesOnBy hand board.old.entries board.new.entries }
    ensures input { board.new.input ≡ board.old.input }
{
    match board.submit(hand, snapshot, answer) {
        Ok(_) => Ok(()),
        Err(AllocError) => Err(AllocError),
    }
}

/// Takes the turn of a member.
pub(crate) fn take_turn<R: Wait>(
    rt: &R,
    book: &TurnBook<Board>,
    seat: &mut Seat<Board>,
    who: Who,
) -> Result<Turn, AllocError>
    requires seat { MayWork book.now seat.old }
    requires there { IsThere book.now.input who }
    ensures { HasStayed book.now seat.old seat.new }
{
    let mut board = book.take(rt, seat);
    let turn = do_turn(&mut board, seat.hand(), who);
    book.give(seat, board);
    turn
}

/// Takes the turn of the ticker.
pub(crate) fn take_tick<R: Wait>(
    rt: &R,
    book: &TurnBook<Board>,
    seat: &mut Seat<Board>,
) -> Result<Ticked, AllocError>
    requires { MayWork book.now seat.old }
    ensures wanted { IfOk result (λ t. (s : SnapshotView) → t ≡ Wanted s
        → IsWanted book.now.input seat.new.seen s) }
    ensures over { IfOk result (λ t. (how : Outcome) → t ≡ IsOver how
        → is_running seat.new.seen ≡ false) }
    ensures seat { HasStayed book.now seat.old seat.new }
{
    let mut board = book.take(rt, seat);
    let ticked = do_tick(&mut board, seat.hand());
    book.give(seat, board);
    ticked
}

/// Takes the turn to hand in a grant.
pub(crate) fn hand_in<R: Wait>(
    rt: &R,
    book: &TurnBook<Board>,
    seat: &mut Seat<Board>,
    grant: Grant,
) -> Result<(), AllocError>
    requires { MayWork book.now seat.old }
    ensures { HasStayed book.now seat.old seat.new }
{
    let mut board = book.take(rt, seat);
    let handed = do_unit(&mut board, seat.hand(), grant);
    book.give(seat, board);
    handed
}

/// Takes the turn to hand in the solver's answer.
pub(crate) fn answer<R: Wait>(
    rt: &R,
    book: &TurnBook<Board>,
    seat: &mut Seat<Board>,
    snapshot: Snapshot,
    answer: Answer,
) -> Result<(), AllocError>
    requires seat { MayWork book.now seat.old }
    requires asked { IsWanted book.now.input seat.old.seen snapshot }
    requires fits { Fits book.now.input.domain snapshot.problem book.now.input.budget answer }
    ensures { HasStayed book.now seat.old seat.new }
{
    let mut board = book.take(rt, seat);
    let answered = do_answer(&mut board, seat.hand(), snapshot, answer);
    book.give(seat, board);
    answered
}

/// Takes the turn to look at the board before the workers begin.
pub(crate) fn look<R: Wait>(
    rt: &R,
    alloc: Global,
    book: &TurnBook<Board>,
    seat: &mut Seat<Board>,
) -> Result<Outline, AllocError>
    requires { MayWork book.now seat.old }
    ensures outline { IfOk result (IsOutline book.now.input) }
    ensures seat { HasStayed book.now seat.old seat.new }
{
    let board = book.take(rt, seat);
    let outline = outline_of(alloc, &board);
    book.give(seat, board);
    outline
}

/// Takes the turn to halt the run, if one is open: nothing else leads on where memory ran out.
pub(crate) fn halt<R: Wait>(
    rt: &R,
    book: &TurnBook<Board>,
    seat: &mut Seat<Board>,
    round_place: &mut RoundPlace,
)
    requires seat { MayWork book.now seat.old }
    requires failed { round_place.old.stand ≡ Failed }
    ensures seat { HasStayed book.now seat.old seat.new }
    ensures going { round_place.new.stand ≡ Going }
{
    let mut board = book.take(rt, seat);
    board.halt();
    book.give(seat, board);
    round_place.stand = Stand::Going;
}
