//! Runs by several workers, each in a thread of its own, which take the board in turns.
ghost use Rattle.std.specs.Prelude.{◌≡◌, ◌<◌, ◌≤◌, ℕ, true, false, length, map, slice_index_or, IfErr, IfOk, OnOk};
ghost use Rattle.std.specs.List.{All};
ghost use Rattle.std.specs.Thread.{IsSync};
ghost use Rattle.ps_rules.specs.History.{IsHistory};
ghost use Rattle.ps_rules.specs.Runs.{has_run, is_running};
ghost use Rattle.ps_turn.specs.Books.{new_place, hands};
ghost use Rattle.ps_turn.specs.Hands.{GoesOnByHands};
ghost use Rattle.ps_board.specs.Board.{IsAtRest};
ghost use Rattle.ps_pool.specs.Workers.{EndedBy, FirstIs, HasLeft, HasSeenOver, HasStayed, IsCrew, IsOutline, IsReady, MayWork, StepsAside, StoppedBy};

use crate::alone::work_alone;
use crate::crew::Crew;
use crate::gate::Gate;
use crate::holds::look;
use crate::lead::Lead;
use crate::ordered::RunStop;
use crate::outline::{Outline, is_for_one};
use crate::round_place::{OutsideWork, RoundPlace};
use crate::searches::Searches;
use ps_board::Board;
use ps_domain::Expert;
use ps_plan::Solver;
use ps_turn::{NotOpened, Seat, TurnBook};
use std::alloc::{AllocError, Global};
use std::sync::Wait;
use std::thread;
use std::thread::Threads;

/// The first of these seats' workers begins in this thread. Answers whether it has seen that the run is over.
#[cycle(seats)]
fn work_all<R: Threads + Wait + Sync, S: Solver + Sync, G: Gate + Sync>(
    rt: &R,
    crew: &Crew<'_, S, G>,
    book: &TurnBook<Board>,
    seats: &mut [Seat<Board>],
) -> bool
    requires seats { All (MayWork book.now) seats.old }
    requires crew { IsCrew book.now.input crew.now.members.now crew.now.expert.now crew.now.budget
        crew.now.workers }
    ensures over { result ≡ true → FirstIs HasSeenOver seats.new }
    ensures seats { (i : ℕ) (d : _) → i < length seats.old
        → HasStayed book.now (slice_index_or seats.old i d) (slice_index_or seats.new i d) }
{
    let Some((seat, rest)) = seats.split_first_mut() else {
        return false;
    };
    let mut round_place = RoundPlace::first();
    work_first(rt, crew, book, seat, &mut round_place, rest);
    round_place.is_over()
}

/// A worker begins. Once it steps aside, those of the other seats are started in the same way.
#[cycle(seats)]
fn work_first<R: Threads + Wait + Sync, S: Solver + Sync, G: Gate + Sync>(
    rt: &R,
    crew: &Crew<'_, S, G>,
    book: &TurnBook<Board>,
    seat: &mut Seat<Board>,
    round_place: &mut RoundPlace,
    rest: &mut [Seat<Board>],
)
    requires ready { IsReady book.now seat.old round_place.old.stand }
    requires rest { All (MayWork book.now) rest.old }
    requires crew { IsCrew book.now.input crew.now.members.now crew.now.expert.now crew.now.budget
        crew.now.workers }
    ensures left { HasLeft seat.new.seen round_place.new.stand }
    ensures seat { HasStayed book.now seat.old seat.new }
    ensures rest { (i : ℕ) (d : _) → i < length rest.old
        → HasStayed book.now (slice_index_or rest.old i d) (slice_index_or rest.new i d) }
{
    let aside = crew.lead_on(rt, book, seat, round_place);
    if rest.is_empty() || aside.is_none() {
        crew.work_on(rt, book, seat, round_place, aside);
    } else {
        work_beside(rt, crew, book, seat, round_place, aside, rest);
    }
}

/// A worker that steps aside goes on beside those of the other seats, in a thread of their own if there are threads.
#[cycle(seats)]
fn work_beside<R: Threads + Wait + Sync, S: Solver + Sync, G: Gate + Sync>(
    rt: &R,
    crew: &Crew<'_, S, G>,
    book: &TurnBook<Board>,
    seat: &mut Seat<Board>,
    round_place: &mut RoundPlace,
    mut aside: Option<OutsideWork>,
    rest: &mut [Seat<Board>],
)
    requires seat { MayWork book.now seat.old }
    requires aside { StepsAside book.now.input aside seat.old.seen round_place.old.stand }
    requires rest { All (MayWork book.now) rest.old }
    requires crew { IsCrew book.now.input crew.now.members.now crew.now.expert.now crew.now.budget
        crew.now.workers }
    ensures left { HasLeft seat.new.seen round_place.new.stand }
    ensures seat { HasStayed book.now seat.old seat.new }
    ensures rest { (i : ℕ) (d : _) → i < length rest.old
        → HasStayed book.now (slice_index_or rest.old i d) (slice_index_or rest.new i d) }
{
    let mut others = ||
        requires { IsSync R.row × IsSync S.row × IsSync G.row × All (MayWork book.now) rest.now
            × IsCrew book.now.input crew.now.members.now crew.now.expert.now crew.now.budget crew.now.workers }
        ensures { (i : ℕ) (d : _) → i < length rest.entry.now
            → HasStayed book.entry.now (slice_index_or rest.entry.now i d) (slice_index_or rest.exit.now i d) }
    {
        work_all(rt, crew, book, rest);
    };
    let mut one = ||
        requires { MayWork book.now seat.now × StepsAside book.now.input aside seat.now.seen round_place.now.stand
            × IsCrew book.now.input crew.now.members.now crew.now.expert.now crew.now.budget crew.now.workers }
        ensures { HasLeft seat.exit.now.seen round_place.exit.now.stand
            × HasStayed book.entry.now seat.entry.now seat.exit.now }
    { crew.work_on(rt, book, seat, round_place, aside.take()) };
    thread::join_mut(rt, &mut others, &mut one);
}

/// The first of these seats looks at the board.
fn look_first<R: Wait>(
    rt: &R,
    alloc: Global,
    book: &TurnBook<Board>,
    seats: &mut [Seat<Board>],
) -> Result<Outline, AllocError>
    requires some { 0 < length seats.old }
    requires seats { All (MayWork book.now) seats.old }
    ensures outline { IfOk result (IsOutline book.now.input) }
    ensures seats { (i : ℕ) (d : _) → i < length seats.old
        → HasStayed book.now (slice_index_or seats.old i d) (slice_index_or seats.new i d) }
{
    let Some((seat, _rest)) = seats.split_first_mut() else {
        unreachable!()
    };
    look(rt, alloc, book, seat)
}

/// Has a worker at each of these seats, all of a book of a board, go on with the run that was opened until it is over.
/// The first begins alone, in this thread, and each other one is started, in a thread of its own if there are threads,
/// when the one before it first steps aside. They take the board in turns, for one call in each, and nothing else is
/// done to it. Each worker repeats rounds: a turn of each own member, one of the ticker, and one of
/// each other member, in the order of the members. The member at place `m`, counted from 0, is an own member of the worker
/// of the hand `m % seats + 1`. Units of work are done between turns, and so is solving: one worker at a time does
/// rounds, and while it steps aside to do a unit or to solve, another goes on. Two at most solve at the same time, and
/// where nothing is to be done before one of those aside hands something in, the others sleep. Afterwards each seat is
/// free again and has seen what it had seen and more; where all went well, the first has seen that the run is over. It
/// promises no return. The only error is that memory ran out: the run is as far as it came, and it may be halted, with
/// grants out.
pub fn work<R: Threads + Wait + Sync, S: Solver + Sync, G: Gate + Sync>(
    rt: &R,
    alloc: Global,
    book: &TurnBook<Board>,
    seats: &mut [Seat<Board>],
    expert: &Expert,
    solver: &S,
    gate: &G,
) -> Result<(), AllocError>
    requires some { 0 < length seats.old }
    requires seats { All (MayWork book.now) seats.old }
    requires expert { expert.now ≡ book.now.input.domain }
    ensures over { OnOk result (FirstIs HasSeenOver seats.new) }
    ensures seats { (i : ℕ) (d : _) → i < length seats.old
        → HasStayed book.now (slice_index_or seats.old i d) (slice_index_or seats.new i d) }
{
    let outline = look_first(rt, alloc, book, seats)?;
    let crew = Crew {
        members: outline.members.as_slice(),
        expert,
        solver,
        gate,
        budget: outline.budget,
        workers: seats.len(),
        lead: Lead::new(),
        searches: Searches::new(),
    };
    if work_all(rt, &crew, book, seats) {
        Ok(())
    } else {
        Err(AllocError)
    }
}

/// The board of a book once workers have worked at all its seats.
fn work_book<R: Threads + Wait + Sync, S: Solver + Sync, G: Gate + Sync>(
    rt: &R,
    alloc: Global,
    book: TurnBook<Board>,
    mut seats: Vec<Seat<Board>>,
    expert: &Expert,
    solver: &S,
    gate: &G,
) -> Board
    requires opened { has_run book.opened ≡ true }
    requires few { (1 ≤ book.seats) × (book.seats ≤ 16) }
    requires seats { seats.items ≡ map (new_place book) (hands book.seats) }
    requires expert { expert.now ≡ book.input.domain }
    ensures grows { GoesOnByHands book.seats book.opened result.entries }
    ensures input { result.input ≡ book.input }
{
    let _over = work(rt, alloc, &book, seats.as_mut_slice(), expert, solver, gate);
    book.close(seats)
}

/// The board as its workers left it: the run has ended, or it was stopped.
fn settle(board: Board) -> Result<Board, RunStop>
    ensures history { IsHistory board.input board.entries }
    ensures closed { IfOk result (λ b. is_running b.entries ≡ false) }
    ensures rest { IfOk result IsAtRest }
    ensures same { IfOk result (λ b. b ≡ board) }
    ensures stopped { IfErr result (λ stop. stop.board ≡ board) }
    ensures running { IfErr result (λ stop. is_running stop.board.entries ≡ true) }
{
    let _history = board.entries();
    if board.is_running() {
        Err(RunStop { board })
    } else {
        Ok(board)
    }
}

/// Has the first of so many workers go on alone with the open run until it is over.
fn run_alone<R: Wait, S: Solver, G: Gate>(
    rt: &R,
    alloc: Global,
    board: Board,
    solver: &S,
    gate: &G,
    workers: u8,
) -> Result<Board, RunStop>
    requires opened { is_running board.entries ≡ true }
    requires some { 1 ≤ workers }
    ensures ended { IfOk result (λ b. EndedBy workers board.input board.entries b.entries) }
    ensures rest { IfOk result IsAtRest }
    ensures input { IfOk result (λ b. b.input ≡ board.input) }
    ensures stopped { IfErr result
        (λ stop. StoppedBy workers board.input board.entries stop.board.entries) }
    ensures stopped_input { IfErr result (λ stop. stop.board.input ≡ board.input) }
{
    settle(work_alone(rt, alloc, board, solver, gate, workers))
}

/// A run that stops as it is, since there was no memory for a book.
fn stopped(refused: NotOpened<Board>) -> RunStop
    ensures { result.board ≡ refused.value }
{
    let NotOpened { value } = refused;
    RunStop { board: value }
}

/// Goes on with the open run until it is over, by at most this many workers: the board is put into a book with a seat
/// for each, they `work` at these seats, and the book is closed. The worker at place `w` has the hand `w + 1`. A run of
/// one act without observers is done by the first alone, in the same order, since nothing is to be done beside its
/// units of work: it holds the board throughout, and no book is opened. It promises no return. The only error is that
/// memory ran out: the run is still open and as far as it came, and it may be halted, with grants out.
pub fn run_workers<R: Threads + Wait + Sync, S: Solver + Sync, G: Gate + Sync>(
    rt: &R,
    alloc: Global,
    board: Board,
    expert: &Expert,
    solver: &S,
    gate: &G,
    workers: u8,
) -> Result<Board, RunStop>
    requires opened { is_running board.entries ≡ true }
    requires rest { IsAtRest board }
    requires workers { (1 ≤ workers) × (workers ≤ 16) }
    requires expert { expert.now ≡ board.input.domain }
    ensures ended { IfOk result (λ b. EndedBy workers board.input board.entries b.entries) }
    ensures rest { IfOk result IsAtRest }
    ensures input { IfOk result (λ b. b.input ≡ board.input) }
    ensures stopped { IfErr result
        (λ stop. StoppedBy workers board.input board.entries stop.board.entries) }
    ensures stopped_input { IfErr result (λ stop. stop.board.input ≡ board.input) }
{
    let _history = board.entries();
    if is_for_one(&board) {
        return run_alone(rt, alloc, board, solver, gate, workers);
    }
    match TurnBook::open(alloc, board, workers) {
        Ok((book, seats)) => settle(work_book(rt, alloc, book, seats, expert, solver, gate)),
        Err(refused) => Err(stopped(refused)),
    }
}
