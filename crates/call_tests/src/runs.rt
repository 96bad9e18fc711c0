//! Runs of a board, which stop where memory runs out as a new plan is looked for.
ghost use Rattle.std.specs.Prelude.{◌≡◌, ◌≤◌, true, map, IfOk, OnOk};
ghost use Rattle.ps_action.specs.Search.{answer};
ghost use Rattle.ps_board.specs.Board.{IsAtRest};
ghost use Rattle.ps_rules.specs.Runs.{has_run, is_running};
ghost use Rattle.ps_turn.specs.Books.{hands, new_place};

use super::drained::drained;
use super::judging::judged;
use ps_action::Answer;
use ps_board::{Board, Step};
use ps_domain::Expert;
use ps_inputs::Session;
use ps_journal::print_entry;
use ps_plan::Solver;
use ps_pool::{NoGate, RunStop, run_ordered, run_workers, work};
use ps_problem::Problem;
use ps_replay::Verdict;
use ps_solve::Forward;
use ps_text::Names;
use ps_turn::{Seat, TurnBook};
use ps_world::Duplicate;
use std::alloc::{AllocError, Global};
use std::process::Abort;
use std::str;
use std::sync::Wait;
use std::test::Fail;
use std::thread::Threads;

/// Has no memory for any search.
struct Exhausted;

impl Solver for Exhausted {
    ghost says = { λ _ d k budget. answer d k budget };

    fn solve(
        &self,
        _alloc: Global,
        _expert: &Expert,
        _problem: &Problem,
        _budget: u32,
    ) -> Result<Answer, AllocError> {
        Err(AllocError)
    }
}

/// Does the next line, where no run is open, and answers whether it opened one.
fn opens(board: &mut Board) -> Result<bool, AllocError>
    ensures opened { IfOk result (λ opened. opened ≡ true → is_running board.new.entries ≡ true) }
    ensures rest { IfOk result (λ opened. opened ≡ true → IsAtRest board.new) }
    ensures input { board.new.input ≡ board.old.input }
{
    if board.is_running() {
        return Ok(false);
    }
    board.command(&Forward::new())?;
    Ok(board.is_running())
}

/// Does lines up to the first that opens a run.
fn open_run(board: &mut Board) -> Result<(), Fail>
    ensures opened { OnOk result (is_running board.new.entries ≡ true) }
    ensures rest { OnOk result (IsAtRest board.new) }
{
    for _ in 0..100 {
        if opens(board)? {
            return Ok(());
        }
    }
    Err(Fail::from("no run"))
}

/// The board of the session, before its first line, and its names.
fn board_of(alloc: Global) -> Result<(Box<Names>, Box<Board>), Fail> {
    let Session { names, input, .. } = drained(alloc)?;
    let names = Box::new(alloc, names)?;
    let board = Box::new(alloc, Board::open(alloc, input)?)?;
    Ok((names, board))
}

/// Asserts that all entries of a board begin a history of its input, and that lines are left or a run is open.
fn assert_begun(rt: &impl Abort, alloc: Global, board: &Board) -> Result<(), Fail> {
    let entries = board.entries();
    match judged(alloc, board.input(), entries)? {
        Verdict::Legal => Err(Fail::from("the run is over")),
        Verdict::Illegal { at } => {
            assert_eq!(rt; at, entries.len());
            Ok(())
        }
    }
}

/// Asserts that this is the line of the last entry, and that all entries begin a history.
fn assert_ends(
    rt: &impl Abort,
    alloc: Global,
    names: &Names,
    board: &Board,
    wanted: &str,
) -> Result<(), Fail> {
    let last = board.entries().last().ok_or("no entry")?;
    let line = print_entry(alloc, names, last)?;
    assert_eq!(rt; str::from_utf8(&line)?, wanted);
    assert_begun(rt, alloc, board)
}

fn stop_in_order<R: Wait + Abort>(
    rt: &R,
    alloc: Global,
    names: &Names,
    board: Board,
) -> Result<(), Fail>
    requires opened { is_running board.entries ≡ true }
    requires rest { IsAtRest board }
{
    match run_ordered(rt, board, &Exhausted, &NoGate) {
        Ok(_) => Err(Fail::from("the run ended")),
        Err(RunStop { board }) => assert_ends(rt, alloc, names, &board, "1 stopped 0 weak"),
    }
}

fn stop_workers<R: Threads + Wait + Sync + Abort>(
    rt: &R,
    alloc: Global,
    board: Board,
    expert: &Expert,
) -> Result<(), Fail>
    requires opened { is_running board.entries ≡ true }
    requires rest { IsAtRest board }
    requires expert { expert.now ≡ board.input.domain }
{
    match run_workers(rt, alloc, board, expert, &Exhausted, &NoGate, 2) {
        Ok(_) => Err(Fail::from("the run ended")),
        Err(RunStop { board }) => assert_begun(rt, alloc, &board),
    }
}

/// Has workers at all seats of a book go on with its run, and tells whether it is over then, and was seen to be.
fn is_seen_over<R: Threads + Wait + Sync>(
    rt: &R,
    alloc: Global,
    book: TurnBook<Board>,
    mut seats: Vec<Seat<Board>>,
    expert: &Expert,
) -> bool
    requires opened { has_run book.opened ≡ true }
    requires few { (1 ≤ book.seats) × (book.seats ≤ 16) }
    requires seats { seats.items ≡ map (new_place book) (hands book.seats) }
    requires expert { expert.now ≡ book.input.domain }
{
    let solver = Forward::new();
    let seen = work(
        rt,
        alloc,
        &book,
        seats.as_mut_slice(),
        expert,
        &solver,
        &NoGate,
    );
    let board = book.close(seats);
    seen.is_ok() && !board.is_running()
}

fn work_at_seats<R: Threads + Wait + Sync + Abort>(
    rt: &R,
    alloc: Global,
    board: Board,
    expert: &Expert,
) -> Result<(), Fail>
    requires opened { is_running board.entries ≡ true }
    requires expert { expert.now ≡ board.input.domain }
{
    let Ok((book, seats)) = TurnBook::open(alloc, board, 2) else {
        return Err(Fail::from("no book"));
    };
    let over = is_seen_over(rt, alloc, book, seats, expert);
    assert!(rt; over);
    Ok(())
}

#[test]
fn a_run_in_order_stops(rt: HostRuntime) -> Result<(), Fail> {
    let (names, mut board) = board_of(rt.alloc())?;
    open_run(&mut board)?;
    stop_in_order(&rt, rt.alloc(), &names, Box::into_inner(board))
}

#[test]
fn workers_stop(rt: HostRuntime) -> Result<(), Fail> {
    let (_, mut board) = board_of(rt.alloc())?;
    open_run(&mut board)?;
    let expert = board.input().domain.copy(rt.alloc())?;
    stop_workers(&rt, rt.alloc(), Box::into_inner(board), &expert)
}

#[test]
fn workers_at_seats_see_the_end(rt: HostRuntime) -> Result<(), Fail> {
    let (_, mut board) = board_of(rt.alloc())?;
    open_run(&mut board)?;
    let expert = board.input().domain.copy(rt.alloc())?;
    work_at_seats(&rt, rt.alloc(), Box::into_inner(board), &expert)
}
