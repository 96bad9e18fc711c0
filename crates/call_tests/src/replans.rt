//! A run whose plan fails, so that the solver is asked for another one.
ghost use Rattle.std.specs.Prelude.{◌≡◌, true, IfOk, IsSome, OnOk, take};
ghost use Rattle.ps_action.specs.Search.{Fits};
ghost use Rattle.ps_stale_plan_laws.specs.Asked.{WasAsked};
ghost use Rattle.call_tests.specs.Asked.{KeepsAsked};
ghost use Rattle.ps_rules.specs.Known.{know};
ghost use Rattle.ps_rules.specs.Runs.{has_run};

use super::in_order::{open_run, printed};
use super::texts::UNMOVED;
use super::worlds::{World, begins_with_observer, performer_turn, tick, world_of};
use ps_action::Answer;
use ps_board::{Board, Snapshot, Submitted, Ticked, Turn};
use ps_plan::Solver;
use ps_solve::Forward;
use std::alloc::Global;
use std::process::Abort;
use std::str;
use std::test::Fail;

/// The journal of the run.
const JOURNAL: &str = "0 run goal (move leia entrance kitchen)
1 start 0
1 request 0 0
1 pass 0 charger other
1 fail 0 noperformer
1 edit observer late set predicate (battery_low leia)
1 over failed noplan
";

/// Does a tick that hands a snapshot out.
fn asked(board: &mut Board) -> Result<Snapshot, Fail>
    requires { has_run board.old.entries ≡ true }
    ensures asked { IfOk result (λ s. WasAsked board.new.input board.new.entries s.at) }
    ensures known { IfOk result
        (λ s. s.problem ≡ know board.new.input (take s.at board.new.entries)) }
{
    match board.tick(1)? {
        Ticked::WantsPlan(snapshot) => Ok(snapshot),
        _ => Err(Fail::from("no plan is wanted")),
    }
}

/// What the solver answers.
fn answer(alloc: Global, board: &Board, snapshot: &Snapshot) -> Result<Answer, Fail>
    requires { IsSome snapshot.now.problem.goal }
    ensures { IfOk result (λ a. Fits board.now.input.domain snapshot.now.problem
        board.now.input.budget a) }
{
    let budget = board.input().budget;
    let answer = Forward::new().solve(alloc, board.expert(), snapshot.problem.get(), budget)?;
    Ok(answer)
}

/// Lets the first member take its turn, if that is to be and it is an observer.
fn let_edit(board: &mut Board, late: bool) -> Result<(), Fail>
    ensures kept { OnOk result (KeepsAsked board.old board.new) }
    ensures input { board.new.input ≡ board.old.input }
{
    if late && begins_with_observer(board.input()) {
        board.observer_turn(1, 0)?;
    }
    Ok(())
}

/// Asks the solver, which is told of so many entries, and submits its answer, where that is to be after an edit.
fn submits(
    rt: &impl Abort,
    alloc: Global,
    board: &mut Board,
    at: u64,
    late: bool,
) -> Result<Submitted, Fail> {
    if board.tree().is_none() {
        return Err(Fail::from("no run"));
    }
    let snapshot = asked(board)?;
    assert_eq!(rt; snapshot.at, at);
    let answer = answer(alloc, board, &snapshot)?;
    let_edit(board, late)?;
    let submitted = board.submit(1, snapshot, answer)?;
    Ok(submitted)
}

/// Asserts that the run opens, and that its one act starts and is put up.
fn assert_puts_up(rt: &impl Abort, board: &mut Board) -> Result<(), Fail> {
    assert_eq!(rt; open_run(board)?, 11);
    assert!(rt; matches!(tick(board, 1)?, Ticked::Did));
    assert!(rt; matches!(tick(board, 1)?, Ticked::Did));
    Ok(())
}

/// Asserts that the performer passes, and that the act fails.
fn assert_fails(rt: &impl Abort, board: &mut Board) -> Result<(), Fail> {
    assert!(rt; matches!(performer_turn(board, 1, 0)?, Turn::Did));
    assert!(rt; matches!(tick(board, 1)?, Ticked::Did));
    Ok(())
}

/// Asserts that an answer to what was known before is stale, and that one to what is known is taken.
fn assert_answers(rt: &impl Abort, alloc: Global, board: &mut Board) -> Result<(), Fail> {
    let stale = submits(rt, alloc, board, 15, true)?;
    assert!(rt; matches!(stale, Submitted::Stale { at: 15 }));
    let taken = submits(rt, alloc, board, 16, false)?;
    assert!(rt; matches!(taken, Submitted::Taken));
    Ok(())
}

fn assert_written(rt: &impl Abort, alloc: Global, world: &World) -> Result<(), Fail> {
    let text = printed(alloc, &world.names, world.board.entries())?;
    assert_eq!(rt; str::from_utf8(&text)?, JOURNAL);
    Ok(())
}

fn assert_replans(rt: &impl Abort, alloc: Global, world: &mut World) -> Result<(), Fail> {
    let board = &mut world.board;
    assert_puts_up(rt, board)?;
    assert_fails(rt, board)?;
    assert_answers(rt, alloc, board)?;
    assert_written(rt, alloc, world)
}

#[test]
fn takes_an_answer_in_time(rt: HostRuntime) -> Result<(), Fail> {
    let mut world = world_of(rt.alloc(), UNMOVED)?;
    assert_replans(&rt, rt.alloc(), &mut world)
}
