//! Runs whose members take turns in order.
ghost use Rattle.std.specs.Prelude.{◌≡◌, ◌+◌, ◌<◌, ◌&&◌, nat_le, true, false, length, slice_get, Some, IfErr, IfOk, IsTrue, OnErr, OnOk};
ghost use Rattle.ps_action.specs.Search.{Fits};
ghost use Rattle.ps_rules.specs.Choices.{Says};
ghost use Rattle.ps_rules.specs.Members.{observers, performers};
ghost use Rattle.ps_rules.specs.Runs.{has_run, is_running};
ghost use Rattle.ps_rules.specs.Sound.{IsSound};
ghost use Rattle.ps_board.specs.Board.{Appended, grants_without, IsAtRest, IsOut, recording, tick_answer, ticking, with_done};
ghost use Rattle.ps_pool.specs.Courses.{GrowsInRun};
ghost use Rattle.ps_pool.specs.Ordered.{EndsAs, StopsAs};
ghost use Rattle.ps_pool.specs.Rounds.{after_answer, after_observer, after_performer, after_ticker, IsWanted, LeadsTo, passed_before, StopsFrom};

use crate::gate::Gate;
use ps_action::Answer;
use ps_board::{Board, Grant, Snapshot, Submitted, Ticked, Turn};
use ps_machine::Member;
use ps_plan::Solver;
use std::alloc::AllocError;
use std::sync::Wait;

/// A run that stopped since memory ran out, and is still open. The entries of its board go on from those handed in.
#[derive(Drop)]
pub struct RunStop {
    pub board: Board,
}

/// Hands in a grant that is out, once its unit is done. On an error nothing changes, and the grant is still out.
fn hand_in(board: &mut Board, grant: Grant) -> Result<(), AllocError>
    requires out { IsOut board.old grant }
    ensures did { OnOk result (Appended 1 (recording board.old grant)
        (record board.old { grants = grants_without board.old grant }) board.new) }
    ensures err { OnErr result (board.new ≡ board.old) }
{
    match board.after_unit(1, grant) {
        Ok(()) => Ok(()),
        Err(_) => Err(AllocError),
    }
}

/// Does the turn of a performer, by its number in the order of the members, and its unit of work with it. On an error
/// no entry is appended, and a grant may be out.
fn take_performer<R: Wait, G: Gate>(
    rt: &R,
    board: &mut Board,
    gate: &G,
    p: u32,
) -> Result<(), AllocError>
    requires rest { IsAtRest board.old }
    requires there { p < length (performers board.old.input) }
    ensures rest { OnOk result (IsAtRest board.new) }
    ensures ok { OnOk result
        (board.new.entries ≡ after_performer board.old.input p board.old.entries) }
    ensures err { OnErr result (board.new.entries ≡ board.old.entries) }
    ensures input { board.new.input ≡ board.old.input }
{
    match board.performer_turn(1, p)? {
        Turn::Work(grant) => {
            gate.unit(rt, &grant);
            hand_in(board, grant)
        }
        Turn::Did | Turn::Nothing => Ok(()),
    }
}

/// Does the turn of an observer, by its number in the order of the members. On an error nothing changes.
fn take_observer(board: &mut Board, o: u32) -> Result<(), AllocError>
    requires rest { IsAtRest board.old }
    requires there { o < length (observers board.old.input) }
    ensures rest { IsAtRest board.new }
    ensures ok { OnOk result
        (board.new.entries ≡ after_observer board.old.input o board.old.entries) }
    ensures err { OnErr result (board.new.entries ≡ board.old.entries) }
    ensures input { board.new.input ≡ board.old.input }
{
    board.observer_turn(1, o)?;
    Ok(())
}

/// The member at this place.
pub(crate) fn member_at(board: &Board, k: usize) -> &Member
    requires { k < length board.now.input.members }
    ensures member { slice_get board.now.input.members k ≡ Some result.now }
    ensures sound { IsSound board.now.input }
{
    &board.input().members.as_slice()[k]
}

/// How many performers and observers have had their turn.
#[derive(Clone, Copy)]
pub(crate) struct Passed {
    pub(crate) performers: u32,
    pub(crate) observers: u32,
}

/// Does the turn of the member at this place, before which so many have had theirs, and answers how many have then. On
/// an error no entry is appended.
fn take_member<R: Wait, G: Gate>(
    rt: &R,
    board: &mut Board,
    gate: &G,
    k: usize,
    passed: Passed,
) -> Result<Passed, AllocError>
    requires rest { IsAtRest board.old }
    requires there { k < length board.old.input.members }
    requires passed { passed ≡ passed_before board.old.input k }
    ensures rest { OnOk result (IsAtRest board.new) }
    ensures passed { IfOk result (λ now. now ≡ passed_before board.old.input (k + 1)) }
    ensures ok { OnOk result ((says : Says)
        → LeadsTo says board.old.input k board.old.entries (k + 1) board.new.entries) }
    ensures err { OnErr result (board.new.entries ≡ board.old.entries) }
    ensures ran { has_run board.old.entries ≡ true → has_run board.new.entries ≡ true }
    ensures input { board.new.input ≡ board.old.input }
{
    match member_at(board, k) {
        Member::Performer(_) => {
            take_performer(rt, board, gate, passed.performers)?;
            Ok(Passed {
                performers: passed.performers + 1,
                observers: passed.observers,
            })
        }
        Member::Observer(_) => {
            take_observer(board, passed.observers)?;
            Ok(Passed {
                performers: passed.performers,
                observers: passed.observers + 1,
            })
        }
    }
}

/// Does the turn of each member, in their order.
fn take_members<R: Wait, G: Gate>(rt: &R, board: &mut Board, gate: &G) -> Result<(), AllocError>
    requires rest { IsAtRest board.old }
    ensures rest { OnOk result (IsAtRest board.new) }
    ensures ok { OnOk result ((says : Says) → LeadsTo says board.old.input 0 board.old.entries
        (length board.old.input.members) board.new.entries) }
    ensures err { OnErr result ((says : Says)
        → StopsFrom says board.old.input 0 board.old.entries board.new.entries) }
    ensures ran { has_run board.old.entries ≡ true → has_run board.new.entries ≡ true }
    ensures input { board.new.input ≡ board.old.input }
{
    let mut passed = Passed {
        performers: 0,
        observers: 0,
    };
    for k in 0..board.input().members.len() {
        passed = take_member(rt, board, gate, k, passed)?;
    }
    Ok(())
}

/// What the solver answers for what is known now, where it is asked. The only error is that memory ran out.
pub(crate) fn ask<S: Solver>(
    board: &Board,
    solver: &S,
    snapshot: &Snapshot,
) -> Result<Answer, AllocError>
    requires asked { IsWanted board.now.input board.now.entries snapshot.now }
    ensures says { IfOk result (λ answer. answer
        ≡ S.says solver.now board.now.input.domain snapshot.now.problem board.now.input.budget) }
    ensures fits { IfOk result (λ answer. Fits board.now.input.domain snapshot.now.problem
        board.now.input.budget answer) }
{
    let input = board.input();
    let problem = snapshot.problem.get();
    solver.solve(problem.allocator(), board.expert(), problem, input.budget)
}

/// Does what follows the solver's answer, where it is asked for what is known now. On an error nothing changes.
fn replan<S: Solver>(board: &mut Board, solver: &S, snapshot: Snapshot) -> Result<(), AllocError>
    requires rest { IsAtRest board.old }
    requires asked { IsWanted board.old.input board.old.entries snapshot }
    ensures rest { IsAtRest board.new }
    ensures ok { OnOk result (board.new.entries
        ≡ after_answer (S.says solver.now) board.old.input board.old.entries) }
    ensures err { OnErr result (board.new.entries ≡ board.old.entries) }
    ensures input { board.new.input ≡ board.old.input }
{
    let answer = ask(board, solver, &snapshot)?;
    match board.submit(1, snapshot, answer)? {
        Submitted::Taken => Ok(()),
        Submitted::Stale { at: _ } => unreachable!(),
    }
}

/// As many entries as a block has at most: that of an event, and a cancel of each act of a plan but one.
const MOST_ENTRIES: u64 = 257;

/// For how many entries room is made at once, so that few turns make any.
const ROOM: u64 = 2 * MOST_ENTRIES;

/// Keeps room for a block where memory allows.
fn make_room(board: &mut Board)
    ensures { board.new ≡ record board.old { spare = board.new.spare } }
{
    if board.spare() < MOST_ENTRIES {
        let _kept = board.reserve(ROOM);
    }
}

/// Does a tick with room kept for its block, so that one which takes only room, as the run's end does, can't fail after
/// it. Where memory has no such room the tick is done without: a halted run, say, is seen to be halted also then. On an
/// error nothing changes but that more may be spare.
pub(crate) fn tick_with_room(board: &mut Board, hand: u8) -> Result<Ticked, AllocError>
    requires hand { IsTrue (nat_le 1 hand && nat_le hand 16) }
    requires ran { has_run board.old.entries ≡ true }
    ensures answer { IfOk result (λ t. t ≡ tick_answer board.old) }
    ensures did { OnOk result (board.new ≡ record board.old {
      entries = with_done board.old hand (ticking board.old);
      spare = board.new.spare;
    }) }
    ensures err { OnErr result (board.new ≡ record board.old { spare = board.new.spare }) }
{
    make_room(board);
    board.tick(hand)
}

/// Does the turn of the ticker, in which the solver answers at once. Answers whether the run was found to be over. On
/// an error nothing changes.
fn take_tick<S: Solver>(board: &mut Board, solver: &S) -> Result<bool, AllocError>
    requires rest { IsAtRest board.old }
    requires ran { has_run board.old.entries ≡ true }
    ensures rest { IsAtRest board.new }
    ensures over { IfOk result (λ over. over ≡ true → is_running board.new.entries ≡ false) }
    ensures ok { OnOk result (board.new.entries
        ≡ after_ticker (S.says solver.now) board.old.input board.old.entries) }
    ensures err { OnErr result (board.new.entries ≡ board.old.entries) }
    ensures input { board.new.input ≡ board.old.input }
{
    match tick_with_room(board, 1)? {
        Ticked::Over(_) => Ok(true),
        Ticked::Did => Ok(false),
        Ticked::Nothing => Ok(false),
        Ticked::WantsPlan(snapshot) => {
            replan(board, solver, snapshot)?;
            Ok(false)
        }
        Ticked::Halted => unreachable!(),
    }
}

/// Does the turn of each member and then that of the ticker. Answers whether the run is over.
fn take_round<R: Wait, S: Solver, G: Gate>(
    rt: &R,
    board: &mut Board,
    solver: &S,
    gate: &G,
) -> Result<bool, AllocError>
    requires rest { IsAtRest board.old }
    requires ran { has_run board.old.entries ≡ true }
    ensures rest { OnOk result (IsAtRest board.new) }
    ensures over { IfOk result (λ over. over ≡ true → is_running board.new.entries ≡ false) }
    ensures ok { OnOk result (LeadsTo (S.says solver.now) board.old.input 0 board.old.entries 0
        board.new.entries) }
    ensures err { OnErr result (StopsFrom (S.says solver.now) board.old.input 0 board.old.entries
        board.new.entries) }
    ensures ran { OnOk result (has_run board.new.entries ≡ true) }
    ensures input { board.new.input ≡ board.old.input }
{
    take_members(rt, board, gate)?;
    take_tick(board, solver)
}

/// What a run has come to in which memory ran out in a turn: that is an error unless the run is over already.
fn stop(board: &Board) -> Result<(), AllocError>
    ensures over { OnOk result (is_running board.now.entries ≡ false) }
    ensures rest { OnOk result (IsAtRest board.now) }
    ensures running { OnErr result (is_running board.now.entries ≡ true) }
{
    if board.is_running() {
        Err(AllocError)
    } else {
        Ok(())
    }
}

/// Goes on with the open run until it is over: each member takes its turn, in their order, and then the ticker, again
/// and again, all with hand 1. A unit of work is done in its performer's turn, and the gate is called once for it. It
/// promises no return. On an error the run is still open and as far as it came, and the grant of a unit that couldn't be
/// handed in may be out.
pub fn go_on<R: Wait, S: Solver, G: Gate>(
    rt: &R,
    board: &mut Board,
    solver: &S,
    gate: &G,
) -> Result<(), AllocError>
    requires opened { is_running board.old.entries ≡ true }
    requires rest { IsAtRest board.old }
    ensures ends { OnOk result (EndsAs (S.says solver.now) board.old.input board.old.entries
        board.new.entries) }
    ensures in_run { GrowsInRun board.old.entries board.new.entries }
    ensures rest { OnOk result (IsAtRest board.new) }
    ensures stops { OnErr result (StopsAs (S.says solver.now) board.old.input board.old.entries
        board.new.entries) }
    ensures input { board.new.input ≡ board.old.input }
{
    for _ in rt.forever() {
        match take_round(rt, board, solver, gate) {
            Ok(true) => return Ok(()),
            Ok(false) => {}
            Err(AllocError) => return stop(board),
        }
    }
    unreachable!()
}

/// Goes on with the open run until it is over, as `go_on` does.
pub fn run_ordered<R: Wait, S: Solver, G: Gate>(
    rt: &R,
    mut board: Board,
    solver: &S,
    gate: &G,
) -> Result<Board, RunStop>
    requires opened { is_running board.entries ≡ true }
    requires rest { IsAtRest board }
    ensures ends { IfOk result
        (λ b. EndsAs (S.says solver.now) board.input board.entries b.entries) }
    ensures in_run { IfOk result (λ b. GrowsInRun board.entries b.entries) }
    ensures rest { IfOk result IsAtRest }
    ensures input { IfOk result (λ b. b.input ≡ board.input) }
    ensures stops { IfErr result
        (λ stop. StopsAs (S.says solver.now) board.input board.entries stop.board.entries) }
    ensures stops_in_run { IfErr result (λ stop. GrowsInRun board.entries stop.board.entries) }
    ensures stops_input { IfErr result (λ stop. stop.board.input ≡ board.input) }
{
    match go_on(rt, &mut board, solver, gate) {
        Ok(()) => Ok(board),
        Err(AllocError) => Err(RunStop { board }),
    }
}
