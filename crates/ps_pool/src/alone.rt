//! Runs in which nothing is to be done beside a unit of work: one worker does them, and holds the board throughout.
ghost use Rattle.std.specs.Prelude.{◌≡◌, ◌≤◌, true};
ghost use Rattle.std.specs.List.{All};
ghost use Rattle.ps_rules.specs.Runs.{has_run};
ghost use Rattle.ps_turn.specs.Hands.{GoesOnByHands};
ghost use Rattle.ps_pool.specs.Workers.{GoesOnAlone, IsThere};

use crate::gate::Gate;
use crate::holds::{do_answer, do_tick, do_turn, do_unit};
use crate::ordered::ask;
use crate::outline::{Who, all_members};
use ps_board::{Board, Ticked, Turn};
use ps_plan::Solver;
use std::alloc::{AllocError, Global};
use std::sync::Wait;

/// Takes the turn of a member, and does its unit of work with it.
fn take_member<R: Wait, G: Gate>(
    rt: &R,
    board: &mut Board,
    gate: &G,
    who: Who,
) -> Result<(), AllocError>
    requires { IsThere board.old.input who }
    ensures { GoesOnAlone board.old board.new }
{
    match do_turn(board, 1, who)? {
        Turn::Work(grant) => {
            gate.unit(rt, &grant);
            do_unit(board, 1, grant)
        }
        Turn::Did | Turn::Nothing => Ok(()),
    }
}

/// Takes the turns of the first of so many workers' own members, or of the others.
fn take_members<R: Wait, G: Gate>(
    rt: &R,
    board: &mut Board,
    gate: &G,
    members: &[Who],
    workers: usize,
    own_members: bool,
) -> Result<(), AllocError>
    requires there { All (IsThere board.old.input) members.now }
    requires some { 1 ≤ workers }
    ensures { GoesOnAlone board.old board.new }
{
    for place in 0..members.len() {
        if (place % workers == 0) == own_members {
            take_member(rt, board, gate, members[place])?;
        }
    }
    Ok(())
}

/// Takes the turn of the ticker. Answers whether the run was seen to be over or halted.
fn take_tick<S: Solver>(board: &mut Board, solver: &S) -> Result<bool, AllocError>
    requires { has_run board.old.entries ≡ true }
    ensures { GoesOnAlone board.old board.new }
{
    match do_tick(board, 1)? {
        Ticked::Over(_) | Ticked::Halted => Ok(true),
        Ticked::Did | Ticked::Nothing => Ok(false),
        Ticked::WantsPlan(snapshot) => {
            let answer = ask(board, solver, &snapshot)?;
            do_answer(board, 1, snapshot, answer)?;
            Ok(false)
        }
    }
}

/// Takes the turns of a round, as `work` has them: of each own member, of the ticker, and of each other member. Answers whether the run
/// was seen to be over or halted.
fn take_round<R: Wait, S: Solver, G: Gate>(
    rt: &R,
    board: &mut Board,
    solver: &S,
    gate: &G,
    members: &[Who],
    workers: usize,
) -> Result<bool, AllocError>
    requires ran { has_run board.old.entries ≡ true }
    requires there { All (IsThere board.old.input) members.now }
    requires some { 1 ≤ workers }
    ensures { GoesOnAlone board.old board.new }
{
    take_members(rt, board, gate, members, workers, true)?;
    if take_tick(board, solver)? {
        return Ok(true);
    }
    take_members(rt, board, gate, members, workers, false)?;
    Ok(false)
}

/// Takes rounds until the run is seen to be over or halted. Where memory runs out it halts the run.
fn take_rounds<R: Wait, S: Solver, G: Gate>(
    rt: &R,
    board: &mut Board,
    solver: &S,
    gate: &G,
    members: &[Who],
    workers: usize,
)
    requires ran { has_run board.old.entries ≡ true }
    requires there { All (IsThere board.old.input) members.now }
    requires some { 1 ≤ workers }
    ensures { GoesOnAlone board.old board.new }
{
    for _ in rt.forever() {
        match take_round(rt, board, solver, gate, members, workers) {
            Ok(false) => {}
            Ok(true) => return,
            Err(AllocError) => {
                board.halt();
                return;
            }
        }
    }
    unreachable!()
}

/// The board of a run once the first of so many workers has done it alone. Where memory runs out the run is as far as it
/// came.
pub(crate) fn work_alone<R: Wait, S: Solver, G: Gate>(
    rt: &R,
    alloc: Global,
    mut board: Board,
    solver: &S,
    gate: &G,
    workers: u8,
) -> Board
    requires opened { has_run board.entries ≡ true }
    requires some { 1 ≤ workers }
    ensures grows { GoesOnByHands workers board.entries result.entries }
    ensures input { result.input ≡ board.input }
{
    if let Ok(members) = all_members(alloc, &board) {
        let members = members.as_slice();
        take_rounds(rt, &mut board, solver, gate, members, usize::from(workers));
    }
    board
}
