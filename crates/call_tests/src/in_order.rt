//! Runs whose calls are made in order.
use super::texts::{DRAINED, KITCHEN};
use super::worlds::{World, command, hand_in, observer_turn, performer_turn, tick, world_of};
use ps_board::{Board, Grant, Step, Ticked, Turn};
use ps_boxes::Boxed;
use ps_journal::print_entry;
use ps_machine::{Entry, Unit};
use ps_text::Names;
use std::alloc::Global;
use std::process::Abort;
use std::str;
use std::test::Fail;

const AT_FIRST: &str = "parallel running
  sequence idle
    act 0 idle
  sequence idle
    act 1 idle
";

const AT_LAST: &str = "parallel success
  sequence success
    act 0 success
  sequence success
    act 1 success
";

/// The journal of the run.
const JOURNAL: &str = "0 run goal (move leia entrance kitchen) (move r2 entrance kitchen)
1 start 0
1 request 0 0
1 offer 0 worker
1 confirm 0 worker
1 begin 0 worker
1 start 1
1 unitwork 0 worker
1 request 1 1
1 pass 1 worker busy
1 unserved 1
1 unitwork 0 worker
1 finish 0 worker ok
1 end 0
1 request 2 1
1 offer 2 worker
1 confirm 2 worker
1 begin 2 worker
1 unitwork 2 worker
1 unitwork 2 worker
1 finish 2 worker ok
1 end 1
1 over success
";

/// The lines of the entries after the first ten, which set the stage.
pub fn printed(alloc: Global, names: &Names, entries: &[Entry]) -> Result<Vec<u8>, Fail> {
    let mut text = Vec::new(alloc);
    for entry in entries.iter().skip(10) {
        text.extend_from_slice(&print_entry(alloc, names, entry)?)?;
        text.push(b'\n')?;
    }
    Ok(text)
}

fn assert_tree(rt: &impl Abort, board: &Board, wanted: &str) -> Result<(), Fail> {
    let tree = board.tree().ok_or("no tree")?;
    assert_eq!(rt; str::from_utf8(&tree.text()?)?, wanted);
    Ok(())
}

/// Does lines up to the first that opens a run, and tells how many.
pub fn open_run(board: &mut Board) -> Result<u32, Fail> {
    for lines in 1..100 {
        if let Step::Opened = command(board)? {
            return Ok(lines);
        }
    }
    Err(Fail::from("no run"))
}

/// Hands in a grant, and, if that is to be, an equal one after a unit of plain work, which adds no entry.
fn work(rt: &impl Abort, board: &mut Board, grant: Grant, twice: bool) -> Result<(), Fail> {
    let Grant { r, by, unit: _ } = grant;
    hand_in(board, 1, grant)?;
    if twice {
        let count = board.entries().len();
        let unit = Boxed::new(board.problem().allocator(), Unit::Work)?;
        hand_in(board, 1, Grant { r, by, unit })?;
        assert_eq!(rt; board.entries().len(), count);
    }
    Ok(())
}

/// Does turns of the ticker and of the first performer up to its next grant, if one comes before the run is over.
fn next_grant(board: &mut Board) -> Result<Option<Grant>, Fail> {
    for _ in 0..100 {
        if let Ticked::Over(_) = tick(board, 1)? {
            return Ok(None);
        }
        if let Turn::Work(grant) = performer_turn(board, 1, 0)? {
            return Ok(Some(grant));
        }
    }
    Err(Fail::from("the run goes on"))
}

fn end_run(rt: &impl Abort, board: &mut Board, twice: bool) -> Result<(), Fail> {
    for _ in 0..100 {
        match next_grant(board)? {
            Some(grant) => work(rt, board, grant, twice)?,
            None => return Ok(()),
        }
    }
    Err(Fail::from("the run goes on"))
}

fn assert_run(rt: &impl Abort, alloc: Global, world: &mut World, twice: bool) -> Result<(), Fail> {
    let board = &mut world.board;
    assert_eq!(rt; open_run(board)?, 11);
    assert_tree(rt, board, AT_FIRST)?;
    end_run(rt, board, twice)?;
    assert_tree(rt, board, AT_LAST)?;
    let text = printed(alloc, &world.names, board.entries())?;
    assert_eq!(rt; str::from_utf8(&text)?, JOURNAL);
    Ok(())
}

#[test]
fn runs_in_order(rt: HostRuntime) -> Result<(), Fail> {
    let mut world = world_of(rt.alloc(), KITCHEN)?;
    assert_run(&rt, rt.alloc(), &mut world, false)
}

#[test]
fn takes_a_grant_once(rt: HostRuntime) -> Result<(), Fail> {
    let mut world = world_of(rt.alloc(), KITCHEN)?;
    assert_run(&rt, rt.alloc(), &mut world, true)
}

/// Asserts that members do nothing in a halted run.
fn assert_idle(rt: &impl Abort, board: &mut Board) -> Result<(), Fail> {
    assert!(rt; matches!(performer_turn(board, 2, 0)?, Turn::Nothing));
    assert!(rt; matches!(performer_turn(board, 2, 1)?, Turn::Nothing));
    assert!(rt; matches!(observer_turn(board, 2)?, Turn::Nothing));
    Ok(())
}

/// Asserts that no turn does anything in a halted run, and how many entries there are.
fn assert_halted(rt: &impl Abort, board: &mut Board, count: usize) -> Result<(), Fail> {
    assert!(rt; matches!(tick(board, 2)?, Ticked::Halted));
    assert_idle(rt, board)?;
    assert_eq!(rt; board.entries().len(), count);
    Ok(())
}

fn assert_halts(rt: &impl Abort, board: &mut Board) -> Result<(), Fail> {
    board.halt();
    open_run(board)?;
    let grant = next_grant(board)?.ok_or("no grant")?;
    let count = board.entries().len();
    board.halt();
    assert_halted(rt, board, count)?;
    hand_in(board, 2, grant)?;
    assert_halted(rt, board, count + 1)
}

#[test]
fn halts(rt: HostRuntime) -> Result<(), Fail> {
    let mut world = world_of(rt.alloc(), DRAINED)?;
    assert_halts(&rt, &mut world.board)
}
