//! A run in which room is made before each round, and what may be asked of its last board.
use super::in_order::open_run;
use super::texts::CHARGING;
use super::worlds::{World, hand_in, performer_turn, tick, world_of};
use ps_board::{Board, Ticked, Turn};
use std::process::Abort;
use std::test::Fail;

/// Does a turn of each of the three performers, and the work that it hands out.
fn take_turns(board: &mut Board) -> Result<(), Fail> {
    for p in 0..3 {
        if let Turn::Work(grant) = performer_turn(board, 1, p)? {
            hand_in(board, 1, grant)?;
        }
    }
    Ok(())
}

/// Does rounds up to the end of the run, each after room was made for four entries.
fn end_run(board: &mut Board) -> Result<(), Fail> {
    for _ in 0..100 {
        board.reserve(4)?;
        take_turns(board)?;
        if let Ticked::Over(_) = tick(board, 1)? {
            return Ok(());
        }
    }
    Err(Fail::from("the run goes on"))
}

/// Asserts what is told of the last board, and that room for more entries than any memory has is an error that changes nothing.
fn assert_last(rt: &impl Abort, world: &mut World) -> Result<(), Fail> {
    let robot = world.names.intern(b"robot").map_err(|_| "no name")?;
    let robot_at = world.names.intern(b"robot_at").map_err(|_| "no name")?;
    let board = &mut world.board;
    assert!(rt; board.reserve(u64::MAX).is_err());
    board.reserve(300)?;
    assert_eq!(rt; board.entries().len(), 55);
    let problem = board.problem();
    assert_eq!(rt; problem.facts_of(robot_at)?.len(), 1);
    assert_eq!(rt; problem.instances_of(board.expert(), robot)?.len(), 1);
    Ok(())
}

fn assert_reserves(rt: &impl Abort, world: &mut World) -> Result<(), Fail> {
    open_run(&mut world.board)?;
    end_run(&mut world.board)?;
    assert_last(rt, world)
}

#[test]
fn makes_room(rt: HostRuntime) -> Result<(), Fail> {
    let mut world = world_of(rt.alloc(), CHARGING)?;
    assert_reserves(&rt, &mut world)
}
