//! Sessions whose calls are made in random order.
ghost use Rattle.std.specs.Prelude.{◌&&◌, nat_le, IsTrue};

use super::dice::Dice;
use super::judging::judged;
use super::texts::{DRAINED, FAILING, Texts, WAREHOUSE};
use super::worlds::{command, hand_in, observer_turn, performer_turn, tick, world_of};
use ps_board::{Board, Grant, Step, Turn};
use ps_boxes::Boxed;
use ps_machine::{Event, PassWhy, Unit};
use ps_replay::Verdict;
use ps_world::Name;
use std::alloc::{AllocError, Global};
use std::process::Abort;
use std::test::Fail;

/// What came in sessions.
#[derive(Clone, Copy)]
struct Seen {
    cancel: bool,
    stopped: bool,
    busy: bool,
    unserved: bool,
    /// A session was whole.
    whole: bool,
    /// A run was still open at the end.
    open: bool,
}

impl Seen {
    fn new() -> Seen {
        Seen {
            cancel: false,
            stopped: false,
            busy: false,
            unserved: false,
            whole: false,
            open: false,
        }
    }

    fn take(&mut self, event: &Event) {
        match event {
            Event::Cancel { act: _, why: _ } => self.cancel = true,
            Event::Stopped { r: _, by: _ } => self.stopped = true,
            Event::Pass {
                r: _,
                by: _,
                why: PassWhy::Busy,
            } => self.busy = true,
            Event::Unserved(_) => self.unserved = true,
            _ => {}
        }
    }
}

/// A performer's turn. A grant is put with those that are out.
fn perform(board: &mut Board, out: &mut Vec<Grant>, hand: u8, p: u32) -> Result<(), AllocError>
    requires { IsTrue (nat_le 1 hand && nat_le hand 16) }
{
    if let Turn::Work(grant) = performer_turn(board, hand, p)? {
        out.push(grant)?;
    }
    Ok(())
}

/// Takes one of the grants that are out, or makes one up.
fn some_grant(alloc: Global, out: &mut Vec<Grant>, dice: &mut Dice) -> Result<Grant, AllocError> {
    let i = dice.roll(out.len() as u64 + 1) as usize;
    if i < out.len() {
        Ok(out.swap_remove(i))
    } else {
        Ok(Grant {
            r: dice.roll(8),
            by: Name(dice.roll(30) as u32),
            unit: Boxed::new(alloc, Unit::Work)?,
        })
    }
}

/// Does a random call.
fn call(board: &mut Board, out: &mut Vec<Grant>, dice: &mut Dice) -> Result<(), AllocError> {
    let hand = dice.roll(16) as u8 + 1;
    match dice.roll(5) {
        0 | 1 => {
            tick(board, hand)?;
            Ok(())
        }
        2 => perform(board, out, hand, dice.roll(2) as u32),
        3 => {
            observer_turn(board, hand)?;
            Ok(())
        }
        _ => {
            let grant = some_grant(board.problem().allocator(), out, dice)?;
            hand_in(board, hand, grant)
        }
    }
}

/// Does a random call, or, where no run is open, maybe the next line. Tells whether the session has ended.
fn go_on(board: &mut Board, out: &mut Vec<Grant>, dice: &mut Dice) -> Result<bool, AllocError> {
    if board.is_running() || dice.roll(4) == 0 {
        call(board, out, dice)?;
        Ok(false)
    } else {
        Ok(matches!(command(board)?, Step::End))
    }
}

/// Does random calls until the session has ended, at most so many.
fn play(alloc: Global, board: &mut Board, seed: u64) -> Result<(), AllocError> {
    let mut dice = Dice { state: seed };
    let mut out = Vec::new(alloc);
    for _ in 0..600 {
        if go_on(board, &mut out, &mut dice)? {
            break;
        }
    }
    Ok(())
}

/// Judges the entries, and tells whether it answers what it should: that they are a whole session, or, where a run is
/// still open, that all of them begin one.
fn judge(alloc: Global, board: &Board, seen: &mut Seen) -> Result<bool, AllocError> {
    let entries = board.entries();
    for entry in entries {
        seen.take(&entry.what);
    }
    let open = board.is_running();
    match judged(alloc, board.input(), entries)? {
        Verdict::Legal => {
            seen.whole = true;
            Ok(!open)
        }
        Verdict::Illegal { at } => {
            seen.open = true;
            Ok(open && at == entries.len())
        }
    }
}

fn session(alloc: Global, texts: Texts, seed: u64, seen: &mut Seen) -> Result<bool, Fail> {
    let mut world = world_of(alloc, texts)?;
    play(alloc, &mut world.board, seed)?;
    Ok(judge(alloc, &world.board, seen)?)
}

/// Does sessions of an input with many seeds. Some are whole.
fn assert_sessions(
    rt: &impl Abort,
    alloc: Global,
    texts: Texts,
    seen: &mut Seen,
) -> Result<(), Fail> {
    seen.whole = false;
    for seed in 1..101 {
        assert!(rt;
            session(alloc, texts, seed, seen)?,
            "{} {seed}",
            texts.words
        );
    }
    assert!(rt; seen.whole);
    Ok(())
}

#[test]
fn runs_in_any_order(rt: HostRuntime) -> Result<(), Fail> {
    let mut seen = Seen::new();
    for texts in [DRAINED, FAILING, WAREHOUSE] {
        assert_sessions(&rt, rt.alloc(), texts, &mut seen)?;
    }
    assert!(rt; seen.cancel && seen.stopped && seen.busy && seen.unserved && seen.open);
    Ok(())
}
