//! Boards of inputs that are read from texts, and their calls, which do nothing where they may not be made.
ghost use Rattle.std.specs.Prelude.{◌<◌, ◌&&◌, nat_le, IsTrue, length};
ghost use Rattle.ps_rules.specs.Members.{observers};

use super::calls::words_of;
use super::texts::Texts;
use ps_board::{Board, Grant, Step, Ticked, Turn};
use ps_inputs::{Replay, Work, load};
use ps_machine::{Input, Member};
use ps_solve::Forward;
use ps_text::{MemFiles, Names};
use std::alloc::{AllocError, Global};
use std::test::Fail;

/// A board, and the names of its input.
#[derive(Drop)]
pub struct World {
    pub names: Box<Names>,
    pub board: Box<Board>,
}

fn files_of(alloc: Global, texts: Texts) -> Result<MemFiles, AllocError> {
    let mut files = MemFiles::new(alloc);
    files.put_text("d", texts.domain.as_bytes())?;
    files.put_text("s", texts.script.as_bytes())?;
    files.put_text("j", b"")?;
    for (name, text) in texts.members {
        files.put_text(name, text.as_bytes())?;
    }
    Ok(files)
}

fn replay_of(alloc: Global, words: &[String], files: &mut MemFiles) -> Result<Replay, Fail> {
    match load(alloc, words, files)? {
        Work::Replay(replay) => Ok(replay.into_inner()),
        _ => Err(Fail::from("no replay")),
    }
}

fn read(alloc: Global, texts: Texts) -> Result<Replay, Fail> {
    let words = words_of(alloc, texts.words)?;
    let mut files = files_of(alloc, texts)?;
    replay_of(alloc, &words, &mut files)
}

/// The board of an input, before its first line.
pub fn world_of(alloc: Global, texts: Texts) -> Result<World, Fail> {
    let Replay { names, input, .. } = read(alloc, texts)?;
    let names = Box::new(alloc, names)?;
    let board = Box::new(alloc, Board::open(alloc, input)?)?;
    Ok(World { names, board })
}

/// Does the next line.
pub fn command(board: &mut Board) -> Result<Step, AllocError> {
    if board.is_running() {
        return Ok(Step::End);
    }
    board.command(&Forward::new())
}

pub fn tick(board: &mut Board, hand: u8) -> Result<Ticked, AllocError>
    requires { IsTrue (nat_le 1 hand && nat_le hand 16) }
{
    if board.tree().is_none() {
        return Ok(Ticked::Nothing);
    }
    board.tick(hand)
}

pub fn performer_turn(board: &mut Board, hand: u8, p: u32) -> Result<Turn, AllocError>
    requires { IsTrue (nat_le 1 hand && nat_le hand 16) }
{
    if p as usize >= board.grants().len() {
        return Ok(Turn::Nothing);
    }
    board.performer_turn(hand, p)
}

/// Whether the first member is an observer.
pub fn begins_with_observer(input: &Input) -> bool
    ensures { IsTrue result → 0 < length (observers input.now) }
{
    matches!(input.members.as_slice(), [Member::Observer(_), ..])
}

/// The turn of the first observer, where it is the first member.
pub fn observer_turn(board: &mut Board, hand: u8) -> Result<Turn, AllocError>
    requires { IsTrue (nat_le 1 hand && nat_le hand 16) }
{
    if !begins_with_observer(board.input()) {
        return Ok(Turn::Nothing);
    }
    board.observer_turn(hand, 0)
}

pub fn hand_in(board: &mut Board, hand: u8, grant: Grant) -> Result<(), AllocError>
    requires { IsTrue (nat_le 1 hand && nat_le hand 16) }
{
    match board.after_unit(hand, grant) {
        Ok(()) => Ok(()),
        Err(_) => Err(AllocError),
    }
}
