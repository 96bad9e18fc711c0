//! Whole sessions.
ghost use Rattle.std.specs.Prelude.{◌≡◌, ℕ, ◌≤◌, drop, length, nat_lt, IfOk, OnOk};
ghost use Rattle.ps_text.specs.Names.{AreNames};
ghost use Rattle.ps_rules.specs.History.{is_mishap, IsHistory, status_of};
ghost use Rattle.ps_rules.specs.Sound.{IsSound};
ghost use Rattle.ps_board.specs.Board.{nothing_done};
ghost use Rattle.ps_replies.specs.Plans.{GivesLeast};
ghost use Rattle.ps_session.specs.Answers.{AskAtEnd};
ghost use Rattle.ps_session.specs.Lines.{acts_in, AsksFor, IsIdle, PutsMore, text_from, WritesLine, WritesLines};
ghost use Rattle.ps_session.specs.Session.{AreTurns, IsJournal, Runs, RunsTo};
ghost use Rattle.ps_session.specs.declared.ways.Turns.TheVariants.{InOrder};

use super::lines::{Advanced, Session, advance};
use super::texts::{write_entries, write_head};
use super::ways::Turns;
use ps_board::Board;
use ps_machine::{By, Entry, Event, Input, Outcome};
use ps_plan::Solver;
use ps_pool::Gate;
use ps_text::{Names, Sink, SinkRefusal, put};
use ps_world::Duplicate;
use std::alloc::{AllocError, Global};
use std::sync::Wait;
use std::thread::Threads;

/// Whether an event refuses a line of the terminal, or ends a run without success.
fn is_mishap(event: &Event) -> bool
    ensures { result ≡ is_mishap event.now }
{
    match event {
        Event::Refused {
            by: By::Terminal(_),
            ..
        } => true,
        Event::Over(outcome) => !matches!(outcome, Outcome::Success),
        _ => false,
    }
}

/// The status of a session with these entries: 1 where a line was refused or a run failed, else 0.
pub fn status_of(entries: &[Entry]) -> u8
    ensures { result ≡ status_of entries.now }
{
    let mut mishap = false;
    for entry in entries {
        mishap |= is_mishap(&entry.what);
    }
    u8::from(mishap)
}

/// Writes the entries that came by one `put`. Answers whether there were some.
fn write_more<O: Sink>(
    alloc: Global,
    names: &Names,
    board: &Board,
    came: &Advanced,
    out: &mut O,
) -> Result<bool, SinkRefusal>
    requires there { came.now.from ≤ length board.now.entries }
    requires asks { AskAtEnd (drop came.now.from board.now.entries) }
    requires told { (k : ℕ) → came.now.from ≤ k
        → AsksFor board.now.input board.now.entries (acts_in came.now.plan) k }
    ensures text { PutsMore
        (text_from names.now board.now.input board.now.entries came.now.from)
        (O.shown out.old) (O.shown out.new) result }
    ensures more { IfOk result
        (λ more. more ≡ nat_lt came.now.from (length board.now.entries)) }
    ensures history { IsHistory board.now.input board.now.entries }
{
    write_entries(alloc, names, board, came.acts(), came.from, out)?;
    Ok(came.from < board.entries().len())
}

impl<'a, S: Solver + Sync, G: Gate + Sync> Session<'a, S, G> {
    /// Answers the next line, if one is left, with the run that it opens, and writes their entries by one `put`. Answers whether one was
    /// left.
    fn write_line<R: Threads + Wait + Sync, O: Sink>(
        &self,
        rt: &R,
        alloc: Global,
        board: Board,
        out: &mut O,
    ) -> (Board, Result<bool, SinkRefusal>)
        requires solver { GivesLeast (S.says self.now.solver.now) }
        requires idle { IsIdle board.input board }
        requires expert { self.now.expert.now ≡ board.input.domain }
        requires turns { AreTurns self.now.turns }
        ensures { WritesLine self.now.turns (S.says self.now.solver.now) board.input
            self.now.names.now board result.0 (O.shown out.old) (O.shown out.new) result.1 }
    {
        let (board, came) = self.advance(rt, alloc, board);
        match came {
            Ok(came) => {
                let more = write_more(alloc, self.names, &board, &came, out);
                (board, more)
            }
            Err(AllocError) => (board, Err(SinkRefusal::OutOfMemory)),
        }
    }

    /// Answers all lines, with the runs that they open, and writes the entries of each by one `put`.
    fn write_lines<R: Threads + Wait + Sync, O: Sink>(
        &self,
        rt: &R,
        alloc: Global,
        mut board: Board,
        out: &mut O,
    ) -> (Board, Result<(), SinkRefusal>)
        requires solver { GivesLeast (S.says self.now.solver.now) }
        requires fresh { board ≡ nothing_done board.input }
        requires expert { self.now.expert.now ≡ board.input.domain }
        requires turns { AreTurns self.now.turns }
        ensures { WritesLines self.now.turns board.input self.now.names.now result.0
            (O.shown out.old) (O.shown out.new) result.1 }
    {
        match write_head(alloc, board.input(), out) {
            Ok(()) => {}
            Err(why) => return (board, Err(why)),
        }
        for _ in rt.forever() {
            let (next, more) = self.write_line(rt, alloc, board, out);
            board = next;
            match more {
                Ok(true) => {}
                Ok(false) => return (board, Ok(())),
                Err(why) => return (board, Err(why)),
            }
        }
        unreachable!()
    }
}

/// Does the session of an input: each line up to the first `quit`, with the runs that they open, whose members take turns like this. It
/// writes the journal: the header, and for each line its entries, with those of its run, by one `put`. The gate is called once for each
/// unit of work. The board is given back once all is written: it has the journal. It promises no return.
pub fn run_to_board<R: Threads + Wait + Sync, S: Solver + Sync, G: Gate + Sync, O: Sink>(
    rt: &R,
    alloc: Global,
    names: &Names,
    input: Input,
    solver: &S,
    gate: &G,
    turns: Turns,
    out: &mut O,
) -> Result<Board, SinkRefusal>
    requires solver { GivesLeast (S.says solver.now) }
    requires names { AreNames names.now }
    requires sound { IsSound input }
    requires turns { AreTurns turns }
    ensures { RunsTo turns input names.now (O.shown out.old) (O.shown out.new) result }
{
    let expert = input.domain.copy(alloc)?;
    let board = Board::open(alloc, input)?;
    let session = Session {
        names,
        expert: &expert,
        solver,
        gate,
        turns,
    };
    let (board, written) = session.write_lines(rt, alloc, board, out);
    match written {
        Ok(()) => Ok(board),
        Err(why) => Err(why),
    }
}

/// Does the session of an input and writes its journal, as `run_to_board` does it. The status is 1 where a line was
/// refused or a run failed, else 0.
pub fn run<R: Threads + Wait + Sync, S: Solver + Sync, G: Gate + Sync, O: Sink>(
    rt: &R,
    alloc: Global,
    names: &Names,
    input: Input,
    solver: &S,
    gate: &G,
    turns: Turns,
    out: &mut O,
) -> Result<u8, SinkRefusal>
    requires solver { GivesLeast (S.says solver.now) }
    requires names { AreNames names.now }
    requires sound { IsSound input }
    requires turns { AreTurns turns }
    ensures { Runs turns input names.now (O.shown out.old) (O.shown out.new) result }
{
    match run_to_board(rt, alloc, names, input, solver, gate, turns, out) {
        Ok(board) => Ok(status_of(board.entries())),
        Err(why) => Err(why),
    }
}

/// Does the session of the input of a board on which nothing was done, as `run` does it by turns in order, but writes nothing: the board has
/// its journal. It promises no return. The only error is that memory ran out, and then the session may be done in part.
pub fn run_unwritten<R: Wait, S: Solver, G: Gate>(
    rt: &R,
    board: &mut Board,
    solver: &S,
    gate: &G,
) -> Result<(), AllocError>
    requires solver { GivesLeast (S.says solver.now) }
    requires fresh { board.old ≡ nothing_done board.old.input }
    ensures { OnOk result (IsJournal InOrder board.old.input board.new.entries) }
{
    for _ in rt.forever() {
        let came = advance(rt, board, solver, gate)?;
        if came.from == board.entries().len() {
            return Ok(());
        }
    }
    unreachable!()
}
