//! Sessions with reports.
ghost use Rattle.std.specs.Prelude.{◌≡◌, [], IfOk};
ghost use Rattle.ps_text.specs.Names.{AreNames};
ghost use Rattle.ps_rules.specs.History.{status_of};
ghost use Rattle.ps_rules.specs.Sound.{IsSound};
ghost use Rattle.ps_hub.specs.Reports.{IsNumbered};
ghost use Rattle.ps_replies.specs.Plans.{GivesLeast};
ghost use Rattle.ps_report_lines.specs.Lines.{report_lines, reporters};
ghost use Rattle.ps_session.specs.Session.{AreTurns};
ghost use Rattle.ps_calls.specs.Reported.{RunsReported};

use ps_board::Board;
use ps_hub::{Belt, Report};
use ps_machine::Input;
use ps_plan::Solver;
use ps_pool::Gate;
use ps_report_lines::{report_lines, reporters};
use ps_reporting::Reporting;
use ps_reports::audit_numbered;
use ps_session::{Turns, run_to_board, status_of};
use ps_text::{Names, Sink, SinkRefusal};
use ps_world::Name;
use std::alloc::{AllocError, Global};
use std::sync::Wait;
use std::thread::Threads;

/// For how many reports a belt has room.
const ROOM: u32 = 256;

/// What came of a session that was written.
#[derive(Drop)]
pub struct Reported {
    /// The status of its journal.
    pub status: u8,
    /// The lines of its reports, if there was memory for them.
    pub lines: Result<Vec<u8>, AllocError>,
}

/// The lines of these reports against the journal of a board, where these are its performers.
fn lines_of(
    alloc: Global,
    names: &Names,
    who: &[Name],
    board: &Board,
    reports: &[Report],
) -> Result<Vec<u8>, AllocError>
    requires who { who.now ≡ reporters board.now.input }
    requires numbered { IsNumbered reports.now }
    ensures { IfOk result (λ text. text.items
        ≡ report_lines names.now board.now.input board.now.entries reports.now) }
{
    let audit = audit_numbered(alloc, board.input(), board.entries(), reports)?;
    report_lines(alloc, names, who, &audit)
}

/// What came of the session of a board, with these reports.
fn outcome_of(
    alloc: Global,
    names: &Names,
    who: &[Name],
    board: &Board,
    reports: &[Report],
) -> Reported
    requires who { who.now ≡ reporters board.now.input }
    requires numbered { IsNumbered reports.now }
    ensures status { result.status ≡ status_of board.now.entries }
    ensures lines { IfOk result.lines (λ text. text.items
        ≡ report_lines names.now board.now.input board.now.entries reports.now) }
{
    Reported {
        status: status_of(board.entries()),
        lines: lines_of(alloc, names, who, board, reports),
    }
}

/// Does the session of an input that has no performer: nobody reports.
fn run_without_reporters<R: Threads + Wait + Sync, S: Solver + Sync, G: Gate + Sync, O: Sink>(
    rt: &R,
    alloc: Global,
    names: &Names,
    input: Input,
    solver: &S,
    gate: &G,
    turns: Turns,
    out: &mut O,
) -> Result<Reported, SinkRefusal>
    requires none { reporters input ≡ [] }
    requires solver { GivesLeast (S.says solver.now) }
    requires names { AreNames names.now }
    requires sound { IsSound input }
    requires turns { AreTurns turns }
    ensures { RunsReported turns input names.now (O.shown out.old) (O.shown out.new) result }
{
    match run_to_board(rt, alloc, names, input, solver, gate, turns, out) {
        Ok(board) => Ok(outcome_of(alloc, names, &[], &board, &[])),
        Err(why) => Err(why),
    }
}

/// Does the session of an input whose performers report with these.
fn run_with_reporters<R: Threads + Wait + Sync, S: Solver + Sync, G: Gate + Sync, O: Sink>(
    rt: &R,
    alloc: Global,
    names: &Names,
    input: Input,
    solver: &S,
    gate: &G,
    turns: Turns,
    reporting: Reporting<'_>,
    out: &mut O,
) -> Result<Reported, SinkRefusal>
    requires who { reporting.who.items ≡ reporters input }
    requires solver { GivesLeast (S.says solver.now) }
    requires names { AreNames names.now }
    requires sound { IsSound input }
    requires turns { AreTurns turns }
    ensures { RunsReported turns input names.now (O.shown out.old) (O.shown out.new) result }
{
    let ran = {
        let gate = reporting.gate(gate);
        run_to_board(rt, alloc, names, input, solver, &gate, turns, out)
    };
    let Reporting { who, pile, .. } = reporting;
    match ran {
        Ok(board) => {
            let mut pile = pile.into_inner();
            let _ = pile.drain(rt);
            Ok(outcome_of(alloc, names, &who, &board, pile.got()))
        }
        Err(why) => Err(why),
    }
}

/// Does the session of an input, as `run_to_board` of ps_session does it. Each performer reports each unit over a belt
/// before the gate is called. Once all is written, the reports that came are held against the journal. It promises no
/// return.
pub fn run_reported<R: Threads + Wait + Sync, S: Solver + Sync, G: Gate + Sync, O: Sink>(
    rt: &R,
    alloc: Global,
    names: &Names,
    input: Input,
    solver: &S,
    gate: &G,
    turns: Turns,
    out: &mut O,
) -> Result<Reported, SinkRefusal>
    requires solver { GivesLeast (S.says solver.now) }
    requires names { AreNames names.now }
    requires sound { IsSound input }
    requires turns { AreTurns turns }
    ensures { RunsReported turns input names.now (O.shown out.old) (O.shown out.new) result }
{
    let who = reporters(alloc, &input)?;
    if who.is_empty() {
        return run_without_reporters(rt, alloc, names, input, solver, gate, turns, out);
    }
    let (belt, desks, tray) = Belt::open(alloc, who.len() as u32, ROOM)?;
    let reporting = Reporting::new(alloc, who, &belt, desks, tray)?;
    run_with_reporters(rt, alloc, names, input, solver, gate, turns, reporting, out)
}
