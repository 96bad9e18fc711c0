//! Doing the work of a call.
ghost use Rattle.ps_world.specs.DomainTexts.{domain_text};
ghost use Rattle.ps_text.specs.Names.{AreNames};
ghost use Rattle.ps_audit.specs.Findings.{finding_status};
ghost use Rattle.ps_inputs.specs.declared.works.Work.TheVariants.{Session as ASession, Generation as AGeneration, Validation as AValidation, Planning as APlanning, Replay as AReplay, Editing as AnEditing};
ghost use Rattle.std.specs.Prelude.{◌≡◌, ◌≤◌, IfOk};
ghost use Rattle.ps_board.specs.Board.{nothing_done};
ghost use Rattle.ps_gen.specs.Summary.{summary_text};
ghost use Rattle.ps_rules.specs.History.{status_of};
ghost use Rattle.ps_session.specs.Session.{AreTurns};
ghost use Rattle.ps_calls.specs.Reported.{RunsReported};
ghost use Rattle.ps_calls.specs.Headline.{CountsSession, Finds, IsQuiet, Performs, WritesWithStatus, plan_after, turns_of, verdict_after};
ghost use Rattle.ps_calls.specs.Verdicts.{verdict_line, verdict_status};

use super::reported::{Reported, run_reported};
use super::verdicts::{verdict_line, verdict_status};
use ps_audit::{Audited, audit, finding_status};
use ps_board::Board;
use ps_domain::Expert;
use ps_editing::run_edits;
use ps_gen::summary;
use ps_inputs::{Editing, Generation, Planning, Replay, Session, Validation, Work};
use ps_machine::{Entry, Input, Line};
use ps_pddl::print_domain;
use ps_planned::{Told, plan_told};
use ps_pool::Gate;
use ps_session::{Turns, run, run_unwritten, status_of};
use ps_solve::Forward;
use ps_text::{Names, Sink, SinkRefusal, put};
use ps_validate::{Invalid, known_after, verdict};
use ps_world::Domain;
use std::alloc::{AllocError, Global};
use std::sync::Wait;
use std::thread::Threads;

/// Does work that always returns, and gives its status: 0 for a check, 0 or 7 for a plan and for a journal, 0 or 1 for a problem that is
/// prepared.
pub fn perform_quiet<O: Sink>(alloc: Global, work: Work, out: &mut O) -> Result<u8, SinkRefusal>
    requires { IsQuiet work }
    ensures { Performs work (O.shown out.old) (O.shown out.new) result }
{
    match work {
        Work::Check(asked) => check(alloc, &asked.get().names, &asked.get().domain, out),
        Work::Validation(validation) => validate(alloc, validation.into_inner(), out),
        Work::Replay(replay) => do_replay(alloc, replay.into_inner(), out),
        Work::Editing(editing) => do_edit(alloc, editing.into_inner(), out),
        Work::Session(_) | Work::Generation(_) | Work::Planning(_) => unreachable!(),
    }
}

/// How the members of a session's runs take their turns.
fn turns_of(session: &Session) -> Turns
    ensures turns { result ≡ turns_of session.now }
    ensures workers { AreTurns result }
{
    if session.ordered {
        Turns::InOrder
    } else {
        Turns::Workers(session.workers)
    }
}

/// Does a session, and writes its journal. The status is 1 where a line was refused or a run failed, else 0.
pub fn do_session<R: Threads + Wait + Sync, G: Gate + Sync, O: Sink>(
    rt: &R,
    alloc: Global,
    session: Session,
    gate: &G,
    out: &mut O,
) -> Result<u8, SinkRefusal>
    ensures { Performs (ASession session) (O.shown out.old) (O.shown out.new) result }
{
    let turns = turns_of(&session);
    let Session { names, input, .. } = session;
    let solver = Forward::new();
    run(rt, alloc, &names, input, &solver, gate, turns, out)
}

/// Does a session whose performers report what they do, and writes its journal. Its status is that of one without
/// reports; the lines of the reports are given.
pub fn do_reported_session<R: Threads + Wait + Sync, G: Gate + Sync, O: Sink>(
    rt: &R,
    alloc: Global,
    session: Session,
    gate: &G,
    out: &mut O,
) -> Result<Reported, SinkRefusal>
    ensures { RunsReported (turns_of session) session.input session.names (O.shown out.old)
        (O.shown out.new) result }
{
    let turns = turns_of(&session);
    let Session { names, input, .. } = session;
    let solver = Forward::new();
    run_reported(rt, alloc, &names, input, &solver, gate, turns, out)
}

/// Does the session of the generator's texts, and writes the counts of its journal. The status is that of the session.
pub fn do_generation<R: Wait, G: Gate, O: Sink>(
    rt: &R,
    alloc: Global,
    generation: Generation,
    gate: &G,
    out: &mut O,
) -> Result<u8, SinkRefusal>
    ensures { Performs (AGeneration generation) (O.shown out.old) (O.shown out.new) result }
{
    let Generation { carts, input, .. } = generation;
    let mut board = Board::open(alloc, input)?;
    count_session(rt, alloc, carts, &mut board, gate, out)
}

/// Does the session of the input of a board on which nothing was done, and writes the counts of its journal. The status is that of the
/// session.
fn count_session<R: Wait, G: Gate, O: Sink>(
    rt: &R,
    alloc: Global,
    carts: u32,
    board: &mut Board,
    gate: &G,
    out: &mut O,
) -> Result<u8, SinkRefusal>
    requires { board.old ≡ nothing_done board.old.input }
    ensures { CountsSession board.old.input carts (O.shown out.old) (O.shown out.new) result }
{
    let solver = Forward::new();
    run_unwritten(rt, board, &solver, gate)?;
    write_summary(alloc, carts, board.entries(), out)
}

/// Writes the counts of a journal. The status is that of its session.
fn write_summary<O: Sink>(
    alloc: Global,
    carts: u32,
    entries: &[Entry],
    out: &mut O,
) -> Result<u8, SinkRefusal>
    ensures { WritesWithStatus (summary_text carts entries.now) (status_of entries.now)
        (O.shown out.old) (O.shown out.new) result }
{
    let counts = summary(alloc, carts, entries)?;
    put(out, counts.as_slice())?;
    Ok(status_of(entries))
}

/// Writes the canonical text of a domain. The status is 0.
fn check<O: Sink>(
    alloc: Global,
    names: &Names,
    domain: &Domain,
    out: &mut O,
) -> Result<u8, SinkRefusal>
    ensures { WritesWithStatus (domain_text names.now domain.now) 0 (O.shown out.old)
        (O.shown out.new) result }
{
    let text = print_domain(alloc, names, domain)?;
    put(out, text.as_slice())?;
    Ok(0)
}

/// Judges a plan, and writes what it is worth. The status is 0 where nothing is wrong with it, else 7.
fn validate<O: Sink>(alloc: Global, validation: Validation, out: &mut O) -> Result<u8, SinkRefusal>
    ensures { Performs (AValidation validation) (O.shown out.old) (O.shown out.new) result }
{
    let Validation {
        mut names,
        input,
        plan,
    } = validation;
    let wrong = judge(alloc, &mut names, input, plan.as_slice())?;
    write_verdict(alloc, &names, &wrong, out)
}

/// What is wrong with the text of a plan after the edits of the input's lines, if something is. The only error is out of memory.
fn judge(
    alloc: Global,
    names: &mut Names,
    input: Input,
    plan: &[u8],
) -> Result<Option<Invalid>, AllocError>
    requires { AreNames names.old }
    ensures { Finds (verdict_after input.domain input.lines names.old plan.now) names.new result }
{
    judge_lines(alloc, names, &input.domain, input.lines.as_slice(), plan)
}

/// What is wrong with the text of a plan after the edits of these lines, if something is. The only error is out of memory.
fn judge_lines(
    alloc: Global,
    names: &mut Names,
    expert: &Expert,
    lines: &[Line],
    plan: &[u8],
) -> Result<Option<Invalid>, AllocError>
    requires { AreNames names.old }
    ensures { Finds (verdict_after expert.now lines.now names.old plan.now) names.new result }
{
    let problem = known_after(alloc, expert, lines)?;
    verdict(alloc, names, expert, &problem, plan)
}

/// Writes the line that a plan is answered with. The status is 0 where nothing is wrong with it, else 7.
fn write_verdict<O: Sink>(
    alloc: Global,
    names: &Names,
    wrong: &Option<Invalid>,
    out: &mut O,
) -> Result<u8, SinkRefusal>
    ensures { WritesWithStatus (verdict_line names.now wrong.now) (verdict_status wrong.now)
        (O.shown out.old) (O.shown out.new) result }
{
    let line = verdict_line(alloc, names, wrong)?;
    put(out, line.as_slice())?;
    Ok(verdict_status(wrong))
}

/// Plans after the edits of a script, and writes what is found. The status is 0 where that is a plan, else 1.
pub fn do_plan<R: Threads + Sync, O: Sink>(
    rt: &R,
    alloc: Global,
    planning: Planning,
    out: &mut O,
) -> Result<u8, SinkRefusal>
    ensures { Performs (APlanning planning) (O.shown out.old) (O.shown out.new) result }
{
    let Planning { names, input, .. } = planning;
    let told = plan(rt, alloc, &names, input)?;
    write_told(&told, out)
}

/// What three planners find after the edits of the input's lines. The only error is out of memory.
fn plan<R: Threads + Sync>(
    rt: &R,
    alloc: Global,
    names: &Names,
    input: Input,
) -> Result<Told, AllocError>
    requires { 1 ≤ input.budget }
    ensures { IfOk result (λ told. (told.text.items, told.status)
        ≡ plan_after input.domain input.lines names.now input.budget) }
{
    let lines = input.lines.as_slice();
    plan_lines(rt, alloc, names, &input.domain, lines, input.budget)
}

/// What three planners find after the edits of these lines. The only error is out of memory.
fn plan_lines<R: Threads + Sync>(
    rt: &R,
    alloc: Global,
    names: &Names,
    expert: &Expert,
    lines: &[Line],
    budget: u32,
) -> Result<Told, AllocError>
    requires { 1 ≤ budget }
    ensures { IfOk result (λ told. (told.text.items, told.status)
        ≡ plan_after expert.now lines.now names.now budget) }
{
    let problem = known_after(alloc, expert, lines)?;
    plan_told(rt, alloc, names, expert, &problem, budget)
}

/// Writes what is told of a problem. The status is that of it.
fn write_told<O: Sink>(told: &Told, out: &mut O) -> Result<u8, SinkRefusal>
    ensures { WritesWithStatus told.now.text.items told.now.status (O.shown out.old)
        (O.shown out.new) result }
{
    put(out, told.text.as_slice())?;
    Ok(told.status)
}

/// Judges the text of a journal, and writes what it is found to be, or, where that is asked for and it is legal, writes it anew. The status
/// is 0 where it is legal, else 7.
fn do_replay<O: Sink>(alloc: Global, replay: Replay, out: &mut O) -> Result<u8, SinkRefusal>
    ensures { Performs (AReplay replay) (O.shown out.old) (O.shown out.new) result }
{
    let Replay {
        mut names,
        input,
        journal,
        migrates,
        ..
    } = replay;
    let solver = Forward::new();
    let audit = audit(
        alloc,
        &mut names,
        &input,
        journal.as_slice(),
        &solver,
        migrates,
    )?;
    write_audit(&audit, out)
}

/// Does the lines of an editor, and writes what comes of them. The status is 1 where a line was refused, else 0.
fn do_edit<O: Sink>(alloc: Global, editing: Editing, out: &mut O) -> Result<u8, SinkRefusal>
    ensures { Performs (AnEditing editing) (O.shown out.old) (O.shown out.new) result }
{
    let Editing {
        names,
        domain,
        lines,
        words,
        ..
    } = editing;
    run_edits(
        alloc,
        &names,
        domain,
        lines.as_slice(),
        words.as_slice(),
        out,
    )
}

/// Writes what is to be written for a journal. The status is 0 where it is legal, else 7.
fn write_audit<O: Sink>(audit: &Audited, out: &mut O) -> Result<u8, SinkRefusal>
    ensures { WritesWithStatus audit.now.text.items (finding_status audit.now.finding)
        (O.shown out.old) (O.shown out.new) result }
{
    put(out, audit.text.as_slice())?;
    Ok(finding_status(audit.finding))
}
