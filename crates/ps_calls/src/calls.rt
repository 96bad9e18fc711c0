//! The top calls.
ghost use Rattle.std.specs.Prelude.{◌≡◌, true};
ghost use Rattle.ps_inputs.specs.Faults.{word_texts};
ghost use Rattle.ps_inputs.specs.Input.{is_quiet};
ghost use Rattle.ps_inputs.specs.declared.works.Work.TheVariants.{Session as ASession};
ghost use Rattle.ps_calls.specs.Headline.{Answers, call_of, Ends, Finishes, moment, Refuses};

use super::performing::{do_generation, do_plan, do_reported_session, do_session, perform_quiet};
use super::reported::Reported;
use super::reporting::{give_up, inform, report};
use ps_inputs::{Fault, Session, Work, load};
use ps_pool::Gate;
use ps_text::{Files, Sink, SinkRefusal};
use ps_world::Failure;
use std::alloc::Global;
use std::sync::Wait;
use std::thread::Threads;

/// Runs the program on these words, and gives its exit status:
///
/// | Status | Where |
/// |---|---|
/// | 0 | the session was done, no line was refused and each run succeeded; the domain was written in its canonical text; the plan is valid; the journal is legal; the problem was prepared, and no line was refused |
/// | 1 | the session was done, and a line was refused or a run failed; the problem was prepared, and a line was refused |
/// | 2 | the words aren't in the grammar: a mode and its options, as `ps_words` reads them |
/// | 3 | a file is too long, a script has too many lines, the domain's text is no domain, or the members are at fault |
/// | 4 | a file can't be read |
/// | 5 | a write to `out` failed, or one to `err` of the line of status 2, 3 or 4 or of the reports of a session |
/// | 6 | out of memory |
/// | 7 | the plan isn't valid; the journal isn't legal |
///
/// The first fault decides, in the order of the work: the words, the domain's file, the script's file and the files that it
/// names, the members' files, the plan's or the journal's file, the domain's text, the members' texts, their count, their names.
///
/// A session that is done has one journal, however its workers' turns came: what `out` took is the text of that journal and nothing else. It
/// is a legal history of the input, in which each line has its entry and no run is left open. Each entry's hand is 0, that of the terminal,
/// or that of a worker, from 1 to as many as there are; each worker's entries stand in it once and in the order in which it made them, by
/// the contract of the seats at which workers take turns. `run` opens a run of the plan that `get plan` would tell then. A run is told to have
/// succeeded exactly where its goal then holds, and the status is a function of the journal. With `--ordered` there is one worker, the members
/// take turns in the order of the words, and the journal is a function of the input.
///
/// Of a session that is broken off, with status 5 or 6, `out` took a prefix of the text of entries that may begin such a journal, up to the end of
/// a line and of the run that it opens; where no write was refused, all of that text or nothing. So of a run in which memory runs out nothing
/// is written.
///
/// With `--reports`, `err` takes the lines of reports once the journal is written: what the journal bears out of some
/// list of reports, and how many of its units no report tells of. That the list has all that performers did is not
/// promised: units that nobody reported are counted.
///
/// The gate is called once for each unit of work of a session's members. It promises no return: a session may go on for ever.
pub fn plansys<R: Threads + Wait + Sync, F: Files, O: Sink, E: Sink, G: Gate + Sync>(
    rt: &R,
    alloc: Global,
    words: &[String],
    files: &mut F,
    out: &mut O,
    err: &mut E,
    gate: &G,
) -> u8
    ensures { let before = moment (F.shown files.old) (O.shown out.old) (E.shown err.old) in
        let after = moment (F.shown files.new) (O.shown out.new) (E.shown err.new) in
        Answers (call_of (word_texts words.now) before after) result }
{
    match load(alloc, words, files) {
        Ok(work) => do_work(rt, alloc, work, gate, out, err),
        Err(why) => refuse(alloc, why, err),
    }
}

/// Does the work, and says to `err` what is to be said: the reports of a session that has them, or why the work is
/// broken off.
fn do_work<R: Threads + Wait + Sync, O: Sink, E: Sink, G: Gate + Sync>(
    rt: &R,
    alloc: Global,
    work: Work,
    gate: &G,
    out: &mut O,
    err: &mut E,
) -> u8
    ensures { Ends work (O.shown out.old) (O.shown out.new) (E.shown err.old) (E.shown err.new)
        result }
{
    match work {
        Work::Session(session) => end_session(rt, alloc, session.into_inner(), gate, out, err),
        Work::Planning(planning) => finish(do_plan(rt, alloc, planning.into_inner(), out), err),
        Work::Generation(generation) => {
            finish(
                do_generation(rt, alloc, generation.into_inner(), gate, out),
                err,
            )
        }
        quiet => finish(perform_quiet(alloc, quiet, out), err),
    }
}

/// Does a session, and says to `err` its reports, if it has them, or why it is broken off.
fn end_session<R: Threads + Wait + Sync, O: Sink, E: Sink, G: Gate + Sync>(
    rt: &R,
    alloc: Global,
    session: Session,
    gate: &G,
    out: &mut O,
    err: &mut E,
) -> u8
    ensures { Ends (ASession session) (O.shown out.old) (O.shown out.new) (E.shown err.old)
        (E.shown err.new) result }
{
    if session.reports {
        report_session(rt, alloc, session, gate, out, err)
    } else {
        finish(do_session(rt, alloc, session, gate, out), err)
    }
}

/// Does a session, writes its journal to `out`, and then says its reports to `err`.
fn report_session<R: Threads + Wait + Sync, O: Sink, E: Sink, G: Gate + Sync>(
    rt: &R,
    alloc: Global,
    session: Session,
    gate: &G,
    out: &mut O,
    err: &mut E,
) -> u8
    requires { session.reports ≡ true }
    ensures { Ends (ASession session) (O.shown out.old) (O.shown out.new) (E.shown err.old)
        (E.shown err.new) result }
{
    match do_reported_session(rt, alloc, session, gate, out) {
        Ok(Reported { status, lines }) => inform(lines, status, err),
        Err(why) => give_up(err, why),
    }
}

/// Does the modes that always return, `check`, `validate`, `replay`, `migrate` and `edit`, and gives the exit status, which is 1 for `edit`
/// alone.
pub fn plansys_quiet<F: Files, O: Sink, E: Sink>(
    alloc: Global,
    words: &[String],
    files: &mut F,
    out: &mut O,
    err: &mut E,
) -> u8
    requires { is_quiet (word_texts words.now) ≡ true }
    ensures { let before = moment (F.shown files.old) (O.shown out.old) (E.shown err.old) in
        let after = moment (F.shown files.new) (O.shown out.new) (E.shown err.new) in
        Answers (call_of (word_texts words.now) before after) result }
{
    match load(alloc, words, files) {
        Ok(work) => finish(perform_quiet(alloc, work, out), err),
        Err(why) => refuse(alloc, why, err),
    }
}

/// The status of work that is done; of work that is broken off, once `err` has heard why.
fn finish<E: Sink>(done: Result<u8, SinkRefusal>, err: &mut E) -> u8
    ensures { Finishes done (E.shown err.old) (E.shown err.new) result }
{
    match done {
        Ok(status) => status,
        Err(why) => give_up(err, why),
    }
}

/// Says to `err` why there is no work, and gives the status.
fn refuse<E: Sink>(alloc: Global, why: Failure<Fault>, err: &mut E) -> u8
    ensures { Refuses why (E.shown err.old) (E.shown err.new) result }
{
    match why {
        Failure::Refused(fault) => report(alloc, &fault, err),
        Failure::OutOfMemory => give_up(err, SinkRefusal::OutOfMemory),
    }
}
