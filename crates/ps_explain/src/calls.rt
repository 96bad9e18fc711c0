//! Explaining a call.
use super::called::{Called, called_by};
use super::faults::explain_fault;
use super::kept::Kept;
use super::plans::{explain_planning, explain_validation};
use super::replays::explain_replay;
use super::runs::explain_session;
use ps_inputs::{Fault, Work, load};
use ps_remarks::{Page, explain_words};
use ps_text::{Files, Sink, SinkRefusal, put};
use ps_words::read_words;
use ps_world::Failure;
use std::alloc::{AllocError, Global};
use std::sync::Wait;
use std::thread::Threads;

/// Does the work of a call in memory, and says what of it was refused or went wrong.
fn explain_work<R: Threads + Wait + Sync, F: Files>(
    rt: &R,
    alloc: Global,
    called: &Called<'_>,
    work: Work,
    files: &mut F,
    page: &mut Page,
) -> Result<(), AllocError> {
    match work {
        Work::Session(session) => explain_session(rt, alloc, called, session, files, page),
        Work::Validation(validation) => explain_validation(alloc, called, validation, files, page),
        Work::Planning(planning) => explain_planning(
            rt,
            alloc,
            called,
            planning.get(),
            files,
            page,
        ),
        Work::Replay(replay) => explain_replay(alloc, called.other.unwrap_or(""), replay, page),
        Work::Check(_) | Work::Editing(_) | Work::Generation(_) => Ok(()),
    }
}

/// Reads the files of a call, does its work in memory, and says what of it was refused or went wrong. It is refused with what ends the call
/// before its work.
fn explain_loaded<R: Threads + Wait + Sync, F: Files>(
    rt: &R,
    alloc: Global,
    called: &Called<'_>,
    words: &[String],
    files: &mut F,
    page: &mut Page,
) -> Result<(), Failure<Fault>> {
    let work = load(alloc, words, files)?;
    explain_work(rt, alloc, called, work, files, page)?;
    Ok(())
}

/// The status of a fault that ends a call before its work.
fn status_of(fault: &Fault) -> u8 {
    match fault {
        Fault::Unread(_) => 4,
        _ => 1,
    }
}

/// Says what ends a call before its work, and gives the status.
fn explain_refused<F: Files>(
    alloc: Global,
    called: &Called<'_>,
    fault: &Fault,
    files: &mut F,
    page: &mut Page,
) -> Result<u8, AllocError> {
    explain_fault(alloc, called, fault, files, page)?;
    Ok(status_of(fault))
}

/// Says what of a call that names these files was refused or went wrong, and gives the status.
fn explain_called<R: Threads + Wait + Sync, F: Files>(
    rt: &R,
    alloc: Global,
    called: &Called<'_>,
    words: &[String],
    files: &mut F,
    page: &mut Page,
) -> Result<u8, AllocError> {
    match explain_loaded(rt, alloc, called, words, files, page) {
        Ok(()) => Ok(1),
        Err(Failure::Refused(fault)) => explain_refused(alloc, called, &fault, files, page),
        Err(Failure::OutOfMemory) => Err(AllocError),
    }
}

/// Says what is wrong with words that ask for nothing that is explained, and gives the status.
fn explain_no_call(alloc: Global, words: &[String], page: &mut Page) -> Result<u8, AllocError> {
    explain_words(alloc, words, page)?;
    Ok(1)
}

/// Says what of a call was refused or went wrong, and gives the status.
fn explain_call<R: Threads + Wait + Sync, F: Files>(
    rt: &R,
    alloc: Global,
    words: &[String],
    files: &mut F,
    page: &mut Page,
) -> Result<u8, AllocError> {
    let asked = match read_words(alloc, words)? {
        Some(asked) => called_by(alloc, asked),
        None => None,
    };
    let Some(called) = asked else {
        return explain_no_call(alloc, words, page);
    };
    explain_called(rt, alloc, &called, words, files, page)
}

/// Says what of a call was refused or went wrong, and gives the status. Each file is read once.
fn explain_once<R: Threads + Wait + Sync, F: Files>(
    rt: &R,
    alloc: Global,
    words: &[String],
    files: &mut F,
    page: &mut Page,
) -> Result<u8, AllocError> {
    let mut kept = Kept::new(alloc, files);
    explain_call(rt, alloc, words, &mut kept, page)
}

/// Writes a page, or that nothing was refused. The status is that of the page, or 0 where nothing is on it.
fn write_page<O: Sink>(page: &Page, status: u8, out: &mut O) -> Result<u8, SinkRefusal> {
    if page.is_empty() {
        put(out, b"Nothing was refused, and nothing went wrong.\n")?;
        return Ok(0);
    }
    put(out, page.as_slice())?;
    Ok(status)
}

/// Says for people what of a call of the program with these words is refused or goes wrong, where, and why. The words are those of
/// `session`, `check`, `validate`, `replay` or `plan`; the call is made in memory, and a session by turns in order.
///
/// The status is 0 where nothing was refused and nothing went wrong, 4 where a file can't be read, and 1 where something else is explained. It is
/// refused where a write failed or memory ran out. It promises no return, since a session may go on for ever.
pub fn explain<R: Threads + Wait + Sync, F: Files, O: Sink>(
    rt: &R,
    alloc: Global,
    words: &[String],
    files: &mut F,
    out: &mut O,
) -> Result<u8, SinkRefusal> {
    let mut page = Page::new(alloc);
    match explain_once(rt, alloc, words, files, &mut page) {
        Ok(status) => write_page(&page, status, out),
        Err(_) => Err(SinkRefusal::OutOfMemory),
    }
}
