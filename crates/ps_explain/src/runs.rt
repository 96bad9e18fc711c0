//! Doing a session in memory, and telling its entries.
ghost use Rattle.std.specs.Prelude.{◌≡◌};
ghost use Rattle.ps_board.specs.Board.{nothing_done};

use super::called::Called;
use super::faults::source_of;
use super::scripts::{Script, script_of};
use super::sessions::{Teller, Watch};
use ps_board::Board;
use ps_boxes::Boxed;
use ps_inputs::Session;
use ps_machine::{Entry, Event};
use ps_pool::NoGate;
use ps_reasons::{may_be_asked, say_idle};
use ps_remarks::{Page, Source};
use ps_session::run_unwritten;
use ps_solve::Forward;
use ps_text::{Files, Names};
use std::alloc::{AllocError, Global};
use std::sync::Wait;

/// Notes which members an act could ask for by what is known now.
fn note_asked(teller: &Teller<'_>, watch: &Watch, asked: &mut [bool]) {
    let members = teller.input.members.as_slice().iter();
    for (member, is_asked) in members.zip(asked.iter_mut()) {
        if !*is_asked {
            *is_asked = may_be_asked(teller.expert, &watch.problem, member);
        }
    }
}

/// Says whom no act could ask for, neither when a run was opened nor at the end.
fn say_unasked(
    teller: &Teller<'_>,
    watch: &Watch,
    asked: &[bool],
    page: &mut Page,
) -> Result<(), AllocError> {
    let members = teller.input.members.as_slice().iter();
    for ((member, is_asked), source) in members.zip(asked).zip(teller.members) {
        if !*is_asked {
            page.say(source.file.as_str())?;
            page.say(": ")?;
            say_idle(teller.names, teller.expert, &watch.problem, member, page)?;
            page.end()?;
        }
    }
    Ok(())
}

/// A flag for each member, which says that nobody could ask for it.
fn none_asked(teller: &Teller<'_>) -> Result<Vec<bool>, AllocError> {
    let mut asked = Vec::new(teller.alloc);
    for _ in teller.input.members.as_slice() {
        asked.push(false)?;
    }
    Ok(asked)
}

/// Tells entries one after another, and notes whom acts of their runs could ask for.
fn tell_each(
    teller: &Teller<'_>,
    entries: &[Entry],
    watch: &mut Watch,
    asked: &mut [bool],
    page: &mut Page,
) -> Result<(), AllocError> {
    for entry in entries {
        teller.entry(watch, entry, page)?;
        watch.take(teller.alloc, teller.expert, &entry.what)?;
        if let Event::Run { .. } = &entry.what {
            note_asked(teller, watch, asked);
        }
    }
    note_asked(teller, watch, asked);
    Ok(())
}

/// Tells entries one after another, from what is known before them, and then the members whom nobody could ask for.
fn tell_from(
    teller: &Teller<'_>,
    entries: &[Entry],
    watch: &mut Watch,
    page: &mut Page,
) -> Result<(), AllocError> {
    let mut asked = none_asked(teller)?;
    tell_each(teller, entries, watch, asked.as_mut_slice(), page)?;
    say_unasked(teller, watch, asked.as_slice(), page)
}

/// Tells the entries of a session one after another, and then the members whom nobody could ask for.
fn tell_entries(teller: &Teller<'_>, entries: &[Entry], page: &mut Page) -> Result<(), AllocError> {
    let mut watch = Watch::new(teller.alloc, teller.expert)?;
    tell_from(teller, entries, &mut watch, page)
}

/// Adds a member's file with its text, if it can be read.
fn add_member<F: Files>(
    alloc: Global,
    file: &str,
    files: &mut F,
    members: &mut Vec<Source>,
) -> Result<(), AllocError> {
    if let Some(source) = source_of(alloc, file, files)? {
        members.push(source)?;
    }
    Ok(())
}

/// The files of the members, with their texts.
fn members_of<F: Files>(
    alloc: Global,
    called: &Called<'_>,
    files: &mut F,
) -> Result<Vec<Source>, AllocError> {
    let mut members = Vec::new(alloc);
    for file in called.members.iter() {
        add_member(alloc, file, files, &mut members)?;
    }
    Ok(members)
}

/// Tells what of a session that is done was refused or went wrong, where its script and its members are read.
fn tell_board(
    alloc: Global,
    names: &Names,
    board: &Board,
    script: &Script,
    members: &[Source],
    page: &mut Page,
) -> Result<(), AllocError> {
    let teller = Teller {
        alloc,
        names,
        input: board.input(),
        expert: board.expert(),
        sources: &script.sources,
        plans: script.plans.as_slice(),
        members,
    };
    tell_entries(&teller, board.entries(), page)
}

/// Tells what of a session that is done was refused or went wrong, where its script is read.
fn tell_session<F: Files>(
    alloc: Global,
    called: &Called<'_>,
    names: &Names,
    board: &Board,
    script: &Script,
    files: &mut F,
    page: &mut Page,
) -> Result<(), AllocError> {
    let members = members_of(alloc, called, files)?;
    tell_board(alloc, names, board, script, members.as_slice(), page)
}

/// Tells what of a session that is done was refused or went wrong.
fn tell_done<F: Files>(
    alloc: Global,
    called: &Called<'_>,
    names: &Names,
    board: &Board,
    files: &mut F,
    page: &mut Page,
) -> Result<(), AllocError> {
    let script = script_of(alloc, called, files)?;
    tell_session(alloc, called, names, board, &script, files, page)
}

/// Does a session by turns in order on its board, and says what of it was refused or went wrong.
fn explain_board<R: Wait, F: Files>(
    rt: &R,
    alloc: Global,
    called: &Called<'_>,
    names: &Names,
    board: &mut Board,
    files: &mut F,
    page: &mut Page,
) -> Result<(), AllocError>
    requires { board.old ≡ nothing_done board.old.input }
{
    run_unwritten(rt, board, &Forward::new(), &NoGate)?;
    tell_done(alloc, called, names, board, files, page)
}

/// Does a session by turns in order, and says what of it was refused or went wrong.
pub fn explain_session<R: Wait, F: Files>(
    rt: &R,
    alloc: Global,
    called: &Called<'_>,
    session: Boxed<Session>,
    files: &mut F,
    page: &mut Page,
) -> Result<(), AllocError> {
    let Session { names, input, .. } = session.into_inner();
    let mut board = Board::open(alloc, input)?;
    explain_board(rt, alloc, called, &names, &mut board, files, page)
}
