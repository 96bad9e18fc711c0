//! The top call.
ghost use Rattle.ps_shows.specs.Asked.{word_texts};
ghost use Rattle.ps_shows.specs.Pictures.{fault_line, fault_status};
ghost use Rattle.ps_shows.specs.Shows.{Shows, ShowsPicture, usage_line};
ghost use Rattle.ps_shows.specs.Telling.{Informs};

use super::asked::{Form, asked_of};
use super::faults::{Fault, fault_line, fault_status};
use super::pictures::picture_in;
use super::telling::{give_up, inform, tell};
use ps_text::{Files, Sink, SinkRefusal};
use ps_world::Failure;
use std::alloc::Global;

/// Says what is at fault with a file, and gives the status.
fn report<E: Sink>(alloc: Global, fault: Fault, file: &str, err: &mut E) -> u8
    ensures { Informs (fault_line fault file.now) (fault_status fault) (E.shown err.old)
        (E.shown err.new) result }
{
    inform(fault_line(alloc, fault, file), fault_status(fault), err)
}

/// Writes the picture of the journal in a file, or says why there is none.
fn show_picture<F: Files, O: Sink, E: Sink>(
    alloc: Global,
    form: Form,
    file: &str,
    files: &mut F,
    out: &mut O,
    err: &mut E,
) -> u8
    ensures { ShowsPicture form file.now
        (record { files = F.shown files.old; out = O.shown out.old; err = E.shown err.old })
        (record { files = F.shown files.new; out = O.shown out.new; err = E.shown err.new }) result }
{
    match picture_in(alloc, form, file, files) {
        Ok(picture) => tell(&picture, out, err),
        Err(Failure::Refused(fault)) => report(alloc, fault, file, err),
        Err(Failure::OutOfMemory) => give_up(err, SinkRefusal::OutOfMemory),
    }
}

/// Says that the words aren't in the grammar, and gives the status.
fn refuse_words<E: Sink>(alloc: Global, err: &mut E) -> u8
    ensures { Informs usage_line 2 (E.shown err.old) (E.shown err.new) result }
{
    inform(Vec::from_slice(alloc, b"plansys: usage\n"), 2, err)
}

/// Does what the words ask for, and gives the status: 0 where the picture of a journal was written to `out`; 2 where the
/// words aren't in the grammar; 3 where the file is too long or its text is no journal's, with its first line at fault;
/// 4 where it can't be read; 5 where a write failed; 6 where memory ran out. But for 0 a line on `err` says why.
pub fn show<F: Files, O: Sink, E: Sink>(
    alloc: Global,
    words: &[String],
    files: &mut F,
    out: &mut O,
    err: &mut E,
) -> u8
    ensures { Shows (word_texts words.now)
        (record { files = F.shown files.old; out = O.shown out.old; err = E.shown err.old })
        (record { files = F.shown files.new; out = O.shown out.new; err = E.shown err.new }) result }
{
    match asked_of(words) {
        Some((form, file)) => show_picture(alloc, form, file, files, out, err),
        None => refuse_words(alloc, err),
    }
}
