//! The picture of the journal in a file.
ghost use Rattle.std.specs.Prelude.{◌≡◌, ◌<◌, ◌≤◌, ◌^◌, codes, [], ◌∷◌, length, IfOk, IfSome};
ghost use Rattle.std.specs.List.{zip};
ghost use Rattle.ps_entries.specs.Journals.{IsText};
ghost use Rattle.ps_picture.specs.Courses.{picture_of};
ghost use Rattle.ps_shows.specs.Pictures.{IsDrawn, IsPictureIn, ReadsText, first_names, form_text, longest_file};

use super::asked::Form;
use super::faults::{Fault, line_of};
use ps_drawing::{picture_svg, picture_text};
use ps_entries::{Numbered, read_journal};
use ps_machine::Entry;
use ps_picture::picture;
use ps_text::{FileRefusal, Files, Names};
use ps_world::{Duplicate, Failure};
use std::alloc::{AllocError, Global};

/// The most bytes of a file.
const LONGEST_FILE: usize = 1_048_576;

/// The text of a file.
fn read_text<F: Files>(alloc: Global, file: &str, files: &mut F) -> Result<Vec<u8>, Failure<Fault>>
    ensures { ReadsText file.now (F.shown files.old) (F.shown files.new) result }
{
    match files.read(alloc, file) {
        Ok(text) => {
            if text.len() > LONGEST_FILE {
                return Err(Failure::Refused(Fault::TooLong));
            }
            Ok(text)
        }
        Err(FileRefusal::Failed) => Err(Failure::Refused(Fault::Unread)),
        Err(FileRefusal::OutOfMemory) => Err(Failure::OutOfMemory),
    }
}

/// Entries with their lines, each copied.
fn placed(alloc: Global, lines: &[u32], entries: &[Entry]) -> Result<Vec<(u32, Entry)>, AllocError>
    requires { length lines.now ≡ length entries.now }
    ensures { IfOk result (λ placed. placed.items ≡ zip lines.now entries.now) }
{
    let mut placed = Vec::with_capacity(alloc, entries.len())?;
    for k in 0..entries.len() {
        placed.push((lines[k], entries[k].copy(alloc)?))?;
    }
    Ok(placed)
}

/// The picture of entries, in a form.
fn draw(
    alloc: Global,
    form: Form,
    names: &Names,
    entries: &[(u32, Entry)],
) -> Result<Vec<u8>, AllocError>
    ensures { IfOk result (λ picture. picture.items
        ≡ form_text form names.now (picture_of entries.now)) }
{
    let courses = picture(alloc, entries)?;
    match form {
        Form::Text => picture_text(alloc, names, &courses),
        Form::Svg => picture_svg(alloc, names, &courses),
    }
}

/// The picture of a journal's entries, in a form.
fn draw_journal(
    alloc: Global,
    form: Form,
    names: &Names,
    entries: &Numbered,
) -> Result<Vec<u8>, AllocError>
    ensures { IfOk result (λ picture. picture.items
        ≡ form_text form names.now (picture_of entries.now)) }
{
    let placed = placed(alloc, entries.lines(), entries.entries())?;
    draw(alloc, form, names, &placed)
}

/// The picture of what a text is read as, in a form.
fn drawn(
    alloc: Global,
    form: Form,
    names: &mut Names,
    text: &[u8],
) -> Result<Vec<u8>, Failure<Fault>>
    requires first { names.old ≡ first_names }
    requires short { length text.now ≤ longest_file }
    ensures { IsDrawn form text.now result }
{
    match read_journal(alloc, names, text) {
        Ok(journal) => match draw_journal(alloc, form, names, &journal.entries) {
            Ok(picture) => Ok(picture),
            Err(_) => Err(Failure::OutOfMemory),
        },
        Err(Failure::Refused(why)) => Err(Failure::Refused(Fault::Line(line_of(why)))),
        Err(Failure::OutOfMemory) => Err(Failure::OutOfMemory),
    }
}

/// The picture of a journal's text, in a form.
fn drawn_anew(alloc: Global, form: Form, text: &[u8]) -> Result<Vec<u8>, Failure<Fault>>
    requires { length text.now ≤ longest_file }
    ensures { IsDrawn form text.now result }
{
    match Names::new(alloc) {
        Ok(names) => {
            let mut names = names;
            drawn(alloc, form, &mut names, text)
        }
        Err(_) => Err(Failure::OutOfMemory),
    }
}

/// The picture of the journal in a file, in a form.
pub fn picture_in<F: Files>(
    alloc: Global,
    form: Form,
    file: &str,
    files: &mut F,
) -> Result<Vec<u8>, Failure<Fault>>
    ensures { IsPictureIn form file.now (F.shown files.old) (F.shown files.new) result }
{
    match read_text(alloc, file, files) {
        Ok(text) => drawn_anew(alloc, form, &text),
        Err(why) => Err(why),
    }
}
