//! The entry of a line.
ghost use Rattle.std.specs.Prelude.{◌≡◌, ◌&&◌, ◌-◌, ◌^◌, if◌then◌else◌, IfOk, None, Some, codes, length, false, true};
ghost use Rattle.ps_world.specs.Lines.{same_text};
ghost use Rattle.ps_machine.specs.Texts.{entry_line};
ghost use Rattle.ps_text.specs.Names.{Keeps};
ghost use Rattle.ps_entries.specs.Words.{number_at, reads, up_to};
ghost use Rattle.ps_entries.specs.Events.{by_of};
ghost use Rattle.ps_entries.specs.Forms.{is_entry};
ghost use Rattle.ps_entries.specs.Says.{Finds, FindsEntry, edit_in, query_in};
ghost use Rattle.ps_entries.specs.EntryLines.{IsLineOf};

use super::events::{by_of, feedback_of, plain_event};
use super::forms::is_entry;
use super::words::{byte, head_of, names_of, number_at, tail_of};
use ps_journal::Printed;
use ps_machine::{By, Command, Entry, Event, Line, Query};
use ps_script::{Read, read_line};
use ps_text::{Names, Words};
use ps_world::{Edit, Name};
use std::alloc::{AllocError, Global};

/// The edit that a line is read as.
fn edit_in(read: Read) -> Option<Edit>
    ensures { result ≡ edit_in read }
{
    match read {
        Read::Line(Line::Good(Command::Edit(edit))) => Some(edit),
        _ => None,
    }
}

/// The query that a line is read as.
fn query_in(read: Read) -> Option<Query>
    ensures { result ≡ query_in read }
{
    match read {
        Read::Line(Line::Good(Command::Ask(query))) => Some(query),
        _ => None,
    }
}

/// The event of an edit by somebody, which a terminal line says.
fn edit_by(
    alloc: Global,
    names: &mut Names,
    words: &Words,
    known: &[Name],
    tail: &[u8],
    by: By,
) -> Result<Option<Event>, AllocError>
    requires edit { reads words.now 1 (codes "edit") ≡ true }
    requires by { by_of words.now known.now ≡ Some by }
    ensures finds { IfOk result (λ o. Finds names.old words.now known.now tail.now o names.new) }
    ensures kept { Keeps names.old names.new }
{
    match edit_in(read_line(alloc, names, tail)?) {
        Some(edit) => Ok(Some(Event::Edit { by, edit })),
        None => Ok(None),
    }
}

/// The event of an edit, which a terminal line says.
fn edit_of(
    alloc: Global,
    names: &mut Names,
    words: &Words,
    known: &[Name],
    tail: &[u8],
) -> Result<Option<Event>, AllocError>
    requires { reads words.now 1 (codes "edit") ≡ true }
    ensures finds { IfOk result (λ o. Finds names.old words.now known.now tail.now o names.new) }
    ensures kept { Keeps names.old names.new }
{
    match by_of(words, known) {
        Some(by) => edit_by(alloc, names, words, known, tail, by),
        None => Ok(None),
    }
}

/// The event of a query, which a terminal line says.
fn ask_of(
    alloc: Global,
    names: &mut Names,
    words: &Words,
    known: &[Name],
    tail: &[u8],
) -> Result<Option<Event>, AllocError>
    requires no_edit { reads words.now 1 (codes "edit") ≡ false }
    requires ask { reads words.now 1 (codes "ask") ≡ true }
    ensures finds { IfOk result (λ o. Finds names.old words.now known.now tail.now o names.new) }
    ensures kept { Keeps names.old names.new }
{
    match query_in(read_line(alloc, names, tail)?) {
        Some(query) => Ok(Some(Event::Ask(query))),
        None => Ok(None),
    }
}

/// The event that words say, with what stands after them.
fn event_of(
    alloc: Global,
    names: &mut Names,
    words: &Words,
    known: &[Name],
    tail: &[u8],
) -> Result<Option<Event>, AllocError>
    ensures finds { IfOk result (λ o. Finds names.old words.now known.now tail.now o names.new) }
    ensures kept { Keeps names.old names.new }
{
    if words.reads(1, b"edit") {
        edit_of(alloc, names, words, known, tail)
    } else if words.reads(1, b"ask") {
        ask_of(alloc, names, words, known, tail)
    } else if words.reads(1, b"feedback") {
        feedback_of(alloc, words, known, tail)
    } else {
        plain_event(alloc, words, known)
    }
}

/// The entry that words say, with what stands after them.
fn entry_of(
    alloc: Global,
    names: &mut Names,
    words: &Words,
    known: &[Name],
    tail: &[u8],
) -> Result<Option<Entry>, AllocError>
    ensures finds { IfOk result (λ o. FindsEntry names.old words.now known.now tail.now o
        names.new) }
    ensures kept { Keeps names.old names.new }
{
    let Some(hand) = byte(number_at(words, 0)) else {
        return Ok(None);
    };
    // Matched as it is: `?` would move an event, which is large, once more.
    match event_of(alloc, names, words, known, tail) {
        Ok(Some(what)) => Ok(Some(Entry { hand, what })),
        Ok(None) => Ok(None),
        Err(AllocError) => Err(AllocError),
    }
}

/// Whether two lines are one.
// A loop of its own, since lines are short.
fn is_same(line: &[u8], other: &[u8]) -> bool
    ensures { result ≡ same_text line.now other.now }
{
    if line.len() != other.len() {
        return false;
    }
    for (b, c) in line.iter().zip(other) {
        if b != c {
            return false;
        }
    }
    true
}

/// Whether an entry is in form, and this is its text, which is printed in the room of this vector.
fn is_printed(
    names: &Names,
    entry: &Entry,
    line: &[u8],
    printed: &mut Vec<u8>,
) -> Result<bool, AllocError>
    ensures { IfOk result (λ b. b ≡ (is_entry (length names.now) entry.now
        && same_text (entry_line names.now entry.now) line.now)) }
{
    printed.clear();
    entry.print(names, printed)?;
    Ok(is_entry(names.len(), entry) && is_same(printed.as_slice(), line))
}

/// The entry whose line this is, if there is one.
///
/// The names of the line, but for those of a note, are put into the table. Old names keep their numbers and texts, and where no entry
/// has the line or memory runs out, there may be new names too.
pub fn read_entry(
    alloc: Global,
    names: &mut Names,
    line: &[u8],
) -> Result<Option<Entry>, AllocError>
    ensures read { IfOk result (λ o. IsLineOf names.old line.now o names.new) }
    ensures kept { Keeps names.old names.new }
{
    let mut printed = Vec::new(alloc);
    read_in(alloc, names, line, &mut printed)
}

/// Reads an entry, as `read_entry` does. Its text is printed in the room of this vector, so that many lines need it once.
pub(crate) fn read_in(
    alloc: Global,
    names: &mut Names,
    line: &[u8],
    printed: &mut Vec<u8>,
) -> Result<Option<Entry>, AllocError>
    ensures read { IfOk result (λ o. IsLineOf names.old line.now o names.new) }
    ensures kept { Keeps names.old names.new }
{
    // A look at the table tells that its texts are names, none twice.
    let _count = names.len();
    let tail = tail_of(line);
    let words = Words::of(alloc, head_of(line, tail))?;
    let known = names_of(alloc, names, &words)?;
    match entry_of(alloc, names, &words, &known, tail) {
        // It is believed if this is its line.
        Ok(Some(entry)) => if is_printed(names, &entry, line, printed)? {
            Ok(Some(entry))
        } else {
            Ok(None)
        },
        Ok(None) => Ok(None),
        Err(AllocError) => Err(AllocError),
    }
}
