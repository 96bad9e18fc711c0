//! The lines that a journal begins with.
ghost use Rattle.std.specs.Prelude.{◌≡◌, ◌≤◌, ◌&&◌, ◌∷◌, IfOk, length};
ghost use Rattle.ps_world.specs.Lines.{same_text};
ghost use Rattle.ps_rules.specs.Heads.{settings_line, title};
ghost use Rattle.ps_text.specs.Words.{AreWithin, pieces};
ghost use Rattle.ps_entries.specs.FirstLines.{lines_end};
ghost use Rattle.ps_entries.specs.Heads.{are_settings, believed_settings, settings_at};
ghost use Rattle.ps_entries.specs.Journals.{BeginsWith, HasSettings, SaysOrNot};

use super::words::{byte, number_at, short_at};
use ps_journal::push_settings;
use ps_text::{Span, Words, lines};
use std::alloc::{AllocError, Global};

/// What a text begins with.
#[derive(Clone, Copy)]
pub(crate) enum Heading {
    /// The head of a journal, with the settings that it says, if it is of version 2.
    Headed(Option<(u32, u8)>),
    /// Another first line, or none.
    Untitled,
    /// The title of version 2, with no line of settings after it.
    Unsettled,
}

/// The settings that the words of a line say.
fn settings_at(words: &Words) -> Option<(u32, u8)>
    ensures { result ≡ settings_at words.now }
{
    match short_at(words, 2) {
        Some(budget) => match byte(number_at(words, 4)) {
            Some(replans) => Some((budget, replans)),
            None => None,
        },
        None => None,
    }
}

/// Whether settings are in their ranges.
fn are_settings(settings: (u32, u8)) -> bool
    ensures { result ≡ are_settings settings }
{
    let (budget, replans) = settings;
    1 <= budget && (budget <= 200_000 && replans <= 8)
}

/// Whether settings are in their ranges, and this is their line.
fn are_printed(alloc: Global, settings: (u32, u8), line: &[u8]) -> Result<bool, AllocError>
    ensures { IfOk result (λ b. b ≡ (are_settings settings && same_text (settings_line settings) line.now)) }
{
    let mut printed = Vec::new(alloc);
    push_settings(settings, &mut printed)?;
    Ok(are_settings(settings) && printed.as_slice() == line)
}

/// Settings that the words of a line say, if this is their line.
fn believed(
    alloc: Global,
    settings: (u32, u8),
    line: &[u8],
) -> Result<Option<(u32, u8)>, AllocError>
    ensures { IfOk result (λ o. o ≡ believed_settings settings line.now) }
{
    if are_printed(alloc, settings, line)? {
        Ok(Some(settings))
    } else {
        Ok(None)
    }
}

/// The settings that a line says, if they are in their ranges.
fn read_settings(alloc: Global, line: &[u8]) -> Result<Option<(u32, u8)>, AllocError>
    ensures { IfOk result (SaysOrNot line.now) }
{
    let words = Words::of(alloc, line)?;
    match settings_at(&words) {
        Some(settings) => believed(alloc, settings, line),
        None => Ok(None),
    }
}

/// What a text begins with whose first line is the title of version 2, and whose other lines are these.
fn settled(alloc: Global, bytes: &[u8], rest: &[Span]) -> Result<Heading, AllocError>
    requires { AreWithin bytes.now rest.now }
    ensures { IfOk result (BeginsWith (title ∷ pieces bytes.now rest.now)) }
{
    let [second, ..] = rest else {
        return Ok(Heading::Unsettled);
    };
    match read_settings(alloc, &bytes[second.from..second.to])? {
        Some(settings) => Ok(Heading::Headed(Some(settings))),
        None => Ok(Heading::Unsettled),
    }
}

/// What a text with these lines begins with.
pub(crate) fn heading_of(alloc: Global, bytes: &[u8], lines: &[Span]) -> Result<Heading, AllocError>
    requires { AreWithin bytes.now lines.now }
    ensures { IfOk result (BeginsWith (pieces bytes.now lines.now)) }
{
    let [first, rest @ ..] = lines else {
        return Ok(Heading::Untitled);
    };
    let line = &bytes[first.from..first.to];
    if line == b"plansys-journal 2".as_slice() {
        settled(alloc, bytes, rest)
    } else if line == b"plansys-journal 1".as_slice() {
        Ok(Heading::Headed(None))
    } else {
        Ok(Heading::Untitled)
    }
}

/// Where the first two lines of a text end, each with its LF.
fn two_lines_end(bytes: &[u8]) -> usize
    ensures end { result ≡ lines_end 2 bytes.now }
    ensures within { result ≤ length bytes.now }
{
    let mut is_second = false;
    for (i, b) in bytes.iter().enumerate() {
        if *b == b'\n' {
            if is_second {
                return i + 1;
            }
            is_second = true;
        }
    }
    bytes.len()
}

/// The settings that the head of a journal's text says, or none where it is of version 1 or no head.
pub fn settings_in(alloc: Global, bytes: &[u8]) -> Result<Option<(u32, u8)>, AllocError>
    ensures { IfOk result (HasSettings bytes.now) }
{
    // Only its first two lines can say them.
    settings_of(alloc, &bytes[..two_lines_end(bytes)])
}

/// The settings that the head of a text says, all of whose lines are looked for.
fn settings_of(alloc: Global, bytes: &[u8]) -> Result<Option<(u32, u8)>, AllocError>
    ensures { IfOk result (HasSettings bytes.now) }
{
    let lines = lines(alloc, bytes)?;
    match heading_of(alloc, bytes, &lines)? {
        Heading::Headed(settings) => Ok(settings),
        Heading::Untitled | Heading::Unsettled => Ok(None),
    }
}
