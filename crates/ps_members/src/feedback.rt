//! Lines of feedback.
ghost use Rattle.std.specs.Prelude.{◌≡◌};
ghost use Rattle.std.specs.List.{list_all};
ghost use Rattle.ps_world.specs.Failures.{Gives};
ghost use Rattle.ps_machine.specs.Tables.{is_note, is_printable};
ghost use Rattle.ps_members.specs.Feedback.{feedback_of, note_on, number_on, percent_of, uncommented};

use super::parts::place_before;
use ps_machine::{LineCause, Unit};
use ps_script::{after_run, first_run, trimmed, without_end};
use ps_world::{Failure, Seq};
use std::alloc::Global;

/// The most bytes of a note.
const LONGEST_NOTE: usize = 64;

/// A number from 0 to 100 without a needless zero.
fn percent_of(word: &[u8]) -> Option<u8>
    ensures { result ≡ percent_of word.now }
{
    match word {
        [one] => if one.is_ascii_digit() {
            Some(*one - b'0')
        } else {
            None
        },
        [ten, one] => {
            if ten.is_ascii_digit() && one.is_ascii_digit() && *ten >= b'1' {
                Some(10 * (*ten - b'0') + (*one - b'0'))
            } else {
                None
            }
        }
        _ => if word == b"100".as_slice() {
            Some(100)
        } else {
            None
        },
    }
}

/// Nothing where this is a comment.
fn uncommented(bytes: &[u8]) -> &[u8]
    ensures { result.now ≡ uncommented bytes.now }
{
    match bytes {
        [] => bytes,
        [first, ..] => if *first == b';' { &[] } else { bytes },
    }
}

/// What stands from the number on.
fn number_on(bytes: &[u8]) -> &[u8]
    ensures { result.now ≡ number_on bytes.now }
{
    uncommented(trimmed(after_run(bytes)))
}

/// What stands from the text on.
fn note_on(bytes: &[u8]) -> &[u8]
    ensures { result.now ≡ note_on bytes.now }
{
    trimmed(after_run(after_run(bytes)))
}

fn is_printable(b: u8) -> bool
    ensures { result ≡ is_printable b }
{
    b >= b' ' && b <= b'~'
}

fn are_printable(text: &[u8]) -> bool
    ensures { result ≡ list_all is_printable text.now }
{
    text.iter().all(|b| is_printable(*b))
}

/// Whether a note has 1 to 64 printable bytes, without blanks at its ends.
fn is_note(text: &[u8]) -> bool
    ensures { result ≡ is_note text.now }
{
    text.len() >= 1
        && text.len() <= LONGEST_NOTE
        && are_printable(text)
        && !text.starts_with(b" ")
        && !text.ends_with(b" ")
}

/// What a line of feedback says, or the place that doesn't fit: of its number, then of its text.
pub fn feedback_of(alloc: Global, bytes: &[u8]) -> Result<Unit, Failure<LineCause>>
    ensures { Gives (λ unit. unit) result (feedback_of bytes.now) }
{
    let Some(percent) = percent_of(first_run(number_on(bytes))) else {
        return Err(Failure::Refused(LineCause::Shape {
            at: place_before(bytes, number_on(bytes)),
        }));
    };
    let note = without_end(note_on(bytes));
    if !is_note(note) {
        return Err(Failure::Refused(LineCause::Shape {
            at: place_before(bytes, note_on(bytes)),
        }));
    }
    let text = Vec::from_slice(alloc, note)?;
    Ok(Unit::Feedback(percent, Seq::of(text)))
}
