//! The lines of a plan's text, and what each says.
ghost use Rattle.std.specs.Prelude.{◌≡◌, ◌<◌, ◌≤◌, ◌∷◌, ◌==◌, true, drop, length, position, IsSome};
ghost use Rattle.std.specs.List.{list_all, position_or_len};
ghost use Rattle.ps_world.specs.Lines.{lines_of};
ghost use Rattle.ps_text.specs.Names.{is_name};
ghost use Rattle.ps_text.specs.Words.{is_blank};
ghost use Rattle.ps_plan.specs.PlanText.{amount_of, fits, is_mark_at, is_skipped, line_of, names_from, says, times_of};

use super::parts::Parts;
use ps_text::{is_blank, is_name, read_number};
use ps_world::Num;
use std::marker::Model;

/// A line that says a step, which contracts see as what it says.
#[derive(Drop)]
pub struct SaidLine<'a> {
    /// The parts of the line. The action is at place 3, and its arguments stand from there up to the last four.
    pub parts: Parts<'a>,
    pub time: Num,
    pub duration: Num,
}

impl<'a> Model for SaidLine<'a> {
    ghost use Rattle.std.specs.Prelude.{◌≡◌, true};
    ghost use Rattle.ps_plan.specs.PlanText.{Said, fits, said_of};

    ghost Value = { Said };

    ghost view = { λ s. said_of s.parts (s.time, s.duration) };

    ghost invariant = { λ s. fits s.parts ≡ true };
}

fn first_line_feed(bytes: &[u8]) -> Option<usize>
    ensures { result ≡ position (λ b. b == 10) bytes.now }
{
    bytes.iter().position(|b| *b == b'\n')
}

/// The place of the first LF, or the text's length.
fn line_end(bytes: &[u8]) -> usize
    ensures end { result ≡ position_or_len (λ b. b == 10) bytes.now }
    ensures within { result ≤ length bytes.now }
{
    first_line_feed(bytes).unwrap_or(bytes.len())
}

/// The first line of a text without its LF, and what follows the LF.
pub fn first_line(text: &[u8]) -> (&[u8], &[u8])
    requires { 0 < length text.now }
    ensures lines { lines_of text.now ≡ result.0.now ∷ lines_of result.1.now }
    ensures shorter { length result.1.now < length text.now }
{
    let end = line_end(text);
    if end < text.len() {
        (&text[..end], &text[end + 1..])
    } else {
        (text, &text[end..])
    }
}

fn is_blank_line(line: &[u8]) -> bool
    ensures { result ≡ list_all is_blank line.now }
{
    line.iter().all(|b| is_blank(*b))
}

/// Whether a line says nothing: it is blank, or its first byte is `;`.
pub fn is_skipped(line: &[u8]) -> bool
    ensures { result ≡ is_skipped line.now }
{
    line.first() == Some(&b';') || is_blank_line(line)
}

/// Whether this mark is the part at a place.
fn is_mark_at(parts: &Parts, i: usize, mark: u8) -> bool
    requires { i < length parts.now }
    ensures { result ≡ is_mark_at parts.now i mark }
{
    parts.part(i) == [mark].as_slice()
}

/// Whether each part from a place on up to the last four is a name.
fn are_names_from(parts: &Parts, from: usize) -> bool
    requires { 4 ≤ length parts.now }
    ensures { result ≡ list_all is_name (names_from parts.now from) }
{
    for i in from..parts.len() - 4 {
        if !is_name(parts.part(i)) {
            return false;
        }
    }
    true
}

/// Whether parts are those of a step, but for its numbers.
fn fits(parts: &Parts) -> bool
    ensures { result ≡ fits parts.now }
{
    let count = parts.len();
    count >= 8
        && is_mark_at(parts, 1, b':')
        && is_mark_at(parts, 2, b'(')
        && is_mark_at(parts, count - 4, b')')
        && is_mark_at(parts, count - 3, b'[')
        && is_mark_at(parts, count - 1, b']')
        && are_names_from(parts, 3)
}

/// The number that a text is, if it isn't negative.
fn amount_of(text: &[u8]) -> Option<Num>
    ensures { result ≡ amount_of text.now }
{
    let number = read_number(text).ok()?;
    if number.milli() < 0 {
        None
    } else {
        Some(number)
    }
}

/// The time and the duration of a line with these parts, if it is in the grammar.
#[tactic(auto, unfolding(crate::specs::PlanText::times_of))]
fn times_of(parts: &Parts) -> Option<(Num, Num)>
    ensures times { result ≡ times_of parts.now }
    ensures fits { IsSome result → fits parts.now ≡ true }
{
    if fits(parts) {
        amount_of(parts.part(0)).zip(amount_of(parts.part(parts.len() - 2)))
    } else {
        None
    }
}

/// What a line says, if it is in the grammar.
pub fn line_of(line: &[u8]) -> Option<SaidLine<'_>>
    ensures { result ≡ line_of line.now }
{
    let parts = Parts::of(line)?;
    let (time, duration) = times_of(&parts)?;
    Some(SaidLine {
        parts,
        time,
        duration,
    })
}

/// What a line says that isn't skipped.
pub fn says(line: &[u8]) -> Option<SaidLine<'_>>
    ensures { result ≡ says line.now }
{
    if is_skipped(line) {
        return None;
    }
    line_of(line)
}
