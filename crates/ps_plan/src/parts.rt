//! The parts of a line.
ghost use Rattle.std.specs.Prelude.{◌≡◌, ◌+◌, ◌<◌, ◌≤◌, ◌∷◌, false, drop, length, not, position, slice_index, slice_range};
ghost use Rattle.std.specs.List.{position_or_len};
ghost use Rattle.std.specs.Option.{SomeIff};
ghost use Rattle.ps_text.specs.Words.{is_blank, word_at};
ghost use Rattle.ps_plan.specs.PlanText.{is_mark, is_word_byte, parts_of};

use ps_text::{Span, is_blank};
use std::marker::Model;

/// The most parts of a line that says a step.
pub const MOST_PARTS: usize = 14;

/// The parts of a line, at most 14, which contracts see as their list.
///
/// Each of `:`, `(`, `)`, `[` and `]` is a part, and so is each longest run of other bytes that are no blanks.
#[derive(Drop)]
pub struct Parts<'a> {
    line: &'a [u8],
    spans: [Span; MOST_PARTS],
    count: usize,
}

impl<'a> Model for Parts<'a> {
    ghost use Rattle.std.specs.Prelude.{ℕ, ◌≤◌, List, take};
    ghost use Rattle.ps_text.specs.Words.{AreWithin, pieces};

    ghost Value = { List (List ℕ) };

    ghost view = { λ p. pieces p.line.now (take p.count p.spans) };

    ghost invariant = { λ p. (p.count ≤ 14) × AreWithin p.line.now (take p.count p.spans) };
}

fn is_mark(b: u8) -> bool
    ensures { result ≡ is_mark b }
{
    b == b':' || b == b'(' || b == b')' || b == b'[' || b == b']'
}

fn is_word_byte(b: u8) -> bool
    ensures { result ≡ is_word_byte b }
{
    !is_blank(b) && !is_mark(b)
}

fn first_other_byte(bytes: &[u8]) -> Option<usize>
    ensures { result ≡ position (λ b. not (is_word_byte b)) bytes.now }
{
    bytes.iter().position(|b| !is_word_byte(*b))
}

/// The place of the first byte from a place on that is none of a word, or the line's length.
fn word_end(line: &[u8], from: usize) -> usize
    requires { from ≤ length line.now }
    ensures end { result ≡ from + position_or_len (λ b. not (is_word_byte b)) (drop from line.now) }
    ensures within { result ≤ length line.now }
{
    let rest = &line[from..];
    from + first_other_byte(rest).unwrap_or(rest.len())
}

/// The end of the part that begins at a place.
fn part_end(line: &[u8], from: usize) -> usize
    requires within { from < length line.now }
    requires black { is_blank (slice_index line.now from) ≡ false }
    ensures longer { from < result }
    ensures within { result ≤ length line.now }
    ensures part { parts_of (drop from line.now)
        ≡ slice_range line.now from result ∷ parts_of (drop result line.now) }
{
    if is_mark(line[from]) {
        from + 1
    } else {
        word_end(line, from + 1)
    }
}

impl<'a> Parts<'a> {
    /// The parts of a line, or None exactly where there are more than 14.
    pub fn of(line: &'a [u8]) -> Option<Parts<'a>>
        ensures { SomeIff result (length (parts_of line.now) ≤ MOST_PARTS) (parts_of line.now) }
    {
        let mut spans = [Span { from: 0, to: 0 }; MOST_PARTS];
        let mut count = 0;
        let mut from = 0;
        while from < line.len() {
            if is_blank(line[from]) {
                from += 1;
                continue;
            }
            let to = part_end(line, from);
            if count == MOST_PARTS {
                return None;
            }
            spans[count] = Span { from, to };
            count += 1;
            from = to;
        }
        Some(Parts { line, spans, count })
    }

    /// How many parts.
    pub fn len(&self) -> usize
        ensures count { result ≡ length self.now }
        ensures few { result ≤ MOST_PARTS }
    {
        self.count
    }

    /// The part at place `i`, counted from 0.
    pub fn part(&self, i: usize) -> &'a [u8]
        requires { i < length self.now }
        ensures { result.now ≡ word_at self.now i }
    {
        let spans = &self.spans[..self.count];
        let span = spans[i];
        &self.line[span.from..span.to]
    }
}
