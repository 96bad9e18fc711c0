//! The words of a text.
ghost use Rattle.std.specs.Prelude.{◌≡◌, ◌+◌, ◌<◌, ◌≤◌, ◌==◌, false, Some, drop, length, not, position, slice_get, slice_index, IfOk, IsTrue, MatchOption};
ghost use Rattle.std.specs.List.{position_or_len};
ghost use Rattle.ps_text.specs.Tokens.{IsFirstWord, IsGap, IsNextWord};
ghost use Rattle.ps_text.specs.Words.{is_blank, is_paren, is_run_byte, reads_as, word_at, words};

use super::spans::{Span, line_end};
use std::alloc::{AllocError, Global};
use std::marker::Model;

/// Whether a byte is a blank: a space, a tab, a CR or an LF.
pub fn is_blank(b: u8) -> bool
    ensures { result ≡ is_blank b }
{
    b == b' ' || b == b'\t' || b == b'\r' || b == b'\n'
}

fn is_paren(b: u8) -> bool
    ensures { result ≡ is_paren b }
{
    b == b'(' || b == b')'
}

fn is_run_byte(b: u8) -> bool
    ensures { result ≡ is_run_byte b }
{
    !is_blank(b) && !is_paren(b) && b != b';'
}

fn first_other_byte(bytes: &[u8]) -> Option<usize>
    ensures { result ≡ position (λ b. not (is_run_byte b)) bytes.now }
{
    bytes.iter().position(|b| !is_run_byte(*b))
}

/// The place of the first byte from a place on that is none of a longer word, or the text's length.
fn run_end(bytes: &[u8], from: usize) -> usize
    requires { from ≤ length bytes.now }
    ensures end { result ≡ from + position_or_len (λ b. not (is_run_byte b)) (drop from bytes.now) }
    ensures within { result ≤ length bytes.now }
{
    let rest = &bytes[from..];
    from + first_other_byte(rest).unwrap_or(rest.len())
}

/// Whether no byte of a longer word stands at a place, as at the text's end.
pub(crate) fn run_ends(bytes: &[u8], at: usize) -> bool
    ensures { IsTrue result → at < length bytes.now → is_run_byte (slice_index bytes.now at) ≡ false }
{
    match bytes.get(at) {
        Some(b) => !is_run_byte(*b),
        None => true,
    }
}

/// The end of the word that begins at a place.
// In line in the loops over words, which call it for each, as `word_start` is.
#[inline(always)]
pub(crate) fn word_end(bytes: &[u8], from: usize) -> usize
    requires within { from < length bytes.now }
    requires black { is_blank (slice_index bytes.now from) ≡ false }
    requires no_comment { (slice_index bytes.now from == 59) ≡ false }
    ensures longer { from < result }
    ensures within { result ≤ length bytes.now }
    ensures word { IsFirstWord bytes.now (record { from = from; to = result }) }
{
    if is_paren(bytes[from]) {
        from + 1
    } else {
        run_end(bytes, from + 1)
    }
}

/// The place from a place on where the next word begins, or the text's length.
#[inline(always)]
pub(crate) fn word_start(bytes: &[u8], mut from: usize) -> usize
    requires { from ≤ length bytes.now }
    ensures later { from ≤ result }
    ensures within { result ≤ length bytes.now }
    ensures gap { IsGap bytes.now from result }
    ensures black { result < length bytes.now → is_blank (slice_index bytes.now result) ≡ false }
    ensures no_comment { result < length bytes.now → (slice_index bytes.now result == 59) ≡ false }
{
    while from < bytes.len() {
        let b = bytes[from];
        if is_blank(b) {
            from += 1;
        } else if b == b';' {
            from = line_end(bytes, from + 1);
        } else {
            return from;
        }
    }
    from
}

/// The span of the next word from a place on, or None where there is no word.
fn next_word(bytes: &[u8], from: usize) -> Option<Span>
    requires { from ≤ length bytes.now }
    ensures { MatchOption result
        (IsGap bytes.now from (length bytes.now)) (IsNextWord bytes.now from) }
{
    let from = word_start(bytes, from);
    if from == bytes.len() {
        return None;
    }
    Some(Span {
        from,
        to: word_end(bytes, from),
    })
}

/// How many words a text of this length seldom has more than, for which a vector of them has room at first.
pub(crate) fn usual_count(bytes: &[u8]) -> usize {
    bytes.len() / 4 + 1
}

/// The words of a text, which contracts see as their list.
///
/// Space, tab, CR and LF part words. `;` begins a comment up to the end of its line. `(` and `)` are words of their own.
#[derive(Drop)]
pub struct Words<'a> {
    bytes: &'a [u8],
    spans: Vec<Span>,
}

impl<'a> Model for Words<'a> {
    ghost use Rattle.std.specs.Prelude.{ℕ, List};
    ghost use Rattle.ps_text.specs.Words.{AreWithin, pieces};

    ghost Value = { List (List ℕ) };

    ghost view = { λ w. pieces w.bytes.now w.spans.items };

    ghost invariant = { λ w. AreWithin w.bytes.now w.spans.items };
}

impl<'a> Words<'a> {
    /// The words of these bytes.
    pub fn of(alloc: Global, bytes: &'a [u8]) -> Result<Words<'a>, AllocError>
        ensures { IfOk result (λ w. w ≡ words bytes.now) }
    {
        let mut spans = Vec::with_capacity(alloc, usual_count(bytes))?;
        let mut from = 0;
        while let Some(span) = next_word(bytes, from) {
            spans.push(span)?;
            from = span.to;
        }
        Ok(Words { bytes, spans })
    }

    /// How many words.
    pub fn len(&self) -> usize
        ensures { result ≡ length self.now }
    {
        self.spans.len()
    }

    /// Whether there is no word.
    pub fn is_empty(&self) -> bool
        ensures { result ≡ (length self.now == 0) }
    {
        self.len() == 0
    }

    /// The word at place `i`, counted from 0.
    pub fn word(&self, i: usize) -> &[u8]
        requires { i < length self.now }
        ensures word { slice_get self.now i ≡ Some result.now }
        ensures place { word_at self.now i ≡ result.now }
    {
        let span = self.spans[i];
        &self.bytes[span.from..span.to]
    }

    /// Whether the word at place `i` is this fixed word, in any case of its letters. The fixed word is in lower case and not empty, so past the end it is false.
    pub fn reads(&self, i: usize, fixed: &[u8]) -> bool
        ensures { result ≡ reads_as (word_at self.now i) fixed.now }
    {
        if i < self.len() {
            reads_as(self.word(i), fixed)
        } else {
            fixed.is_empty()
        }
    }
}

/// Whether a word is this fixed text, in any case of its letters.
fn reads_as(word: &[u8], fixed: &[u8]) -> bool
    ensures { result ≡ reads_as word.now fixed.now }
{
    if word.len() != fixed.len() {
        return false;
    }
    for (i, b) in word.iter().enumerate() {
        if b.to_ascii_lowercase() != fixed[i] {
            return false;
        }
    }
    true
}
