//! The part of a line that is read as words.
ghost use Rattle.std.specs.Prelude.{◌≡◌, ◌≤◌, false, IfOk, length};
ghost use Rattle.ps_text.specs.Words.{goes_on, is_run_byte};
ghost use Rattle.ps_members.specs.Parts.{is_args, is_feedback, place_before, up_to_number, without_open, worded};

use ps_script::{after_run, first_run, reads_as};
use ps_text::is_blank;
use std::alloc::{AllocError, Global};

fn is_run_byte(b: u8) -> bool
    ensures { result ≡ is_run_byte b }
{
    !is_blank(b) && b != b'(' && b != b')' && b != b';'
}

/// Whether a text begins with a byte of a longer word.
fn goes_on(bytes: &[u8]) -> bool
    ensures { result ≡ goes_on bytes.now }
{
    match bytes {
        [] => false,
        [first, ..] => is_run_byte(*first),
    }
}

/// A text with a blank in place of each `_` that is a word of its own.
fn without_open(alloc: Global, bytes: &[u8]) -> Result<Vec<u8>, AllocError>
    ensures { IfOk result (λ v. v.items ≡ without_open false bytes.now) }
{
    let mut text = Vec::new(alloc);
    let mut joined = false;
    for (i, b) in bytes.iter().enumerate() {
        let alone = *b == b'_' && !joined && !goes_on(&bytes[i + 1..]);
        text.push(if alone { b' ' } else { *b })?;
        joined = is_run_byte(*b);
    }
    Ok(text)
}

/// Whether a line begins with `feedback`.
fn is_feedback(bytes: &[u8]) -> bool
    ensures { result ≡ is_feedback bytes.now }
{
    reads_as(first_run(bytes), b"feedback")
}

/// Whether a line begins with `args`.
fn is_args(bytes: &[u8]) -> bool
    ensures { result ≡ is_args bytes.now }
{
    reads_as(first_run(bytes), b"args")
}

/// The place at which such an end of the line begins.
pub fn place_before(bytes: &[u8], end: &[u8]) -> usize
    ensures place { result ≡ place_before bytes.now end.now }
    ensures within { result ≤ length bytes.now }
{
    bytes.len().saturating_sub(end.len())
}

/// A line of feedback up to the end of its number.
fn up_to_number(bytes: &[u8]) -> &[u8]
    ensures { result.now ≡ up_to_number bytes.now }
{
    &bytes[..place_before(bytes, after_run(after_run(bytes)))]
}

/// The part of a line that is read as words: of feedback up to its number, and of places all but those that are open.
pub fn worded(alloc: Global, bytes: &[u8]) -> Result<Vec<u8>, AllocError>
    ensures { IfOk result (λ v. v.items ≡ worded bytes.now) }
{
    if is_feedback(bytes) {
        return Vec::from_slice(alloc, up_to_number(bytes));
    }
    if is_args(bytes) {
        return without_open(alloc, bytes);
    }
    Vec::from_slice(alloc, bytes)
}
