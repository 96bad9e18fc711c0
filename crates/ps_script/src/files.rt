//! Lines that name a file.
ghost use Rattle.std.specs.Prelude.{◌≡◌, ℕ, false, not, length, position, take, IfOk, ◌≤◌};
ghost use Rattle.std.specs.List.{position_or_len};
ghost use Rattle.ps_text.specs.Words.{is_blank, is_run_byte, reads_as};
ghost use Rattle.ps_script.specs.Files.{after_run, file_in, first_run, is_run_plan, is_source, run_length, trimmed, without_end};

use ps_text::is_blank;
use std::alloc::{AllocError, Global};
use std::marker::Model;

/// The name of a file, which contracts see as the list of its bytes.
#[derive(Drop)]
pub struct FileName {
    text: String,
}

impl Model for FileName {
    ghost use Rattle.std.specs.Prelude.{ℕ, List};
    ghost use Rattle.std.specs.String.{string_bytes};

    ghost Value = { List ℕ };

    ghost view = { λ f. string_bytes f.text };
}

impl FileName {
    /// The name as a text.
    pub fn as_str(&self) -> &str
        ensures { result.now ≡ self.now }
    {
        self.text.as_str()
    }
}

fn is_run_byte(b: u8) -> bool
    ensures { result ≡ is_run_byte b }
{
    !is_blank(b) && b != b'(' && b != b')' && b != b';'
}

/// Whether a word is this fixed text, in any case of its letters.
pub fn reads_as(word: &[u8], fixed: &[u8]) -> bool
    ensures { result ≡ reads_as word.now fixed.now }
{
    if word.len() != fixed.len() {
        return false;
    }
    for (i, b) in word.iter().enumerate() {
        if b.to_ascii_lowercase() != fixed[i] {
            return false;
        }
    }
    true
}

fn first_black_byte(bytes: &[u8]) -> Option<usize>
    ensures { result ≡ position (λ b. not (is_blank b)) bytes.now }
{
    bytes.iter().position(|b| !is_blank(*b))
}

fn first_other_byte(bytes: &[u8]) -> Option<usize>
    ensures { result ≡ position (λ b. not (is_run_byte b)) bytes.now }
{
    bytes.iter().position(|b| !is_run_byte(*b))
}

/// The place of the first byte that isn't a blank, or the text's length.
fn blanks(bytes: &[u8]) -> usize
    ensures blanks { result ≡ position_or_len (λ b. not (is_blank b)) bytes.now }
    ensures within { result ≤ length bytes.now }
{
    first_black_byte(bytes).unwrap_or(bytes.len())
}

/// How many bytes of a longer word stand at the beginning.
fn run_length(bytes: &[u8]) -> usize
    ensures run { result ≡ run_length bytes.now }
    ensures within { result ≤ length bytes.now }
{
    first_other_byte(bytes).unwrap_or(bytes.len())
}

/// What follows the blanks at the beginning.
pub fn trimmed(bytes: &[u8]) -> &[u8]
    ensures { result.now ≡ trimmed bytes.now }
{
    &bytes[blanks(bytes)..]
}

/// What stands before the blanks at the end.
pub fn without_end(bytes: &[u8]) -> &[u8]
    ensures { result.now ≡ without_end bytes.now }
{
    let mut to = bytes.len();
    while to > 0 && is_blank(bytes[to - 1]) {
        to -= 1;
    }
    &bytes[..to]
}

/// The first run of bytes of a longer word, after blanks.
pub fn first_run(bytes: &[u8]) -> &[u8]
    ensures { result.now ≡ first_run bytes.now }
{
    let text = trimmed(bytes);
    &text[..run_length(text)]
}

/// What follows that run.
pub fn after_run(bytes: &[u8]) -> &[u8]
    ensures { result.now ≡ after_run bytes.now }
{
    let text = trimmed(bytes);
    &text[run_length(text)..]
}

/// Whether the first run of a text, with no blank before it, may be this word, by the first two bytes of both.
fn may_begin(text: &[u8], word: &[u8]) -> bool
    ensures { result ≡ false → (n : ℕ) → reads_as (take n text.now) word.now ≡ false }
{
    match (text, word) {
        ([a, b, ..], [first, second, ..]) => {
            a.to_ascii_lowercase() == *first && b.to_ascii_lowercase() == *second
        }
        _ => true,
    }
}

/// Whether the first run of a text, with no blank before it, is this word.
// Most lines begin otherwise, and their runs needn't be found.
fn begins(text: &[u8], word: &[u8]) -> bool
    ensures { result ≡ reads_as (take (run_length text.now) text.now) word.now }
{
    may_begin(text, word) && reads_as(&text[..run_length(text)], word)
}

/// Whether a line begins with `source`.
pub fn is_source(bytes: &[u8]) -> bool
    ensures { result ≡ is_source bytes.now }
{
    begins(trimmed(bytes), b"source")
}

/// Whether a line begins with `run plan`.
pub fn is_run_plan(bytes: &[u8]) -> bool
    ensures { result ≡ is_run_plan bytes.now }
{
    begins(trimmed(bytes), b"run") && begins(trimmed(after_run(bytes)), b"plan")
}

/// The name of a file, without blanks at its ends. None where it is empty or no UTF-8.
pub fn file_in(alloc: Global, rest: &[u8]) -> Result<Option<FileName>, AllocError>
    ensures { IfOk result (λ f. f ≡ file_in rest.now) }
{
    let name = without_end(trimmed(rest));
    if name.is_empty() {
        return Ok(None);
    }
    match str::from_utf8(name) {
        Ok(text) => Ok(Some(FileName {
            text: String::from_str(alloc, text)?,
        })),
        Err(_) => Ok(None),
    }
}
