//! The words of an entry's line, and what they stand for.
ghost use Rattle.std.specs.Prelude.{◌≡◌, ◌≤◌, ◌-◌, ◌^◌, position, IfOk, IfSome, IsTrue, OnOk, false, length, min, nat_eq};
ghost use Rattle.std.specs.Char.{is_ascii_digit};
ghost use Rattle.std.specs.List.{list_all, position_or_len, starts_with};
ghost use Rattle.std.specs.Str.Parse.{digits_value_after};
ghost use Rattle.ps_text.specs.Decimals.{are_digits};
ghost use Rattle.ps_text.specs.Names.{Keeps};
ghost use Rattle.ps_text.specs.Words.{word_at};
ghost use Rattle.ps_entries.specs.Words.{after_by, after_two, after_word, head_of, is_space, name_at, name_of, names_of, number_at, short_at, tail_after, tail_of, up_to, whole_number, with_word, with_words};

use ps_text::{Names, Words, is_name};
use ps_world::Name;
use std::alloc::{AllocError, Global};

/// The place of the first space.
fn first_space(text: &[u8]) -> Option<usize>
    ensures { result ≡ position is_space text.now }
{
    text.iter().position(|b| *b == b' ')
}

/// The place of the first space, or the text's length.
fn space(text: &[u8]) -> usize
    ensures place { result ≡ position_or_len is_space text.now }
    ensures within { result ≤ length text.now }
{
    first_space(text).unwrap_or(text.len())
}

/// What stands after the first space, or nothing.
fn after_word(text: &[u8]) -> &[u8]
    ensures { result.now ≡ after_word text.now }
{
    let from = space(text);
    if from < text.len() {
        &text[from + 1..]
    } else {
        &text[from..]
    }
}

/// What stands after two words.
fn after_two(text: &[u8]) -> &[u8]
    ensures { result.now ≡ after_two text.now }
{
    after_word(after_word(text))
}

/// Whether two texts may begin alike, by their first bytes.
fn may_begin(text: &[u8], start: &[u8]) -> bool
    ensures { result ≡ false → starts_with nat_eq text.now start.now ≡ false }
{
    match (text, start) {
        ([first, ..], [wanted, ..]) => first == wanted,
        _ => true,
    }
}

/// Whether a text begins with these bytes.
// Most texts differ from them in their first byte.
pub fn begins(text: &[u8], start: &[u8]) -> bool
    ensures { result ≡ starts_with nat_eq text.now start.now }
{
    may_begin(text, start) && text.starts_with(start)
}

/// What stands after whoever edits, and a space.
fn after_by(text: &[u8]) -> &[u8]
    ensures { result.now ≡ after_by text.now }
{
    if begins(text, b"performer ") {
        after_word(after_two(text))
    } else {
        after_two(text)
    }
}

/// What stands in a line after its hand and isn't read word by word: an edit, a query, a note, or nothing.
fn tail_after(text: &[u8]) -> &[u8]
    ensures { result.now ≡ tail_after text.now }
{
    if begins(text, b"edit ") {
        after_by(after_word(text))
    } else if begins(text, b"ask ") {
        after_word(text)
    } else if begins(text, b"feedback ") {
        after_two(after_two(text))
    } else {
        &[]
    }
}

/// What stands in a line and isn't read word by word.
pub fn tail_of(line: &[u8]) -> &[u8]
    ensures { result.now ≡ tail_of line.now }
{
    tail_after(after_word(line))
}

/// What stands before it, where this is it.
pub fn head_of<'a>(line: &'a [u8], tail: &[u8]) -> &'a [u8]
    requires { tail.now ≡ tail_of line.now }
    ensures { result.now ≡ head_of line.now }
{
    &line[..line.len().saturating_sub(tail.len())]
}

/// The name that a word is, which is put into the table, or `object` where it is none. Where memory runs out nothing changes.
fn name_of(names: &mut Names, word: &[u8]) -> Result<Name, AllocError>
    ensures name { IfOk result (λ n. n ≡ name_of names.old word.now) }
    ensures table { OnOk result (names.new ≡ with_word names.old word.now) }
    ensures kept { Keeps names.old names.new }
{
    if is_name(word) {
        names.intern_name(word)
    } else {
        Ok(Name::OBJECT)
    }
}

/// The name that each word is. They are put into the table, in order.
pub fn names_of(alloc: Global, names: &mut Names, words: &Words) -> Result<Vec<Name>, AllocError>
    ensures names { IfOk result (λ v. v.items ≡ names_of names.old words.now) }
    ensures table { OnOk result (names.new ≡ with_words names.old words.now) }
    ensures kept { Keeps names.old names.new }
{
    let mut found = Vec::with_capacity(alloc, words.len())?;
    for i in 0..words.len() {
        found.push_reserved(name_of(names, words.word(i))?);
    }
    Ok(found)
}

/// The name at a place, or `object` past the end.
pub fn name_at(names: &[Name], at: usize) -> Name
    ensures { result ≡ name_at names.now at }
{
    match names.get(at) {
        Some(name) => *name,
        None => Name::OBJECT,
    }
}

/// The word at a place, or nothing past the end.
fn word_at<'a>(words: &'a Words, at: usize) -> &'a [u8]
    ensures { result.now ≡ word_at words.now at }
{
    if at < words.len() {
        words.word(at)
    } else {
        &[]
    }
}

fn has_only_digits(text: &[u8]) -> bool
    ensures { result ≡ list_all is_ascii_digit text.now }
{
    text.iter().all(|b| b.is_ascii_digit())
}

fn are_digits(text: &[u8]) -> bool
    ensures { result ≡ are_digits text.now }
{
    !text.is_empty() && has_only_digits(text)
}

/// The number that digits write, or the greatest of 64 bits where it is greater.
fn value_of(digits: &[u8]) -> u64
    requires { IsTrue (list_all is_ascii_digit digits.now) }
    ensures { result ≡ min (digits_value_after 10 0 digits.now) (2 ^ 64 - 1) }
{
    let mut value: u64 = 0;
    for digit in digits {
        value = value
            .saturating_mul(10)
            .saturating_add(u64::from(digit - b'0'));
    }
    value
}

/// The number that a word of digits writes, or the greatest of 64 bits where it is greater.
fn whole_number(word: &[u8]) -> Option<u64>
    ensures { result ≡ whole_number word.now }
{
    if are_digits(word) {
        Some(value_of(word))
    } else {
        None
    }
}

/// The number that the word at a place is.
pub fn number_at(words: &Words, at: usize) -> Option<u64>
    ensures { result ≡ number_at words.now at }
{
    whole_number(word_at(words, at))
}

/// A number of 32 bits.
pub fn short(number: Option<u64>) -> Option<u32>
    ensures { result ≡ up_to (2 ^ 32 - 1) number }
{
    match number {
        Some(n) => if n <= u64::from(u32::MAX) {
            Some(n as u32)
        } else {
            None
        },
        None => None,
    }
}

/// A number of 8 bits.
pub fn byte(number: Option<u64>) -> Option<u8>
    ensures { result ≡ up_to (2 ^ 8 - 1) number }
{
    match number {
        Some(n) => if n <= u64::from(u8::MAX) {
            Some(n as u8)
        } else {
            None
        },
        None => None,
    }
}

/// The number of 32 bits that the word at a place is.
pub fn short_at(words: &Words, at: usize) -> Option<u32>
    ensures { result ≡ short_at words.now at }
{
    short(number_at(words, at))
}
