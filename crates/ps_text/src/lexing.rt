//! The tokens of a text.
ghost use Rattle.std.specs.Prelude.{◌≡◌, ℕ, ◌<◌, ◌≤◌, ◌==◌, ◌∷◌, [], false, Err, Some, length, is_some, slice_index, slice_range, IfErr, IfOk, IfSome};
ghost use Rattle.ps_world.specs.Failures.{refusal_of};
ghost use Rattle.ps_text.specs.Tokens.{AreTokens, IsFirstWord, IsNextWord, RefusesText, begins_digit, begins_number, class_at, class_of, fault_of_word, is_sign, is_sign_byte, span_of};
ghost use Rattle.ps_text.specs.Words.{is_blank, is_paren};

use super::decimals::read_number;
use super::table::{LONGEST_NAME, first_other_byte, is_name};
use super::word_spans::{run_ends, usual_count, word_end, word_start};
use ps_world::Failure;
use std::alloc::Global;

/// What a word is. The first class that fits is its class.
#[derive(Clone, Copy, PartialEq, Eq, Debug)]
pub enum Class {
    LeftParen,
    RightParen,
    /// One of `+ * / = < > <= >= -`.
    Sign,
    /// `?` and a name.
    Variable,
    /// `:` and a name.
    Keyword,
    /// A number, which begins with a digit, or with `-` and a digit.
    Number,
    /// `#t` in lower case.
    Continuous,
    Name,
}

/// A word of a text: its class, and its bytes from one place up to another, which isn't in it.
#[derive(Clone, Copy, PartialEq, Eq, Debug)]
pub struct Token {
    pub class: Class,
    pub from: usize,
    pub to: usize,
}

/// Why a text has no tokens. Bytes are counted from 0.
#[derive(Clone, Copy, PartialEq, Eq, Debug)]
pub enum LexRefusal {
    /// The word that begins here has no class, and doesn't begin as a number.
    Bad { at: usize },
    /// The word that begins here begins as a number, and is none.
    Number { at: usize },
}

fn is_sign_byte(b: u8) -> bool
    ensures { result ≡ is_sign_byte b }
{
    (b == b'+' || b == b'*' || b == b'/') || (b == b'=' || b == b'<' || b == b'>' || b == b'-')
}

fn is_sign(word: &[u8]) -> bool
    ensures { result ≡ is_sign word.now }
{
    match word {
        [] => false,
        [b] => is_sign_byte(*b),
        _ => word == b"<=".as_slice() || word == b">=".as_slice(),
    }
}

fn begins_digit(text: &[u8]) -> bool
    ensures { result ≡ begins_digit text.now }
{
    match text {
        [first, ..] => first.is_ascii_digit(),
        [] => false,
    }
}

fn begins_number(word: &[u8]) -> bool
    ensures { result ≡ begins_number word.now }
{
    match word {
        [b'-', rest @ ..] => begins_digit(rest),
        _ => begins_digit(word),
    }
}

fn class_of(word: &[u8]) -> Option<Class>
    ensures { result ≡ class_of word.now }
{
    match word {
        [b'('] => Some(Class::LeftParen),
        [b')'] => Some(Class::RightParen),
        [b'?', name @ ..] => is_name(name).then_some(Class::Variable),
        [b':', name @ ..] => is_name(name).then_some(Class::Keyword),
        [b'#', b't'] => Some(Class::Continuous),
        _ => {
            // No two of these classes have a word in common. Most words are names.
            if is_name(word) {
                Some(Class::Name)
            } else if begins_number(word) {
                read_number(word).is_ok().then_some(Class::Number)
            } else {
                is_sign(word).then_some(Class::Sign)
            }
        }
    }
}

/// The fault of a word without a class.
fn fault_of_word(at: usize, word: &[u8]) -> LexRefusal
    ensures { result ≡ fault_of_word at word.now }
{
    if begins_number(word) {
        LexRefusal::Number { at }
    } else {
        LexRefusal::Bad { at }
    }
}

fn class_at(at: usize, word: &[u8]) -> Result<Class, LexRefusal>
    ensures { result ≡ class_at at word.now }
{
    match class_of(word) {
        Some(class) => Ok(class),
        None => Err(fault_of_word(at, word)),
    }
}

/// The end of the word that begins at a place, if that is a name. It may be a name where this is None.
// Most words are names, of which this reads each byte once.
fn name_end(bytes: &[u8], at: usize) -> Option<usize>
    requires { at < length bytes.now }
    ensures longer { IfSome result (λ to. at < to) }
    ensures within { IfSome result (λ to. to ≤ length bytes.now) }
    ensures word { IfSome result (λ to. IsFirstWord bytes.now (record { from = at; to = to })) }
    ensures name { IfSome result (λ to. class_of (slice_range bytes.now at to) ≡ Some Class.Name) }
{
    if !bytes[at].is_ascii_alphabetic() {
        return None;
    }
    let rest = &bytes[at + 1..];
    let count = first_other_byte(rest).unwrap_or(rest.len());
    if count >= LONGEST_NAME {
        return None;
    }
    if run_ends(rest, count) {
        Some(at + 1 + count)
    } else {
        None
    }
}

/// The class of a parenthesis.
fn paren_class(b: u8) -> Option<Class>
    ensures paren { is_some result ≡ is_paren b }
    ensures class { IfSome result (λ class. class_of (b ∷ []) ≡ Some class) }
{
    match b {
        b'(' => Some(Class::LeftParen),
        b')' => Some(Class::RightParen),
        _ => None,
    }
}

/// The token that begins at a place, or why the word there has no class.
fn token_at(bytes: &[u8], at: usize) -> Result<Token, LexRefusal>
    requires within { at < length bytes.now }
    requires black { is_blank (slice_index bytes.now at) ≡ false }
    requires no_comment { (slice_index bytes.now at == 59) ≡ false }
    ensures word { IfOk result (λ t. IsNextWord bytes.now at (span_of t)) }
    ensures class { IfOk result (λ t. class_of (slice_range bytes.now t.from t.to) ≡ Some t.class) }
    ensures refused { IfErr result (λ r. (to : ℕ)
        × IsNextWord bytes.now at (record { from = at; to = to })
        × (class_at at (slice_range bytes.now at to) ≡ Err r)) }
{
    // The two kinds of most words come first.
    if let Some(class) = paren_class(bytes[at]) {
        return Ok(Token {
            class,
            from: at,
            to: at + 1,
        });
    }
    if let Some(to) = name_end(bytes, at) {
        return Ok(Token {
            class: Class::Name,
            from: at,
            to,
        });
    }
    let to = word_end(bytes, at);
    let class = class_at(at, &bytes[at..to])?;
    Ok(Token {
        class,
        from: at,
        to,
    })
}

/// The words of a text, in order, each with its class. Blanks and comments give none.
///
/// The first word without a class is refused: as `Number` where it begins as a number, and as `Bad` otherwise. Memory may run out
/// at the start, or at any word.
pub fn tokens(alloc: Global, bytes: &[u8]) -> Result<Vec<Token>, Failure<LexRefusal>>
    ensures ok { IfOk result (λ v. AreTokens bytes.now v.items) }
    ensures refused { IfSome (refusal_of result) (λ r. RefusesText r bytes.now) }
{
    let mut tokens = Vec::with_capacity(alloc, usual_count(bytes))?;
    let mut from = 0;
    loop {
        let at = word_start(bytes, from);
        if at == bytes.len() {
            return Ok(tokens);
        }
        let token = match token_at(bytes, at) {
            Ok(token) => token,
            Err(refusal) => return Err(Failure::Refused(refusal)),
        };
        from = token.to;
        tokens.push(token)?;
    }
}
