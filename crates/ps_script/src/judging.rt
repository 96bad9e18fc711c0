//! What the words of a line are: nested lists that fit, or the place of the first fault.
ghost use Rattle.std.specs.Prelude.{◌≡◌, [], true, IfOk, List, take, unwrap_or};
ghost use Rattle.ps_text.specs.declared.lexing.Token.{Token};
ghost use Rattle.ps_grammar.specs.declared.symbols.Symbol.{Symbol};
ghost use Rattle.ps_lists.specs.Lexemes.{marks};
ghost use Rattle.ps_lists.specs.Nested.{Nesteds};
ghost use Rattle.ps_lists.specs.Spelling.{SpellAll, is_balanced};
ghost use Rattle.ps_script.specs.Judged.{BeginAlike, Fits, IsJudged, begin_of, closed, front, in_scope, open_after, place, shut};
ghost use Rattle.ps_script.specs.Scopes.{strays};

use super::scopes::{InForce, strays};
use ps_grammar::Mark;
use ps_lists::{Lexeme, Trees, trees_of};
use ps_text::Token;
use ps_world::{Name, Num};
use std::alloc::{AllocError, Global};

/// The byte at which a token begins, or the line's length past the last.
pub fn place(bytes: &[u8], tokens: &[Token], i: usize) -> usize
    ensures { result ≡ place bytes.now tokens.now i }
{
    match tokens.get(i) {
        Some(token) => token.from,
        None => bytes.len(),
    }
}

/// The byte at which a word begins, or the line's length past the last.
fn begin_of(bytes: &[u8], words: &[Lexeme], i: usize) -> usize
    ensures { result ≡ begin_of bytes.now words.now i }
{
    match words.get(i) {
        Some(word) => word.at,
        None => bytes.len(),
    }
}

/// What each word is to the grammar.
pub fn marks_of_words(alloc: Global, words: &[Lexeme]) -> Result<Vec<Mark>, AllocError>
    ensures { IfOk result (λ v. v.items ≡ marks words.now) }
{
    let mut marks = Vec::with_capacity(alloc, words.len())?;
    for word in words {
        marks.push(word.mark)?;
    }
    Ok(marks)
}

/// How many parentheses are open after these words.
fn open_after(words: &[Lexeme]) -> usize
    ensures { result ≡ open_after 0 (marks words.now) }
{
    let mut depth: usize = 0;
    for word in words {
        match word.mark {
            Mark::Open => depth += 1,
            Mark::Close => depth = depth.saturating_sub(1),
            _ => {}
        }
    }
    depth
}

/// A parenthesis that closes.
fn shut() -> Lexeme
    ensures { result ≡ shut }
{
    Lexeme {
        mark: Mark::Close,
        name: Name::OBJECT,
        number: Num::ZERO,
        at: 0,
    }
}

/// These words, and then what closes each list that is open after them.
fn closed(alloc: Global, words: &[Lexeme]) -> Result<Vec<Lexeme>, AllocError>
    ensures { IfOk result (λ v. v.items ≡ closed words.now) }
{
    let mut all = Vec::new(alloc);
    all.extend_from_slice(words)?;
    for _ in 0..open_after(words) {
        all.push(shut())?;
    }
    Ok(all)
}

/// The place of the first variable out of its scope in words whose lists may not be closed yet.
fn first_stray(alloc: Global, words: &[Lexeme]) -> Result<Option<usize>, AllocError>
    requires { is_balanced 0 (marks (closed words.now)) ≡ true }
    ensures { IfOk result (λ at. (ts : Nesteds) × SpellAll ts (closed words.now) × (at ≡ strays [] ts)) }
{
    let all = closed(alloc, words)?;
    let trees = trees_of(alloc, all)?;
    Ok(strays(InForce::Nothing, trees.as_slice()))
}

/// The place of the first fault of words of which the one at `i` doesn't fit: that of a variable out of its scope, where one stands before it.
fn fault_at(alloc: Global, bytes: &[u8], words: &[Lexeme], i: usize) -> Result<usize, AllocError>
    requires { is_balanced 0 (marks (closed (take i words.now))) ≡ true }
    ensures { IfOk result (λ at. (ts : Nesteds) × SpellAll ts (closed (take i words.now))
        × (at ≡ unwrap_or (strays [] ts) (begin_of bytes.now words.now i))) }
{
    let count = i.min(words.len());
    match first_stray(alloc, &words[..count])? {
        Some(at) => Ok(at),
        None => Ok(begin_of(bytes, words, i)),
    }
}

/// The nested lists of words that all fit, or the place of the first variable out of its scope.
fn scoped(alloc: Global, words: Vec<Lexeme>) -> Result<Result<Trees, usize>, AllocError>
    requires { is_balanced 0 (marks words.items) ≡ true }
    ensures { IfOk result (λ found. (ts : Nesteds) × SpellAll ts words.items × (found ≡ in_scope (strays [] ts) ts)) }
{
    let trees = trees_of(alloc, words)?;
    Ok(match strays(InForce::Nothing, trees.as_slice()) {
        Some(at) => Err(at),
        None => Ok(trees),
    })
}

/// The nested lists that the words of a line are, or the place of the first fault. The first word that doesn't fit is known. The words are
/// those of any tokens that begin where they do.
pub fn judged(
    alloc: Global,
    bytes: &[u8],
    words: Vec<Lexeme>,
    misfit: Option<usize>,
) -> Result<Result<Trees, usize>, AllocError>
    requires { is_balanced 0 (marks (front misfit words.items)) ≡ true }
    ensures { IfOk result (λ found. (start : List Symbol) (tokens : List Token)
        → BeginAlike tokens words.items → Fits start (marks words.items) misfit
        → IsJudged start bytes.now tokens words.items found) }
{
    match misfit {
        Some(i) => Ok(Err(fault_at(alloc, bytes, &words, i)?)),
        None => scoped(alloc, words),
    }
}
