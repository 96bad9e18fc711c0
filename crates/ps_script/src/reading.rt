//! Reading a line of the terminal.
ghost use Rattle.std.specs.Prelude.{◌≡◌, Some, false, true, IfOk, OnErr, OnOk};
ghost use Rattle.ps_world.specs.Names.{Table};
ghost use Rattle.ps_text.specs.Tokens.{AreTokens};
ghost use Rattle.ps_text.specs.Words.{word_at, words};
ghost use Rattle.ps_text.specs.Names.{Keeps};
ghost use Rattle.ps_script.specs.Files.{after_run, file_in, is_run_plan, is_source};
ghost use Rattle.ps_lists.specs.Lexemes.{marks};
ghost use Rattle.ps_script.specs.Forms.{form_of, start_of};
ghost use Rattle.ps_script.specs.Judged.{Fits};
ghost use Rattle.ps_script.specs.Lines.{IsPlain, IsRead, bad, begins_nothing, cause_of, is_nothing, with_run_plan};

use super::commands::command_of;
use super::fact_lines::plain_command;
use super::files::{FileName, after_run, file_in, is_run_plan, is_source, trimmed};
use super::forms::{Form, form_of_leading};
use super::judging::{judged, marks_of_words};
use ps_lists::{Lexeme, lexemes_of};
use ps_machine::{Line, LineCause};
use ps_text::{LexRefusal, Names, Token, tokens};
use ps_world::Failure;
use std::alloc::{AllocError, Global};

/// What a line is read as.
#[derive(Drop)]
pub enum Read {
    /// The line says nothing.
    Nothing,
    /// A command, or why there is none.
    Line(Line),
    /// The lines of this file stand in place of the line.
    Source(FileName),
    /// The plan in this file is run.
    RunPlan(FileName),
}

/// Whether a line is blank, or its first byte after blanks is `#` or `;`.
pub fn is_nothing(bytes: &[u8]) -> bool
    ensures { result ≡ is_nothing bytes.now }
{
    match trimmed(bytes) {
        [] => true,
        [first, ..] => *first == b'#' || *first == b';',
    }
}

/// A bad line.
fn bad(cause: LineCause) -> Read
    ensures { result ≡ bad cause }
{
    Read::Line(Line::Bad(cause))
}

/// Why a line with a word without a class is bad.
pub fn cause_of(refusal: LexRefusal) -> LineCause
    ensures { result ≡ cause_of refusal }
{
    match refusal {
        LexRefusal::Bad { at } => LineCause::Lex { at },
        LexRefusal::Number { at } => LineCause::Number { at },
    }
}

/// Puts the names `run` and `plan` into the table.
fn put_run_plan(names: &mut Names) -> Result<(), AllocError>
    ensures ok { OnOk result (names.new ≡ with_run_plan names.old) }
    ensures kept { Keeps names.old names.new }
{
    names.intern_name(b"run")?;
    names.intern_name(b"plan")?;
    Ok(())
}

/// The word that the token at a place is, or an empty one past the last.
fn word_of<'a>(bytes: &'a [u8], tokens: &[Token], i: usize) -> &'a [u8]
    requires { AreTokens bytes.now tokens.now }
    ensures { result.now ≡ word_at (words bytes.now) i }
{
    match tokens.get(i) {
        Some(token) => &bytes[token.from..token.to],
        None => &[],
    }
}

/// The longest form that a line begins with.
fn form_of_tokens(bytes: &[u8], tokens: &[Token]) -> Option<Form>
    requires { AreTokens bytes.now tokens.now }
    ensures { result ≡ form_of (words bytes.now) }
{
    form_of_leading(
        word_of(bytes, tokens, 0),
        word_of(bytes, tokens, 1),
        word_of(bytes, tokens, 2),
    )
}

/// Reads a line of `source`.
fn read_source(alloc: Global, bytes: &[u8]) -> Result<Read, AllocError>
    requires something { is_nothing bytes.now ≡ false }
    requires source { is_source bytes.now ≡ true }
    ensures { IfOk result (λ r. (table : Table) → IsRead table bytes.now r table) }
{
    match file_in(alloc, after_run(bytes))? {
        Some(file) => Ok(Read::Source(file)),
        None => Ok(bad(LineCause::Shape { at: bytes.len() })),
    }
}

/// Reads a line of `run plan`.
fn read_run_plan(alloc: Global, names: &mut Names, bytes: &[u8]) -> Result<Read, AllocError>
    requires something { is_nothing bytes.now ≡ false }
    requires no_source { is_source bytes.now ≡ false }
    requires plan { is_run_plan bytes.now ≡ true }
    ensures read { IfOk result (λ r. IsRead names.old bytes.now r names.new) }
    ensures err { OnErr result (Keeps names.old names.new) }
{
    match file_in(alloc, after_run(after_run(bytes)))? {
        Some(file) => {
            put_run_plan(names)?;
            Ok(Read::RunPlan(file))
        }
        None => Ok(bad(LineCause::Shape { at: bytes.len() })),
    }
}

/// The place of the first of a line's words that doesn't fit the form, or of the line's end where more is wanted.
fn misfit_of(alloc: Global, form: Form, words: &[Lexeme]) -> Result<Option<usize>, AllocError>
    ensures { IfOk result (λ misfit. Fits (start_of form) (marks words.now) misfit) }
{
    let marks = marks_of_words(alloc, words)?;
    form.first_misfit(alloc, &marks)
}

/// Reads a line whose leading words are those of a form.
///
/// What the words are to the grammar is found once, as they are made. So their names are in the table before it is known whether the line
/// fits, and are taken back where it doesn't.
fn read_form(
    alloc: Global,
    names: &mut Names,
    bytes: &[u8],
    form: Form,
    tokens: Vec<Token>,
) -> Result<Read, AllocError>
    requires plain { IsPlain bytes.now }
    requires tokens { AreTokens bytes.now tokens.items }
    requires form { form_of (words bytes.now) ≡ Some form }
    ensures read { IfOk result (λ r. IsRead names.old bytes.now r names.new) }
    ensures err { OnErr result (Keeps names.old names.new) }
{
    let before = names.len();
    let words = lexemes_of(alloc, names, bytes, tokens)?;
    if let Some(command) = plain_command(form, &words) {
        return Ok(Read::Line(Line::Good(command)));
    }
    let misfit = misfit_of(alloc, form, &words)?;
    match judged(alloc, bytes, words, misfit)? {
        Ok(trees) => {
            let command = command_of(alloc, form, trees.as_slice())?;
            Ok(Read::Line(Line::Good(command)))
        }
        Err(at) => {
            names.cut_back(before);
            Ok(bad(LineCause::Shape { at }))
        }
    }
}

/// Reads a line that names no file.
fn read_plain(alloc: Global, names: &mut Names, bytes: &[u8]) -> Result<Read, AllocError>
    requires { IsPlain bytes.now }
    ensures read { IfOk result (λ r. IsRead names.old bytes.now r names.new) }
    ensures err { OnErr result (Keeps names.old names.new) }
{
    match tokens(alloc, bytes) {
        Ok(tokens) => match form_of_tokens(bytes, &tokens) {
            Some(form) => read_form(alloc, names, bytes, form, tokens),
            None => Ok(bad(LineCause::Command)),
        },
        Err(Failure::Refused(refusal)) => Ok(bad(cause_of(refusal))),
        Err(Failure::OutOfMemory) => Err(AllocError),
    }
}

/// Reads a line. After an error the table may have new names.
fn read_any(alloc: Global, names: &mut Names, bytes: &[u8]) -> Result<Read, AllocError>
    ensures read { IfOk result (λ r. IsRead names.old bytes.now r names.new) }
    ensures err { OnErr result (Keeps names.old names.new) }
{
    if is_nothing(bytes) {
        return Ok(Read::Nothing);
    }
    if is_source(bytes) {
        return read_source(alloc, bytes);
    }
    if is_run_plan(bytes) {
        return read_run_plan(alloc, names, bytes);
    }
    read_plain(alloc, names, bytes)
}

/// What a line is read as; its bytes are those before its LF.
///
/// The names of a good line, and `run` and `plan` of a line that runs a plan, are put into the table. After any other line, a bad one
/// too, and after an error, the table is as it was. A bad line tells the first fault.
pub fn read_line(alloc: Global, names: &mut Names, bytes: &[u8]) -> Result<Read, AllocError>
    ensures read { IfOk result (λ r. IsRead names.old bytes.now r names.new) }
    ensures err { OnErr result (names.new ≡ names.old) }
{
    let known = names.len();
    let read = read_any(alloc, names, bytes);
    if read.is_err() {
        names.cut_back(known);
    }
    read
}
