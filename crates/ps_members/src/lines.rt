//! What a line of a member script says.
ghost use Rattle.std.specs.Prelude.{◌≡◌, IfOk, map, true};
ghost use Rattle.ps_text.specs.Names.{Keeps};
ghost use Rattle.ps_text.specs.Tokens.{AreTokens};
ghost use Rattle.ps_text.specs.Words.{words};
ghost use Rattle.ps_lists.specs.Nested.{nesteds};
ghost use Rattle.ps_lists.specs.NestedViews.{nested};
ghost use Rattle.ps_members.specs.Answers.{OnAnswer};
ghost use Rattle.ps_members.specs.Forms.{form_at, is_edit, may_edit};
ghost use Rattle.ps_members.specs.Lines.{IsFormed, IsSaid, Says, is_plain};
ghost use Rattle.ps_members.specs.Parts.{worded};
ghost use Rattle.ps_script.specs.Commands.{command_of};
ghost use Rattle.ps_machine.specs.declared.inputs.Command.TheVariants as command;
ghost use Rattle.ps_members.specs.declared.forms.Form.TheVariants as kind;

use super::args::{first_other, pattern_of};
use super::feedback::feedback_of;
use super::forms::{Form, form_at};
use super::parts::worded;
use super::places::{Place, Said};
use ps_lists::{Tree, head, lexemes_of, rest};
use ps_machine::{Command, LineCause, Unit};
use ps_script::{
    Form as ScriptForm, cause_of, command_of, first_condition, judged, marks_of_words, place,
};
use ps_text::{Names, Token, Words, tokens};
use ps_world::{Edit, Failure, Name};
use std::alloc::{AllocError, Global};

/// The edit that a line is.
fn edit_of(alloc: Global, form: ScriptForm, trees: &[Tree]) -> Result<Edit, AllocError>
    requires { is_edit form ≡ true }
    ensures { IfOk result (λ e. command_of form (nesteds (map nested trees.now))
        ≡ command.Edit e) }
{
    match command_of(alloc, form, trees)? {
        Command::Edit(edit) => Ok(edit),
        _ => unreachable!(),
    }
}

/// What a line that fits its form says.
fn said_of(alloc: Global, form: Form, trees: &[Tree]) -> Result<Said, AllocError>
    requires plain { is_plain form ≡ true }
    requires edit { may_edit form ≡ true }
    ensures { IfOk result (Says form (nesteds (map nested trees.now))) }
{
    let name = head(rest(trees)).name;
    Ok(match form {
        Form::Performer => Said::Performer(name),
        Form::Observer => Said::Observer(name),
        Form::Action => Said::Action(name),
        Form::Job => Said::Job,
        Form::When => Said::When(first_condition(alloc, rest(trees))?),
        Form::End => Said::End,
        Form::Work => Said::Unit(Unit::Work),
        Form::FinishOk => Said::Unit(Unit::Finish(true)),
        Form::FinishFail => Said::Unit(Unit::Finish(false)),
        Form::Edit(form) => Said::Unit(Unit::Edit(edit_of(alloc, form, trees)?)),
        _ => unreachable!(),
    })
}

/// Reads a line of a form whose words are all read by the grammar. Its names are in the table before it is known whether the line fits, and
/// are taken back where it doesn't.
fn read_plain(
    alloc: Global,
    names: &mut Names,
    bytes: &[u8],
    part: &[u8],
    form: Form,
    tokens: Vec<Token>,
) -> Result<Said, Failure<LineCause>>
    requires part { part.now ≡ worded bytes.now }
    requires plain { is_plain form ≡ true }
    requires edit { may_edit form ≡ true }
    requires tokens { AreTokens part.now tokens.items }
    ensures read { OnAnswer (λ r. IsFormed names.old bytes.now tokens.items form r names.new)
        result }
    ensures kept { Keeps names.old names.new }
{
    let before = names.len();
    let words = lexemes_of(alloc, names, part, tokens)?;
    let marks = marks_of_words(alloc, &words)?;
    let misfit = form.first_misfit(alloc, &marks)?;
    match judged(alloc, part, words, misfit)? {
        Ok(trees) => Ok(said_of(alloc, form, trees.as_slice())?),
        Err(at) => {
            names.cut_back(before);
            Err(Failure::Refused(LineCause::Shape { at }))
        }
    }
}

/// Reads a line of places.
fn read_args(
    alloc: Global,
    names: &mut Names,
    bytes: &[u8],
    part: &[u8],
    tokens: &[Token],
) -> Result<Said, Failure<LineCause>>
    requires part { part.now ≡ worded bytes.now }
    ensures read { OnAnswer (λ r. IsFormed names.old bytes.now tokens.now kind.Args r names.new)
        result }
    ensures kept { Keeps names.old names.new }
{
    match first_other(tokens) {
        Some(i) => {
            Err(Failure::Refused(LineCause::Shape {
                at: place(part, tokens, i),
            }))
        }
        None => Ok(Said::Args(pattern_of(alloc, names, bytes)?)),
    }
}

/// Reads a line of feedback.
fn read_feedback(
    alloc: Global,
    names: &mut Names,
    bytes: &[u8],
    part: &[u8],
    tokens: Vec<Token>,
) -> Result<Said, Failure<LineCause>>
    requires part { part.now ≡ worded bytes.now }
    requires tokens { AreTokens part.now tokens.items }
    ensures read { OnAnswer (λ r. IsFormed names.old bytes.now tokens.items kind.Feedback r names.new)
        result }
    ensures kept { Keeps names.old names.new }
{
    match feedback_of(alloc, bytes) {
        Ok(unit) => {
            let _words = lexemes_of(alloc, names, part, tokens)?;
            Ok(Said::Unit(unit))
        }
        Err(failure) => Err(failure),
    }
}

/// Reads a line of a form that is allowed here.
fn read_form(
    alloc: Global,
    names: &mut Names,
    bytes: &[u8],
    part: &[u8],
    form: Form,
    tokens: Vec<Token>,
) -> Result<Said, Failure<LineCause>>
    requires part { part.now ≡ worded bytes.now }
    requires edit { may_edit form ≡ true }
    requires tokens { AreTokens part.now tokens.items }
    ensures read { OnAnswer (λ r. IsFormed names.old bytes.now tokens.items form r names.new)
        result }
    ensures kept { Keeps names.old names.new }
{
    match form {
        Form::Args => read_args(alloc, names, bytes, part, &tokens),
        Form::Feedback => read_feedback(alloc, names, bytes, part, tokens),
        _ => read_plain(alloc, names, bytes, part, form, tokens),
    }
}

/// The form, allowed here, that the words of a part of a line begin with.
fn form_in(alloc: Global, at: &Place, part: &[u8]) -> Result<Option<Form>, AllocError>
    ensures { IfOk result (λ form. form ≡ form_at at.now (words part.now)) }
{
    let words = Words::of(alloc, part)?;
    Ok(form_at(at, &words))
}

/// What a line says here, by its part that is read as words. Its form is found first, so that a long line's words are let go of before it has
/// tokens.
fn read_part(
    alloc: Global,
    names: &mut Names,
    at: &Place,
    bytes: &[u8],
    part: &[u8],
) -> Result<Said, Failure<LineCause>>
    requires part { part.now ≡ worded bytes.now }
    ensures read { OnAnswer (λ r. IsSaid at.now names.old bytes.now r names.new) result }
    ensures kept { Keeps names.old names.new }
{
    let allowed = form_in(alloc, at, part)?;
    match tokens(alloc, part) {
        Ok(tokens) => match allowed {
            Some(form) => read_form(alloc, names, bytes, part, form, tokens),
            None => Err(Failure::Refused(LineCause::Command)),
        },
        Err(Failure::Refused(refusal)) => Err(Failure::Refused(cause_of(refusal))),
        Err(Failure::OutOfMemory) => Err(Failure::OutOfMemory),
    }
}

/// What a line says here; its bytes are those before its LF. The refusal is the first fault of the line.
///
/// The names of a good line are put into the table, those of a bad one aren't. After an error the table may have new names.
pub fn read_said(
    alloc: Global,
    names: &mut Names,
    at: &Place,
    bytes: &[u8],
) -> Result<Said, Failure<LineCause>>
    ensures read { OnAnswer (λ r. IsSaid at.now names.old bytes.now r names.new) result }
    ensures kept { Keeps names.old names.new }
{
    let part = worded(alloc, bytes)?;
    read_part(alloc, names, at, bytes, &part)
}
