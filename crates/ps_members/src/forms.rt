//! The forms of a member script's lines.
ghost use Rattle.std.specs.Prelude.{◌≡◌, Ok, Some, drop, true, IfOk, IfSome};
ghost use Rattle.ps_grammar.specs.Shape.{Derives, IsFirstFaultFrom, IsShallowFrom};
ghost use Rattle.ps_members.specs.Forms.{edit_form, form_at, form_of, is_action, is_allowed, is_args, is_change, is_close, is_edit, is_finished, is_item, is_job, is_title, is_unit, own_forms, start_of, begun};

use super::places::Place;
use ps_grammar::{GoalPart, Mark, Symbol, first_fault};
use ps_machine::Unit;
use ps_script::Form as ScriptForm;
use ps_text::Words;
use std::alloc::{AllocError, Global};

/// A form of a line, by its leading words.
#[derive(Clone, Copy)]
pub enum Form {
    /// `performer NAME`
    Performer,
    /// `observer NAME`
    Observer,
    /// `action NAME`
    Action,
    /// `args PLACE*`
    Args,
    /// `job`
    Job,
    /// `when C`
    When,
    /// `end`
    End,
    /// `work`
    Work,
    /// `feedback N TEXT`
    Feedback,
    /// `finish ok`
    FinishOk,
    /// `finish fail`
    FinishFail,
    /// An edit line of the terminal.
    Edit(ScriptForm),
}

/// The form of a member's own that words begin with.
fn own_form(words: &Words) -> Option<Form>
    ensures { result ≡ begun own_forms words.now }
{
    if words.reads(0, b"performer") {
        Some(Form::Performer)
    } else if words.reads(0, b"observer") {
        Some(Form::Observer)
    } else if words.reads(0, b"action") {
        Some(Form::Action)
    } else if words.reads(0, b"args") {
        Some(Form::Args)
    } else if words.reads(0, b"job") {
        Some(Form::Job)
    } else if words.reads(0, b"when") {
        Some(Form::When)
    } else {
        later_own_form(words)
    }
}

/// The same of those that end a script or stand in a job.
fn later_own_form(words: &Words) -> Option<Form>
    ensures { result ≡ begun (drop 6 own_forms) words.now }
{
    if words.reads(0, b"end") {
        Some(Form::End)
    } else if words.reads(0, b"work") {
        Some(Form::Work)
    } else if words.reads(0, b"feedback") {
        Some(Form::Feedback)
    } else if words.reads(0, b"finish") && words.reads(1, b"ok") {
        Some(Form::FinishOk)
    } else if words.reads(0, b"finish") && words.reads(1, b"fail") {
        Some(Form::FinishFail)
    } else {
        None
    }
}

/// Whether a line of the terminal of this form is an edit.
fn is_edit(form: ScriptForm) -> bool
    ensures { result ≡ is_edit form }
{
    matches!(
        form,
        ScriptForm::SetInstance
            | ScriptForm::SetPredicate
            | ScriptForm::SetFunction
            | ScriptForm::SetGoal
            | ScriptForm::RemoveInstance
            | ScriptForm::RemovePredicate
            | ScriptForm::RemoveFunction
            | ScriptForm::RemoveGoal
    )
}

/// The form of an edit that words begin with.
fn edit_form(words: &Words) -> Option<Form>
    ensures { result ≡ edit_form words.now }
{
    let form = ps_script::form_of(words)?;
    if is_edit(form) {
        Some(Form::Edit(form))
    } else {
        None
    }
}

/// The form that words begin with.
fn form_of(words: &Words) -> Option<Form>
    ensures { result ≡ form_of words.now }
{
    own_form(words).or(edit_form(words))
}

/// Whether the last of a job's units is `finish`.
pub fn is_finished(units: &[Unit]) -> bool
    ensures { result ≡ is_finished units.now }
{
    match units.last() {
        Some(unit) => matches!(unit, Unit::Finish(_)),
        None => false,
    }
}

/// Whether a line of this form says who a member is.
fn is_title(form: Form) -> bool
    ensures { result ≡ is_title form }
{
    matches!(form, Form::Performer | Form::Observer)
}

/// Whether a line of this form closes a job.
fn is_close(form: Form) -> bool
    ensures { result ≡ is_close form }
{
    matches!(form, Form::Job | Form::End)
}

/// Whether a line of this form is an edit.
fn is_change(form: Form) -> bool
    ensures { result ≡ is_change form }
{
    matches!(form, Form::Edit(_))
}

/// Whether a line of this form is a unit.
fn is_unit(form: Form) -> bool
    ensures { result ≡ is_unit form }
{
    match form {
        Form::Work | Form::Feedback | Form::FinishOk | Form::FinishFail => true,
        _ => is_change(form),
    }
}

/// Whether a line of this form may stand between an observer's items.
fn is_item(form: Form) -> bool
    ensures { result ≡ is_item form }
{
    match form {
        Form::When | Form::End => true,
        _ => is_change(form),
    }
}

/// Whether a line of this form names an action.
fn is_action(form: Form) -> bool
    ensures { result ≡ is_action form }
{
    matches!(form, Form::Action)
}

/// Whether a line of this form gives places.
fn is_args(form: Form) -> bool
    ensures { result ≡ is_args form }
{
    matches!(form, Form::Args)
}

/// Whether a line of this form opens a job.
fn is_job(form: Form) -> bool
    ensures { result ≡ is_job form }
{
    matches!(form, Form::Job)
}

/// Whether a line of this form may stand here.
fn is_allowed(place: &Place, form: Form) -> bool
    ensures { result ≡ is_allowed place.now form }
{
    match place {
        Place::Beginning => is_title(form),
        Place::Named(_) => is_action(form),
        Place::Acting(_, _, _) => is_args(form),
        Place::Ready(_) => is_job(form),
        Place::Working(_, units) => {
            is_close(form) || (is_unit(form) && !is_finished(units.as_slice()))
        }
        Place::Observing(_) => is_item(form),
        Place::Waiting(_, _) => is_change(form),
        Place::Ended(_) => false,
    }
}

/// The form, allowed here, that words begin with.
pub fn form_at(place: &Place, words: &Words) -> Option<Form>
    ensures { result ≡ form_at place.now words.now }
{
    let form = form_of(words)?;
    if is_allowed(place, form) {
        Some(form)
    } else {
        None
    }
}

impl Form {
    /// The place of the first word of a line of this form that doesn't fit, or of the line's end where more is wanted.
    pub fn first_misfit(self, alloc: Global, marks: &[Mark]) -> Result<Option<usize>, AllocError>
        ensures none { result ≡ Ok None
            → Derives (start_of self) marks.now × IsShallowFrom (start_of self) marks.now }
        ensures fault { IfOk result (λ place. IfSome place
            (λ at. IsFirstFaultFrom (start_of self) marks.now at)) }
    {
        let name = Symbol::AnyName;
        match self {
            Form::Edit(form) => form.first_misfit(alloc, marks),
            Form::When => {
                first_fault(alloc, &[name, Symbol::InGoal(GoalPart::Condition)], marks)
            }
            Form::Performer | Form::Observer | Form::Action | Form::FinishOk | Form::FinishFail =>
                first_fault(alloc, &[name, name], marks),
            _ => first_fault(alloc, &[name], marks),
        }
    }
}
