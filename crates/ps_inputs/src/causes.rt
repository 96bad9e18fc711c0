//! Why a text is no domain or no member, in words.
ghost use Rattle.std.specs.Prelude.{◌≡◌, ◌++◌, [], codes, IfOk};
ghost use Rattle.ps_inputs.specs.DomainFaults.{at_place, at_place_with, cap_text, cause_text, form_text};
ghost use Rattle.ps_inputs.specs.Members.{member_cause};
ghost use Rattle.ps_members.specs.declared.refusals.ScriptRefusal.TheVariants.{Line};
ghost use Rattle.ps_pddl.specs.declared.refusals.DomainRefusal.TheVariants.{Unsupported};

use ps_journal::{name_text, push_after, push_number};
use ps_machine::LineCause;
use ps_members::ScriptRefusal;
use ps_pddl::{Cap, DomainRefusal, Form};
use ps_text::Names;
use std::alloc::{AllocError, Global};

/// The word for a form that isn't supported.
fn form_text(form: Form) -> &'static [u8]
    ensures { result.now ≡ form_text form }
{
    match form {
        Form::Action => b"Action",
        Form::Derived => b"Derived",
        Form::Constraints => b"Constraints",
        Form::Problem => b"Problem",
        Form::Duration => b"Duration",
        Form::DurationUse => b"DurationUse",
        Form::Continuous => b"Continuous",
        Form::Either => b"Either",
        Form::Preference => b"Preference",
        Form::Quantified => b"Quantified",
    }
}

/// The word for what there are too many of.
fn cap_text(cap: Cap) -> &'static [u8]
    ensures { result.now ≡ cap_text cap }
{
    match cap {
        Cap::Depth => b"Depth",
        Cap::Types => b"Types",
        Cap::Predicates => b"Predicates",
        Cap::Functions => b"Functions",
        Cap::Actions => b"Actions",
        Cap::Params => b"Params",
        Cap::Bound => b"Bound",
        Cap::Instances => b"Instances",
    }
}

/// A fault's word with its byte.
fn at_place(alloc: Global, word: &[u8], at: usize) -> Result<Vec<u8>, AllocError>
    ensures { IfOk result (λ text. text.items ≡ at_place word.now at) }
{
    let mut text = Vec::from_slice(alloc, word)?;
    text.push(b' ')?;
    push_number(at as u64, &mut text)?;
    Ok(text)
}

/// A fault's word with its byte and one word more.
fn at_place_with(alloc: Global, word: &[u8], at: usize, more: &[u8]) -> Result<Vec<u8>, AllocError>
    ensures { IfOk result (λ text. text.items ≡ at_place_with word.now at more.now) }
{
    let mut text = at_place(alloc, word, at)?;
    text.push(b' ')?;
    text.extend_from_slice(more)?;
    Ok(text)
}

/// A form that isn't supported, with its byte.
fn unsupported(alloc: Global, at: usize, what: Form) -> Result<Vec<u8>, AllocError>
    ensures { IfOk result (λ text. text.items ≡ cause_text [] (Unsupported at what)) }
{
    let mut word = Vec::from_slice(alloc, b"Unsupported ")?;
    word.extend_from_slice(form_text(what))?;
    at_place(alloc, word.as_slice(), at)
}

/// A type whose parents lead back to it.
fn cycle(alloc: Global, name: &[u8]) -> Result<Vec<u8>, AllocError>
    ensures { IfOk result (λ text. text.items ≡ codes "Cycle " ++ name.now) }
{
    let mut text = Vec::from_slice(alloc, b"Cycle ")?;
    text.extend_from_slice(name)?;
    Ok(text)
}

/// Why a text is no domain, with the byte, counted from 0, and the names of this table.
pub fn cause_text(
    alloc: Global,
    names: &Names,
    refusal: DomainRefusal,
) -> Result<Vec<u8>, AllocError>
    ensures { IfOk result (λ text. text.items ≡ cause_text names.now refusal) }
{
    match refusal {
        DomainRefusal::Lex { at } => at_place(alloc, b"Lex", at),
        DomainRefusal::Unexpected { at } => at_place(alloc, b"Unexpected", at),
        DomainRefusal::Unsupported { at, what } => unsupported(alloc, at, what),
        DomainRefusal::Unknown { at, name } => {
            at_place_with(alloc, b"Unknown", at, name_text(names, name))
        }
        DomainRefusal::Twice { at, name } => {
            at_place_with(alloc, b"Twice", at, name_text(names, name))
        }
        DomainRefusal::Arity { at } => at_place(alloc, b"Arity", at),
        DomainRefusal::Kind { at } => at_place(alloc, b"Kind", at),
        DomainRefusal::Cycle { name } => cycle(alloc, name_text(names, name)),
        DomainRefusal::Limit { at, which } => {
            at_place_with(alloc, b"Limit", at, cap_text(which))
        }
    }
}

/// A bad line with its number.
fn line_cause(
    alloc: Global,
    names: &Names,
    n: usize,
    cause: &LineCause,
) -> Result<Vec<u8>, AllocError>
    ensures { IfOk result (λ text. text.items ≡ member_cause (Line n cause.now)) }
{
    let mut text = at_place(alloc, b"Line", n)?;
    push_after(b" ", cause, names, &mut text)?;
    Ok(text)
}

/// Why a text is no member, with the line, counted from 1.
pub fn member_cause(
    alloc: Global,
    names: &Names,
    refusal: ScriptRefusal,
) -> Result<Vec<u8>, AllocError>
    ensures { IfOk result (λ text. text.items ≡ member_cause refusal) }
{
    match refusal {
        ScriptRefusal::Line { n, cause } => line_cause(alloc, names, n, &cause),
        ScriptRefusal::NoAction { n } => at_place(alloc, b"NoAction", n),
        ScriptRefusal::Arity { n } => at_place(alloc, b"Arity", n),
        ScriptRefusal::NoFinish { n } => at_place(alloc, b"NoFinish", n),
        ScriptRefusal::Limit { n } => at_place(alloc, b"Limit", n),
    }
}
