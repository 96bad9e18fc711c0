//! Faults of a domain's text.
ghost use Rattle.std.specs.Prelude.{◌≡◌, IfSome};
ghost use Rattle.ps_remarks.specs.Faults.{fault_at};

use super::closest::closest;
use super::expected::{Grammar, expected, say_expected};
use super::lexing::{say_no_class, word_from};
use super::page::Page;
use super::said::Said;
use ps_journal::name_text;
use ps_pddl::{Cap, DomainRefusal, Form, read_domain};
use ps_text::Names;
use ps_world::{Domain, Failure};
use std::alloc::{AllocError, Global};

/// What to write in place of a form that isn't supported.
fn instead_of(form: Form) -> &'static str {
    match form {
        Form::Action => "write a ':durative-action' with a ':duration' in place of an ':action'",
        Form::Derived => "derived predicates aren't supported: let actions add what follows",
        Form::Constraints => "constraints aren't supported",
        Form::Problem => {
            "this is a problem and no domain: what is known and wanted stands in a script, as 'set instance ..', 'set predicate ..', 'set goal ..'"
        }
        Form::Duration => "a duration is as (= ?duration 5): inequalities aren't supported",
        Form::DurationUse => "'?duration' stands in ':duration (= ?duration ..)' alone",
        Form::Continuous =>
            "continuous effects with '#t' aren't supported: change the value at the start or at the end",
        Form::Either => "'(either ..)' isn't supported: declare a type above the others",
        Form::Preference => "preferences aren't supported",
        Form::Quantified => "this form may not stand in this place",
    }
}

/// What there may be at most so many of.
fn most_of(cap: Cap) -> &'static str {
    match cap {
        Cap::Depth => "there are at most 64 levels of parentheses",
        Cap::Types => "a domain has at most 256 types",
        Cap::Predicates => "a domain has at most 256 predicates",
        Cap::Functions => "a domain has at most 256 functions",
        Cap::Actions => "a domain has at most 256 actions",
        Cap::Params => "there are at most 6 parameters",
        Cap::Bound => {
            "at most two variables are bound at one place of a condition, and one by a 'forall' of an effect"
        }
        Cap::Instances => "there are at most 1000 constants",
    }
}

/// The byte at which a type of a domain is declared.
fn place_of_type(alloc: Global, text: &[u8], name: &[u8]) -> Result<usize, AllocError> {
    let said = Said::of(alloc, text)?;
    let mut is_within = false;
    for i in 0..said.len() {
        let is_parent = match i.checked_sub(1) {
            Some(before) => said.is(before, b"-"),
            None => false,
        };
        is_within = is_within || said.is(i, b":types");
        if is_within && !is_parent && said.is(i, name) {
            return Ok(said.place(i).unwrap_or(0));
        }
    }
    Ok(0)
}

/// Says one sentence about a fault, where these words may stand instead.
fn say_sentence(
    names: &Names,
    text: &[u8],
    refusal: DomainRefusal,
    words: &[&'static str],
    page: &mut Page,
) -> Result<(), AllocError> {
    match refusal {
        DomainRefusal::Lex { at } => say_no_class(word_from(text, at), page),
        DomainRefusal::Unexpected { at } if at >= text.len() => {
            page.say("the text ends here, where more has to come")
        }
        DomainRefusal::Unexpected { at } => {
            page.quote(word_from(text, at))?;
            page.say(" doesn't fit here")?;
            if words.is_empty() {
                page.say(": the text has to end before it")?;
            }
            Ok(())
        }
        DomainRefusal::Unsupported {
            at,
            what: Form::Quantified,
        } => {
            page.quote(word_from(text, at))?;
            page.say(" may not stand in this place")
        }
        DomainRefusal::Unsupported { what, .. } => page.say(instead_of(what)),
        DomainRefusal::Unknown { at, .. } => {
            page.quote(word_from(text, at))?;
            page.say(" isn't declared")
        }
        DomainRefusal::Twice { at, .. } => {
            page.quote(word_from(text, at))?;
            page.say(" is declared already")
        }
        DomainRefusal::Arity { at } => {
            page.quote(word_from(text, at))?;
            page.say(" is declared with another number of parameters")
        }
        DomainRefusal::Kind { at } => {
            page.quote(word_from(text, at))?;
            page.say(" isn't of a type that may stand here")
        }
        DomainRefusal::Cycle { name } => {
            page.say("the parents of type ")?;
            page.name(names, name)?;
            page.say(" lead back to it")
        }
        DomainRefusal::Limit { which, .. } => page.say(most_of(which)),
    }
}

/// The byte at which a fault is shown.
fn place_of_fault(
    alloc: Global,
    names: &Names,
    text: &[u8],
    refusal: DomainRefusal,
) -> Result<usize, AllocError> {
    match refusal {
        DomainRefusal::Lex { at }
        | DomainRefusal::Unexpected { at }
        | DomainRefusal::Unsupported { at, .. }
        | DomainRefusal::Unknown { at, .. }
        | DomainRefusal::Twice { at, .. }
        | DomainRefusal::Arity { at }
        | DomainRefusal::Kind { at }
        | DomainRefusal::Limit { at, .. } => Ok(at),
        DomainRefusal::Cycle { name } => place_of_type(alloc, text, name_text(names, name)),
    }
}

/// Whether a word follows an opening parenthesis.
fn is_head(said: &Said<'_>, i: usize) -> bool {
    match i.checked_sub(1) {
        Some(before) => said.is(before, b"("),
        None => false,
    }
}

/// The words of a text that are of the kind of one of them, and others: variables, heads of parentheses, or names elsewhere.
fn words_like<'a>(alloc: Global, said: &Said<'a>, own: usize) -> Result<Vec<&'a [u8]>, AllocError> {
    let mut others = Vec::new(alloc);
    for i in 0..said.len() {
        let is_of_class = (said.is_variable(own) && said.is_variable(i))
            || (said.is_name(own) && said.is_name(i) && is_head(said, own) == is_head(said, i));
        if is_of_class && !said.is(i, said.word(own)) {
            others.push(said.word(i))?;
        }
    }
    Ok(others)
}

/// Says which word of a domain is close to the one at a place.
fn say_close_word(
    alloc: Global,
    text: &[u8],
    at: usize,
    page: &mut Page,
) -> Result<(), AllocError> {
    let said = Said::of(alloc, text)?;
    let Some(own) = said.at(at) else {
        return Ok(());
    };
    let others = words_like(alloc, &said, own)?;
    if let Some(close) = closest(alloc, said.word(own), others.as_slice())? {
        page.say("  ")?;
        page.quote(close)?;
        page.say(" stands elsewhere in the domain: is it meant?\n")?;
    }
    Ok(())
}

/// The place of the last byte of a text that isn't blank, or 0.
fn last_place(text: &[u8]) -> usize {
    let blanks = text
        .iter()
        .rev()
        .take_while(|byte| byte.is_ascii_whitespace())
        .count();
    text.len().saturating_sub(blanks).saturating_sub(1)
}

/// Says why a text is no domain, where, and what to write in its place.
pub fn say_domain_fault(
    alloc: Global,
    names: &Names,
    file: &str,
    text: &[u8],
    refusal: DomainRefusal,
    page: &mut Page,
) -> Result<(), AllocError> {
    let mut sentence = Page::new(alloc);
    let words = match refusal {
        DomainRefusal::Unexpected { at } => expected(alloc, Grammar::Domain, text, at)?,
        _ => Vec::new(alloc),
    };
    say_sentence(names, text, refusal, words.as_slice(), &mut sentence)?;
    let at = place_of_fault(alloc, names, text, refusal)?;
    let shown = if at >= text.len() {
        last_place(text)
    } else {
        at
    };
    page.mark(file, text, shown, sentence.as_slice())?;
    match refusal {
        DomainRefusal::Unexpected { .. } => say_expected(words.as_slice(), page),
        DomainRefusal::Unknown { at, .. } => say_close_word(alloc, text, at, page),
        _ => Ok(()),
    }
}

/// A domain with the table of its names, or none, where what is wrong with the text is said.
pub fn domain_or_fault(
    alloc: Global,
    names: &mut Names,
    file: &str,
    text: &[u8],
    page: &mut Page,
) -> Result<Option<Domain>, AllocError> {
    match read_domain(alloc, names, text) {
        Ok(domain) => Ok(Some(domain)),
        Err(Failure::Refused(refusal)) => {
            say_domain_fault(alloc, names, file, text, refusal, page)?;
            Ok(None)
        }
        Err(Failure::OutOfMemory) => Err(AllocError),
    }
}
