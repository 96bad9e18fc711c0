//! What ends a call before its work, and where.
use super::called::Called;
use super::named::mark_name;
use ps_domain::Expert;
use ps_inputs::Fault;
use ps_members::{ScriptRefusal, read_member};
use ps_reasons::say_member_fault;
use ps_remarks::{Page, Source, domain_or_fault, text_in};
use ps_text::{Files, Names};
use ps_world::Failure;
use std::alloc::{AllocError, Global};

/// A file with its text.
pub fn source_of<F: Files>(
    alloc: Global,
    file: &str,
    files: &mut F,
) -> Result<Option<Source>, AllocError> {
    match text_in(alloc, file, files)? {
        Some(text) => Ok(Some(Source {
            file: file.to_string(alloc)?,
            text,
        })),
        None => Ok(None),
    }
}

/// Reads a member's text, of which only a refusal is kept.
fn check_member(
    alloc: Global,
    names: &mut Names,
    expert: &Expert,
    text: &[u8],
) -> Result<(), Failure<ScriptRefusal>> {
    let _member = read_member(alloc, names, expert, text)?;
    Ok(())
}

/// Says why a member's text is none, and where. Answers whether it is none.
fn explain_member(
    alloc: Global,
    names: &mut Names,
    expert: &Expert,
    source: &Source,
    page: &mut Page,
) -> Result<bool, AllocError> {
    match check_member(alloc, names, expert, source.text.as_slice()) {
        Ok(()) => Ok(false),
        Err(Failure::Refused(refusal)) => {
            say_member_fault(alloc, names, expert, source, refusal, page)?;
            Ok(true)
        }
        Err(Failure::OutOfMemory) => Err(AllocError),
    }
}

/// Says why the text of a member's file is none, and where. Answers whether it is none, or can't be read.
fn explain_file<F: Files>(
    alloc: Global,
    file: &str,
    names: &mut Names,
    expert: &Expert,
    files: &mut F,
    page: &mut Page,
) -> Result<bool, AllocError> {
    match source_of(alloc, file, files)? {
        Some(source) => explain_member(alloc, names, expert, &source, page),
        None => Ok(true),
    }
}

/// Says which of the members' texts is the first at fault over a domain, and where.
fn explain_members_over<F: Files>(
    alloc: Global,
    called: &Called<'_>,
    names: &mut Names,
    expert: &Expert,
    files: &mut F,
    page: &mut Page,
) -> Result<(), AllocError> {
    for file in called.members.iter() {
        if explain_file(alloc, file, names, expert, files, page)? {
            return Ok(());
        }
    }
    Ok(())
}

/// The domain of a text, or none, where what is wrong with it is said.
fn expert_or_fault(
    alloc: Global,
    names: &mut Names,
    file: &str,
    text: &[u8],
    page: &mut Page,
) -> Result<Option<Expert>, AllocError> {
    match domain_or_fault(alloc, names, file, text, page)? {
        Some(domain) => Ok(Some(Expert::new(alloc, domain)?)),
        None => Ok(None),
    }
}

/// The domain of a call, or none, where what is wrong with its text is said.
fn expert_in<F: Files>(
    alloc: Global,
    called: &Called<'_>,
    names: &mut Names,
    files: &mut F,
    page: &mut Page,
) -> Result<Option<Expert>, AllocError> {
    match text_in(alloc, called.domain, files)? {
        Some(text) => expert_or_fault(alloc, names, called.domain, text.as_slice(), page),
        None => Ok(None),
    }
}

/// Says which of the members' texts is the first at fault, and where.
fn explain_members<F: Files>(
    alloc: Global,
    called: &Called<'_>,
    files: &mut F,
    page: &mut Page,
) -> Result<(), AllocError> {
    let mut names = Names::new(alloc)?;
    match expert_in(alloc, called, &mut names, files, page)? {
        Some(expert) => explain_members_over(alloc, called, &mut names, &expert, files, page),
        None => Ok(()),
    }
}

/// Says what is wrong with the text of a domain, and where.
fn explain_domain<F: Files>(
    alloc: Global,
    called: &Called<'_>,
    files: &mut F,
    page: &mut Page,
) -> Result<(), AllocError> {
    let mut names = Names::new(alloc)?;
    let _expert = expert_in(alloc, called, &mut names, files, page)?;
    Ok(())
}

/// Says where the members' files have a name.
fn mark_names<F: Files>(
    alloc: Global,
    called: &Called<'_>,
    name: &[u8],
    files: &mut F,
    page: &mut Page,
) -> Result<(), AllocError> {
    for file in called.members.iter() {
        let Some(source) = source_of(alloc, file, files)? else {
            return Ok(());
        };
        mark_name(alloc, &source, name, page)?;
    }
    Ok(())
}

/// Says where the name of a member stands that an earlier one has.
fn explain_twice<F: Files>(
    alloc: Global,
    called: &Called<'_>,
    name: &[u8],
    files: &mut F,
    page: &mut Page,
) -> Result<(), AllocError> {
    page.say("the members: two of them have the name ")?;
    page.quote(name)?;
    page.end()?;
    mark_names(alloc, called, name, files, page)
}

/// Says what ends a call before its work, and where.
pub fn explain_fault<F: Files>(
    alloc: Global,
    called: &Called<'_>,
    fault: &Fault,
    files: &mut F,
    page: &mut Page,
) -> Result<(), AllocError> {
    match fault {
        Fault::Usage => Ok(()),
        Fault::NoDomain(_) => explain_domain(alloc, called, files, page),
        Fault::NoMember(..) => explain_members(alloc, called, files, page),
        Fault::Twice(name) => explain_twice(alloc, called, name.as_slice(), files, page),
        Fault::Crowd => {
            page.say("the members: there are at most 64 performers and 16 observers\n")
        }
        Fault::TooLong(file) => {
            page.show(file.as_slice())?;
            page.say(": this file is longer than 1048576 bytes\n")
        }
        Fault::Lines => {
            page.say("the script: it has more than 10000 command lines, with those of its files\n")
        }
        Fault::Unread(file) => {
            page.show(file.as_slice())?;
            page.say(": this file can't be read: is its name right?\n")
        }
    }
}
