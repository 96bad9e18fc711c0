//! Judging the texts of an input after all of them are read.
ghost use Rattle.std.specs.Prelude.{map};
ghost use Rattle.ps_inputs.specs.Parts.{Joins, Judges, JudgesMembers, MayBeTogether, ReadsAll, ReadsMember, named};

use crate::causes::member_cause;
use crate::crowds::{first_repeated, is_crowd};
use crate::faults::Fault;
use crate::reading::{MemberText, Unjudged};
use ps_domain::Expert;
use ps_journal::name_text;
use ps_machine::{Input, Line, Member};
use ps_members::read_member;
use ps_text::Names;
use ps_world::{Domain, Failure, Seq};
use std::alloc::Global;

/// An input, with the table of all of its names.
#[derive(Drop)]
pub struct Loaded {
    pub names: Names,
    pub input: Input,
}

/// Reads the text of one member, and puts its names into the table.
fn judge_member(
    alloc: Global,
    names: &mut Names,
    expert: &Expert,
    one: &MemberText,
) -> Result<Member, Failure<Fault>>
    ensures { ReadsMember expert.now names.old (named one.now) names.new result }
{
    match read_member(alloc, names, expert, one.text.as_slice()) {
        Ok(member) => Ok(member),
        Err(Failure::Refused(refusal)) => {
            let cause = member_cause(alloc, names, refusal)?;
            let file = Vec::from_slice(alloc, one.file.as_slice())?;
            Err(Failure::Refused(Fault::NoMember(file, cause)))
        }
        Err(Failure::OutOfMemory) => Err(Failure::OutOfMemory),
    }
}

/// Reads the texts of members, one after another, up to the first that is none.
fn judge_each(
    alloc: Global,
    names: &mut Names,
    expert: &Expert,
    texts: &[MemberText],
) -> Result<Vec<Member>, Failure<Fault>>
    ensures { ReadsAll expert.now names.old (map named texts.now) names.new result }
{
    let mut members = Vec::new(alloc);
    for one in texts {
        match judge_member(alloc, names, expert, one) {
            Ok(member) => members.push(member)?,
            Err(why) => return Err(why),
        }
    }
    Ok(members)
}

/// Refuses members of whom there are too many, or of whom one has the name of an earlier one.
fn check_together(alloc: Global, names: &Names, members: &[Member]) -> Result<(), Failure<Fault>>
    ensures { MayBeTogether names.now members.now result }
{
    if is_crowd(members) {
        return Err(Failure::Refused(Fault::Crowd));
    }
    match first_repeated(members) {
        Some(name) => {
            let text = Vec::from_slice(alloc, name_text(names, name))?;
            Err(Failure::Refused(Fault::Twice(text)))
        }
        None => Ok(()),
    }
}

/// The members that these texts are. The first fault decides: a text that is none, in the order of the texts; then too many members; then
/// a name that an earlier member has.
fn judge_members(
    alloc: Global,
    names: &mut Names,
    expert: &Expert,
    texts: &[MemberText],
) -> Result<Vec<Member>, Failure<Fault>>
    ensures { JudgesMembers expert.now names.old (map named texts.now) names.new result }
{
    let members = judge_each(alloc, names, expert, texts)?;
    check_together(alloc, names, members.as_slice())?;
    Ok(members)
}

/// The input of a domain, these lines and the members that the texts are, with these limits. The table has the names of the domain and of
/// the lines.
fn join(
    alloc: Global,
    names: Names,
    domain: Domain,
    lines: Vec<Line>,
    texts: &[MemberText],
    budget: u32,
    replans: u8,
) -> Result<Loaded, Failure<Fault>>
    ensures { Joins names domain lines.items (map named texts.now) budget replans result }
{
    let mut names = names;
    let domain = Expert::new(alloc, domain)?;
    let members = judge_members(alloc, &mut names, &domain, texts)?;
    Ok(Loaded {
        names,
        input: Input {
            domain,
            members: Seq::of(members),
            lines: Seq::of(lines),
            budget,
            replans,
        },
    })
}

/// The input that the texts are, with these limits. The first fault decides: that of the domain; then that of the members.
pub fn judge(
    alloc: Global,
    read: Unjudged,
    budget: u32,
    replans: u8,
) -> Result<Loaded, Failure<Fault>>
    ensures { Judges read budget replans result }
{
    let Unjudged {
        names,
        domain,
        lines,
        members,
    } = read;
    match domain {
        Ok(domain) => join(
            alloc,
            names,
            domain,
            lines,
            members.as_slice(),
            budget,
            replans,
        ),
        Err(fault) => Err(Failure::Refused(fault)),
    }
}
