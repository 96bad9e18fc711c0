//! Reading a member script.
ghost use Rattle.std.specs.Prelude.{◌≡◌, Err};
ghost use Rattle.ps_world.specs.Failures.{Gives};
ghost use Rattle.ps_world.specs.declared.failures.Failure.TheVariants.{OutOfMemory};
ghost use Rattle.ps_text.specs.Names.{Keeps};
ghost use Rattle.ps_text.specs.ScriptLines.{script_lines};
ghost use Rattle.ps_text.specs.Words.{AreWithin, pieces};
ghost use Rattle.ps_members.specs.Answers.{OnAnswer};
ghost use Rattle.ps_members.specs.Members.{IsMember, Leads, at_end};

use super::lines::read_said;
use super::moves::moved;
use super::places::Place;
use super::refusals::ScriptRefusal;
use ps_domain::Expert;
use ps_machine::{LineCause, Member};
use ps_script::is_nothing;
use ps_text::{Names, Span, script_lines};
use ps_world::Failure;
use std::alloc::Global;

/// What a text that ends here is, where its next line would be line `n`.
fn at_end(n: usize, at: Place) -> Result<Member, Failure<ScriptRefusal>>
    ensures { Gives (λ member. member) result (at_end n at) }
{
    match at {
        Place::Ended(member) => Ok(member),
        _ => Err(Failure::Refused(ScriptRefusal::Line {
            n,
            cause: LineCause::Command,
        })),
    }
}

/// Where line `n` leads.
fn step(
    alloc: Global,
    names: &mut Names,
    expert: &Expert,
    n: usize,
    at: Place,
    line: &[u8],
) -> Result<Place, Failure<ScriptRefusal>>
    ensures leads { OnAnswer (λ r. Leads expert.now n at names.old line.now r names.new) result }
    ensures kept { Keeps names.old names.new }
{
    if is_nothing(line) {
        return Ok(at);
    }
    match read_said(alloc, names, &at, line) {
        Ok(said) => moved(alloc, expert, n, at, said),
        Err(Failure::Refused(cause)) => Err(Failure::Refused(ScriptRefusal::Line { n, cause })),
        Err(Failure::OutOfMemory) => Err(Failure::OutOfMemory),
    }
}

/// Reads the lines of a member script.
fn read_lines(
    alloc: Global,
    names: &mut Names,
    expert: &Expert,
    bytes: &[u8],
    lines: &[Span],
) -> Result<Member, Failure<ScriptRefusal>>
    requires lines { pieces bytes.now lines.now ≡ script_lines bytes.now }
    requires within { AreWithin bytes.now lines.now }
    ensures reads { OnAnswer (λ r. IsMember expert.now names.old bytes.now r names.new) result }
    ensures kept { Keeps names.old names.new }
{
    let mut at = Place::Beginning;
    for (i, span) in lines.iter().enumerate() {
        match step(alloc, names, expert, i + 1, at, &bytes[span.from..span.to]) {
            Ok(next) => at = next,
            Err(failure) => return Err(failure),
        }
    }
    at_end(lines.len() + 1, at)
}

/// Reads a member script. The refusal is the first fault in the text.
///
/// The names of the lines that fit their forms, up to the first fault, are put into the table. Old names keep their numbers and texts,
/// after an error too. Where memory runs out the table is as it was.
pub fn read_member(
    alloc: Global,
    names: &mut Names,
    expert: &Expert,
    bytes: &[u8],
) -> Result<Member, Failure<ScriptRefusal>>
    ensures reads { OnAnswer (λ r. IsMember expert.now names.old bytes.now r names.new) result }
    ensures kept { Keeps names.old names.new }
    ensures starved { result ≡ Err OutOfMemory → names.new ≡ names.old }
{
    let known = names.len();
    let read = read_known(alloc, names, expert, bytes);
    if let Err(Failure::OutOfMemory) = read {
        names.cut_back(known);
    }
    read
}

/// Reads a member script, as `read_member` does, but where memory runs out the table may have new names too.
fn read_known(
    alloc: Global,
    names: &mut Names,
    expert: &Expert,
    bytes: &[u8],
) -> Result<Member, Failure<ScriptRefusal>>
    ensures reads { OnAnswer (λ r. IsMember expert.now names.old bytes.now r names.new) result }
    ensures kept { Keeps names.old names.new }
{
    let lines = script_lines(alloc, bytes)?;
    read_lines(alloc, names, expert, bytes, &lines)
}
