//! The entries of a journal.
ghost use Rattle.std.specs.Prelude.{◌≡◌, ◌<◌, ◌≤◌, ◌+◌, ◌^◌, Err, IfOk, IfSome, None, Some, false, length};
ghost use Rattle.ps_world.specs.Failures.{refusal_of};
ghost use Rattle.ps_world.specs.declared.failures.Failure.TheVariants.{OutOfMemory};
ghost use Rattle.ps_world.specs.Lines.{lines_of};
ghost use Rattle.ps_text.specs.Names.{Keeps};
ghost use Rattle.ps_text.specs.Words.{AreWithin, pieces};
ghost use Rattle.ps_entries.specs.declared.heads.Heading.TheVariants.{Headed};
ghost use Rattle.ps_entries.specs.Journals.{AreEntries, BeginsWith, IsFault, IsOther, IsSplit, IsText, TakesOrNot, is_reply};

use super::entries::read_in;
use super::heads::{Heading, heading_of};
use super::numbered::Numbered;
use super::words::begins;
use ps_text::{Names, Span, lines};
use ps_world::Failure;
use std::alloc::{AllocError, Global};

/// What the text of a journal says.
#[derive(Drop)]
pub struct JournalText {
    /// 1 or 2.
    pub version: u8,
    /// Of version 2, how many states a search for a plan may reach, and how often a run's plan may be made anew.
    pub settings: Option<(u32, u8)>,
    /// The entries, each with its line.
    pub entries: Numbered,
}

/// Why a text is no journal. Lines are counted from 1.
#[derive(Clone, Copy, PartialEq, Eq, Debug)]
pub enum JournalRefusal {
    /// The first line is neither `plansys-journal 1` nor `plansys-journal 2`.
    Header,
    /// Line 2, where version 2 has no line of settings there or their numbers are out of range; or the first line after those that is
    /// neither an entry's nor a reply line.
    Line { n: u32 },
}

/// Whether a line begins with two spaces.
fn is_reply(line: &[u8]) -> bool
    ensures { result ≡ is_reply line.now }
{
    begins(line, b"  ")
}

/// Takes the entry of line `n`, which is no reply. Whether there is one.
fn take_entry(
    alloc: Global,
    names: &mut Names,
    n: u32,
    line: &[u8],
    printed: &mut Vec<u8>,
    entries: &mut Numbered,
) -> Result<bool, AllocError>
    requires { is_reply line.now ≡ false }
    ensures takes { IfOk result (λ b. TakesOrNot n names.old line.now entries.old b
        entries.new names.new) }
    ensures kept { Keeps names.old names.new }
{
    match read_in(alloc, names, line, printed) {
        Ok(Some(entry)) => {
            entries.push(n, entry)?;
            Ok(true)
        }
        Ok(None) => Ok(false),
        Err(AllocError) => Err(AllocError),
    }
}

/// Takes line `n`: a reply line, or one whose entry is put at the end. Whether it is one of these.
fn take_line(
    alloc: Global,
    names: &mut Names,
    n: u32,
    line: &[u8],
    printed: &mut Vec<u8>,
    entries: &mut Numbered,
) -> Result<bool, AllocError>
    ensures takes { IfOk result (λ b. TakesOrNot n names.old line.now entries.old b
        entries.new names.new) }
    ensures kept { Keeps names.old names.new }
{
    if is_reply(line) {
        Ok(true)
    } else {
        take_entry(alloc, names, n, line, printed, entries)
    }
}

/// Reads the lines after the head, the first of which has this number.
fn read_lines(
    alloc: Global,
    names: &mut Names,
    bytes: &[u8],
    lines: &[Span],
    first: u32,
) -> Result<Numbered, Failure<JournalRefusal>>
    requires within { AreWithin bytes.now lines.now }
    requires few { length lines.now + first ≤ 2 ^ 32 }
    ensures entries { IfOk result (λ v. AreEntries first names.old (pieces bytes.now lines.now)
        v names.new) }
    ensures refused { IfSome (refusal_of result) (λ r. IsOther first names.old
        (pieces bytes.now lines.now) r) }
    ensures kept { Keeps names.old names.new }
{
    let mut printed = Vec::new(alloc);
    let mut entries = Numbered::new(alloc);
    for (i, span) in lines.iter().enumerate() {
        let n = i as u32 + first;
        let line = &bytes[span.from..span.to];
        if !take_line(alloc, names, n, line, &mut printed, &mut entries)? {
            return Err(Failure::Refused(JournalRefusal::Line { n }));
        }
    }
    Ok(entries)
}

/// Reads the lines after a head of one line.
fn read_bare(
    alloc: Global,
    names: &mut Names,
    bytes: &[u8],
    lines: &[Span],
) -> Result<JournalText, Failure<JournalRefusal>>
    requires few { length bytes.now < 2 ^ 32 }
    requires lines { IsSplit bytes.now lines.now }
    requires begins { BeginsWith (lines_of bytes.now) (Headed None) }
    ensures text { IfOk result (λ t. IsText names.old bytes.now t names.new) }
    ensures refused { IfSome (refusal_of result) (IsFault names.old bytes.now) }
    ensures kept { Keeps names.old names.new }
{
    let entries = read_lines(alloc, names, bytes, &lines[1..], 2)?;
    Ok(JournalText {
        version: 1,
        settings: None,
        entries,
    })
}

/// Reads the lines after a head of two lines, which says these settings.
fn read_settled(
    alloc: Global,
    names: &mut Names,
    bytes: &[u8],
    lines: &[Span],
    settings: (u32, u8),
) -> Result<JournalText, Failure<JournalRefusal>>
    requires few { length bytes.now < 2 ^ 32 }
    requires lines { IsSplit bytes.now lines.now }
    requires begins { BeginsWith (lines_of bytes.now) (Headed (Some settings)) }
    ensures text { IfOk result (λ t. IsText names.old bytes.now t names.new) }
    ensures refused { IfSome (refusal_of result) (IsFault names.old bytes.now) }
    ensures kept { Keeps names.old names.new }
{
    let entries = read_lines(alloc, names, bytes, &lines[2..], 3)?;
    Ok(JournalText {
        version: 2,
        settings: Some(settings),
        entries,
    })
}

/// The text of a journal, read. It has fewer than 2^32 bytes.
///
/// The refusals, in this order: `Header`, where the first line isn't `plansys-journal 1` or `plansys-journal 2`; `Line`, with 2 where
/// the second line of version 2 isn't `settings budget N replans N`, with a budget of 1 to 200,000 and 0 to 8 new plans, both without
/// needless zeros, and else with the first line after the head that is neither an entry's nor a reply line. Lines end at LF, and the
/// last one needs none; no CR is dropped.
///
/// The names of the entries' lines, but for those of a note, are put into the table, in order. Old names keep their numbers and texts,
/// after an error too. Where memory runs out the table is as it was.
pub fn read_journal(
    alloc: Global,
    names: &mut Names,
    bytes: &[u8],
) -> Result<JournalText, Failure<JournalRefusal>>
    requires { length bytes.now < 2 ^ 32 }
    ensures text { IfOk result (λ t. IsText names.old bytes.now t names.new) }
    ensures refused { IfSome (refusal_of result) (IsFault names.old bytes.now) }
    ensures kept { Keeps names.old names.new }
    ensures starved { result ≡ Err OutOfMemory → names.new ≡ names.old }
{
    let known = names.len();
    let read = read_known(alloc, names, bytes);
    if let Err(Failure::OutOfMemory) = read {
        names.cut_back(known);
    }
    read
}

/// Reads a journal, as `read_journal` does, but where memory runs out the table may have new names too.
fn read_known(
    alloc: Global,
    names: &mut Names,
    bytes: &[u8],
) -> Result<JournalText, Failure<JournalRefusal>>
    requires { length bytes.now < 2 ^ 32 }
    ensures text { IfOk result (λ t. IsText names.old bytes.now t names.new) }
    ensures refused { IfSome (refusal_of result) (IsFault names.old bytes.now) }
    ensures kept { Keeps names.old names.new }
{
    let lines = lines(alloc, bytes)?;
    match heading_of(alloc, bytes, &lines)? {
        Heading::Headed(None) => read_bare(alloc, names, bytes, &lines),
        Heading::Headed(Some(settings)) => read_settled(alloc, names, bytes, &lines, settings),
        Heading::Untitled => Err(Failure::Refused(JournalRefusal::Header)),
        Heading::Unsettled => Err(Failure::Refused(JournalRefusal::Line { n: 2 })),
    }
}
