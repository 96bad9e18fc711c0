//! Judging the text of a journal.
ghost use Rattle.std.specs.Prelude.{◌≡◌, ◌<◌, ◌^◌, ◌++◌, length, IfOk};
ghost use Rattle.ps_rules.specs.Heads.{head_text};
ghost use Rattle.ps_rules.specs.Sound.{IsSound};
ghost use Rattle.ps_text.specs.Names.{Keeps};
ghost use Rattle.ps_replies.specs.Plans.{GivesLeast};
ghost use Rattle.ps_audit.specs.EntryLines.{ArePrinted};
ghost use Rattle.ps_audit.specs.Findings.{compared, due_head, Finds, found_by, IsAnswer, IsWritten, Judges, line_of, line_of_fault};

use super::differences::line_of_difference;
use super::entry_lines::EntryLines;
use super::findings::{Finding, finding_line};
use super::texts::judge_text;
use ps_entries::{JournalRefusal, JournalText, read_journal};
use ps_journal::push_head;
use ps_machine::Input;
use ps_plan::Solver;
use ps_replay::Verdict;
use ps_text::{Names, lines};
use ps_world::Failure;
use std::alloc::{AllocError, Global};

/// The line of a text's first fault.
fn line_of_fault(refusal: JournalRefusal) -> usize
    ensures { result ≡ line_of_fault refusal }
{
    match refusal {
        JournalRefusal::Header => 1,
        JournalRefusal::Line { n } => n as usize,
    }
}

/// The line of the entry at a place, or the line after the last where there is none.
fn line_at(alloc: Global, journal: &[u8], lines_of: &[u32], at: usize) -> Result<usize, AllocError>
    requires { length journal.now < 2 ^ 32 }
    ensures { IfOk result (λ n. n ≡ line_of journal.now lines_of.now at) }
{
    match lines_of.get(at) {
        Some(line) => Ok(*line as usize),
        None => {
            let all = lines(alloc, journal)?;
            Ok(all.len() + 1)
        }
    }
}

/// What a text is found to be that should be this one.
fn compare(text: &[u8], due: &[u8]) -> Finding
    ensures { result ≡ compared text.now due.now }
{
    if text == due {
        Finding::Legal
    } else {
        let line = line_of_difference(text, due);
        Finding::Illegal { line }
    }
}

/// A text with this head before it.
fn with_head(alloc: Global, head: Option<(u32, u8)>, body: &[u8]) -> Result<Vec<u8>, AllocError>
    ensures { IfOk result (λ text. text.items ≡ head_text head ++ body.now) }
{
    let mut text = Vec::new(alloc);
    push_head(head, &mut text)?;
    text.extend_from_slice(body)?;
    Ok(text)
}

/// The head that the text of entries is to have where theirs has this one: in version 2 it says the settings of the input.
fn due_head(head: Option<(u32, u8)>, input: &Input) -> Option<(u32, u8)>
    ensures { result ≡ due_head head input.now }
{
    match head {
        None => None,
        Some(_) => Some((input.budget, input.replans)),
    }
}

/// What a text is found to be that is read as this, by what judging its entries came to, and by this text of theirs.
fn found_by(
    alloc: Global,
    input: &Input,
    journal: &[u8],
    read: &JournalText,
    verdict: Verdict,
    body: &[u8],
) -> Result<Finding, AllocError>
    requires { length journal.now < 2 ^ 32 }
    ensures { IfOk result
        (λ f. f ≡ found_by input.now journal.now read.now verdict body.now) }
{
    match verdict {
        Verdict::Legal => {
            let due = with_head(alloc, due_head(read.settings, input), body)?;
            Ok(compare(journal, &due))
        }
        Verdict::Illegal { at } => {
            let line = line_at(alloc, journal, read.entries.lines(), at)?;
            Ok(Finding::Illegal { line })
        }
    }
}

/// What a text is found to be, and the text of its entries.
#[derive(Drop)]
pub struct Judged {
    pub finding: Finding,
    pub body: Vec<u8>,
}

/// Judges a text that is read as this.
fn judge<S: Solver>(
    alloc: Global,
    names: &Names,
    input: &Input,
    journal: &[u8],
    read: &JournalText,
    solver: &S,
) -> Result<Judged, AllocError>
    requires sound { IsSound input.now }
    requires solver { GivesLeast (S.says solver.now) }
    requires few { length journal.now < 2 ^ 32 }
    requires printed { ArePrinted names.now journal.now read.now.entries }
    ensures { IfOk result (Judges input.now names.now journal.now read.now) }
{
    let printed = EntryLines::of(alloc, journal, read.entries.lines())?;
    let mut body = Vec::new(alloc);
    let verdict = judge_text(
        alloc,
        names,
        input,
        read.entries.entries(),
        &printed,
        solver,
        &mut body,
    )?;
    let finding = found_by(alloc, input, journal, read, verdict, &body)?;
    Ok(Judged { finding, body })
}

/// What the text of a journal is found to be, and what is to be written for it.
#[derive(Drop)]
pub struct Audited {
    pub finding: Finding,
    pub text: Vec<u8>,
}

/// What is to be written for a text that is judged so, with the settings of its input.
fn answer(
    alloc: Global,
    settings: (u32, u8),
    judged: Judged,
    anew: bool,
) -> Result<Audited, AllocError>
    ensures finding { IfOk result (λ a. a.finding ≡ judged.finding) }
    ensures text { IfOk result (λ a. IsWritten settings judged anew a.text.items) }
{
    let finding = judged.finding;
    let text = match (finding, anew) {
        (Finding::Legal, true) => with_head(alloc, Some(settings), &judged.body)?,
        _ => finding_line(alloc, finding)?,
    };
    Ok(Audited { finding, text })
}

/// Judges the text of a journal: whether it is the text, in its version, of a whole history of an input, or the line at which it isn't;
/// and answers what is to be written for it: the line that says what was found, or, where that is wanted and it is legal, the text of
/// version 2 of its entries. The settings that it says aren't looked at but to be compared with those of the input. The names of its
/// lines are put into the table; old names keep their numbers and texts, after an error too. The text has fewer than 2^32 bytes. The only
/// error is out of memory.
pub fn audit<S: Solver>(
    alloc: Global,
    names: &mut Names,
    input: &Input,
    journal: &[u8],
    solver: &S,
    anew: bool,
) -> Result<Audited, AllocError>
    requires sound { IsSound input.now }
    requires solver { GivesLeast (S.says solver.now) }
    requires few { length journal.now < 2 ^ 32 }
    ensures finds { IfOk result (λ a. Finds input.now names.old journal.now a.finding) }
    ensures text { IfOk result (λ a. IsAnswer input.now names.old journal.now anew a.finding
        a.text.items) }
    ensures kept { Keeps names.old names.new }
{
    // What is said of the table's length is that it is one of names.
    let _count = names.len();
    match read_journal(alloc, names, journal) {
        Ok(read) => {
            let judged = judge(alloc, names, input, journal, &read, solver)?;
            answer(alloc, (input.budget, input.replans), judged, anew)
        }
        Err(Failure::Refused(refusal)) => {
            let line = line_of_fault(refusal);
            let finding = Finding::Illegal { line };
            let text = finding_line(alloc, finding)?;
            Ok(Audited { finding, text })
        }
        Err(Failure::OutOfMemory) => Err(AllocError),
    }
}
