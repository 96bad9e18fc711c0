//! The event that words tell.
ghost use Rattle.std.specs.Prelude.{◌≡◌, ◌≤◌, IfOk};
ghost use Rattle.ps_entries.specs.Events.{by_of, by_performer, cancel_at, fail_at, failed_at, feedback_of, kind_at, numbered_event, of_act, of_request, ok_at, outcome_at, pass_at, place_after, plain_event, refused_by, replan_of, run_of, short_event};

use super::acts::acts_at;
use super::causes::cause_at;
use super::words::{byte, name_at, number_at, short, short_at};
use ps_machine::{By, CancelWhy, Event, FailWhy, Outcome, PassWhy, RunKind};
use ps_text::Words;
use ps_world::{Name, Seq};
use std::alloc::{AllocError, Global};

/// Why there is no offer.
fn pass_at(words: &Words, at: usize) -> Option<PassWhy>
    ensures { result ≡ pass_at words.now at }
{
    if words.reads(at, b"other") {
        Some(PassWhy::Other)
    } else if words.reads(at, b"busy") {
        Some(PassWhy::Busy)
    } else if words.reads(at, b"late") {
        Some(PassWhy::Late)
    } else {
        None
    }
}

/// Why an act failed.
fn fail_at(words: &Words, at: usize) -> Option<FailWhy>
    ensures { result ≡ fail_at words.now at }
{
    if words.reads(at, b"noperformer") {
        Some(FailWhy::NoPerformer)
    } else if words.reads(at, b"script") {
        Some(FailWhy::Script)
    } else if words.reads(at, b"atend") {
        Some(FailWhy::AtEnd)
    } else if words.reads(at, b"effect") {
        Some(FailWhy::Effect)
    } else {
        None
    }
}

/// Why an act was cancelled.
fn cancel_at(words: &Words, at: usize) -> Option<CancelWhy>
    ensures { result ≡ cancel_at words.now at }
{
    if words.reads(at, b"overall") {
        Some(CancelWhy::OverAll)
    } else if words.reads(at, b"stop") {
        Some(CancelWhy::Stop)
    } else {
        None
    }
}

/// What a run is for.
fn kind_at(words: &Words, at: usize) -> Option<RunKind>
    ensures { result ≡ kind_at words.now at }
{
    if words.reads(at, b"goal") {
        Some(RunKind::Goal)
    } else if words.reads(at, b"plan") {
        Some(RunKind::Plan)
    } else if words.reads(at, b"action") {
        Some(RunKind::Action)
    } else {
        None
    }
}

/// Whether a performer's work went well.
fn ok_at(words: &Words, at: usize) -> Option<bool>
    ensures { result ≡ ok_at words.now at }
{
    if words.reads(at, b"ok") {
        Some(true)
    } else if words.reads(at, b"fail") {
        Some(false)
    } else {
        None
    }
}

/// How a run failed.
fn failed_at(words: &Words, at: usize) -> Option<Outcome>
    requires { at ≤ 8 }
    ensures { result ≡ failed_at words.now at }
{
    if words.reads(at, b"act") {
        Some(Outcome::Act)
    } else if words.reads(at, b"blocked") {
        Some(Outcome::Blocked)
    } else if words.reads(at, b"nogoal") {
        Some(Outcome::NoGoal)
    } else if words.reads(at, b"replans") {
        Some(Outcome::Replans)
    } else if words.reads(at, b"noplan") {
        Some(Outcome::NoPlan)
    } else if words.reads(at, b"toomany") {
        Some(Outcome::TooMany)
    } else if words.reads(at, b"spent") {
        let depth = short_at(words, at + 1)?;
        Some(Outcome::Spent(depth))
    } else {
        None
    }
}

/// How a run ended.
fn outcome_at(words: &Words, at: usize) -> Option<Outcome>
    requires { at ≤ 7 }
    ensures { result ≡ outcome_at words.now at }
{
    if words.reads(at, b"success") {
        Some(Outcome::Success)
    } else if words.reads(at, b"failed") {
        failed_at(words, at + 1)
    } else {
        None
    }
}

/// Whose edit it is.
pub fn by_of(words: &Words, names: &[Name]) -> Option<By>
    ensures { result ≡ by_of words.now names.now }
{
    if words.reads(2, b"terminal") {
        let line = short_at(words, 3)?;
        Some(By::Terminal(line))
    } else if words.reads(2, b"performer") {
        let r = number_at(words, 3)?;
        Some(By::Performer(r, name_at(names, 4)))
    } else if words.reads(2, b"observer") {
        Some(By::Observer(name_at(names, 3)))
    } else {
        None
    }
}

/// The place of the first word after whoever edits.
fn place_after(by: By) -> usize
    ensures place { result ≡ place_after by }
    ensures small { result ≤ 5 }
{
    match by {
        By::Performer(_, _) => 5,
        _ => 4,
    }
}

/// What a performer does on a request.
fn by_performer(words: &Words, by: Name, r: u64) -> Option<Event>
    ensures { result ≡ by_performer words.now by r }
{
    if words.reads(1, b"offer") {
        Some(Event::Offer { r, by })
    } else if words.reads(1, b"confirm") {
        Some(Event::Confirm { r, by })
    } else if words.reads(1, b"reject") {
        Some(Event::Reject { r, by })
    } else if words.reads(1, b"begin") {
        Some(Event::Begin { r, by })
    } else if words.reads(1, b"unitwork") {
        Some(Event::UnitWork { r, by })
    } else if words.reads(1, b"stopped") {
        Some(Event::Stopped { r, by })
    } else if words.reads(1, b"pass") {
        let why = pass_at(words, 4)?;
        Some(Event::Pass { r, by, why })
    } else if words.reads(1, b"finish") {
        let ok = ok_at(words, 4)?;
        Some(Event::Finish { r, by, ok })
    } else {
        None
    }
}

/// What becomes of an act.
fn of_act(words: &Words, act: u32) -> Option<Event>
    ensures { result ≡ of_act words.now act }
{
    if words.reads(1, b"start") {
        Some(Event::Start(act))
    } else if words.reads(1, b"end") {
        Some(Event::End(act))
    } else if words.reads(1, b"fail") {
        let why = fail_at(words, 3)?;
        Some(Event::Fail { act, why })
    } else if words.reads(1, b"cancel") {
        let why = cancel_at(words, 3)?;
        Some(Event::Cancel { act, why })
    } else {
        None
    }
}

/// What becomes of a request.
fn of_request(words: &Words, r: u64) -> Option<Event>
    ensures { result ≡ of_request words.now r }
{
    if words.reads(1, b"request") {
        let act = short_at(words, 3)?;
        Some(Event::Request { r, act })
    } else if words.reads(1, b"unserved") {
        Some(Event::Unserved(r))
    } else {
        None
    }
}

/// An event with a number after its first word.
fn numbered_event(words: &Words, names: &[Name], n: u64) -> Option<Event>
    ensures { result ≡ numbered_event words.now names.now n }
{
    if let Some(event) = by_performer(words, name_at(names, 3), n) {
        return Some(event);
    }
    if let Some(event) = of_request(words, n) {
        return Some(event);
    }
    let act = short(Some(n))?;
    of_act(words, act)
}

/// Why something was refused.
fn refused_by(words: &Words, names: &[Name], by: By) -> Option<Event>
    ensures { result ≡ refused_by words.now names.now by }
{
    let why = cause_at(words, names, place_after(by))?;
    Some(Event::Refused { by, why })
}

/// A run of a kind.
fn run_of(
    alloc: Global,
    words: &Words,
    names: &[Name],
    kind: RunKind,
) -> Result<Option<Event>, AllocError>
    ensures { IfOk result (λ o. o ≡ run_of words.now names.now kind) }
{
    Ok(match acts_at(alloc, words, names, 3)? {
        Some(acts) => Some(Event::Run {
            kind,
            acts: Seq::of(acts),
        }),
        None => None,
    })
}

/// The plan with which a run goes on.
fn replan_of(alloc: Global, words: &Words, names: &[Name]) -> Result<Option<Event>, AllocError>
    ensures { IfOk result (λ o. o ≡ replan_of words.now names.now) }
{
    Ok(match acts_at(alloc, words, names, 2)? {
        Some(acts) => Some(Event::Replan(Seq::of(acts))),
        None => None,
    })
}

/// An event without acts, all of whose line is read word by word.
fn short_event(words: &Words, names: &[Name]) -> Option<Event>
    ensures { result ≡ short_event words.now names.now }
{
    if words.reads(1, b"quit") {
        Some(Event::Quit)
    } else if words.reads(1, b"refused") {
        let by = by_of(words, names)?;
        refused_by(words, names, by)
    } else if words.reads(1, b"over") {
        let how = outcome_at(words, 2)?;
        Some(Event::Over(how))
    } else {
        let n = number_at(words, 2)?;
        numbered_event(words, names, n)
    }
}

/// An event all of whose line is read word by word.
pub fn plain_event(
    alloc: Global,
    words: &Words,
    names: &[Name],
) -> Result<Option<Event>, AllocError>
    ensures { IfOk result (λ o. o ≡ plain_event words.now names.now) }
{
    if words.reads(1, b"run") {
        match kind_at(words, 2) {
            Some(kind) => run_of(alloc, words, names, kind),
            None => Ok(None),
        }
    } else if words.reads(1, b"replan") {
        replan_of(alloc, words, names)
    } else {
        Ok(short_event(words, names))
    }
}

/// How far a performer is with its act, and this note.
pub fn feedback_of(
    alloc: Global,
    words: &Words,
    names: &[Name],
    note: &[u8],
) -> Result<Option<Event>, AllocError>
    ensures { IfOk result (λ o. o ≡ feedback_of words.now names.now note.now) }
{
    let Some(r) = number_at(words, 2) else {
        return Ok(None);
    };
    let Some(percent) = byte(number_at(words, 4)) else {
        return Ok(None);
    };
    let text = Vec::from_slice(alloc, note)?;
    Ok(Some(Event::Feedback {
        r,
        by: name_at(names, 3),
        percent,
        text: Seq::of(text),
    }))
}
