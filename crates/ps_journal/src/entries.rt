//! The texts of entries.
ghost use Rattle.std.specs.Prelude.{◌≡◌, ◌++◌, codes, IfOk, OnOk};
ghost use Rattle.std.specs.Fmt.{decimal};
ghost use Rattle.ps_machine.specs.Texts.{query_text, by_text, kind_text, pass_text, fail_text, cancel_text, outcome_text, finish_text, on_request, event_text, entry_line};

use super::printed::{LINE_BYTES, Printed, push_after, push_all, push_both, push_spaced};
use ps_machine::{By, CancelWhy, Entry, Event, FailWhy, Outcome, PassWhy, Query, RunKind};
use ps_text::Names;
use ps_world::Name;
use std::alloc::{AllocError, Global};

/// The text of a query, as a line of the terminal says it.
impl Printed for Query {
    ghost text = { query_text };

    fn print(&self, names: &Names, out: &mut Vec<u8>) -> Result<(), AllocError> {
        match self {
            Query::ModelTypes => out.extend_from_slice(b"get model types"),
            Query::ModelPredicates => out.extend_from_slice(b"get model predicates"),
            Query::ModelFunctions => out.extend_from_slice(b"get model functions"),
            Query::ModelActions => out.extend_from_slice(b"get model actions"),
            Query::ModelPredicate(name) => push_after(b"get model predicate ", name, names, out),
            Query::ModelAction(name) => push_after(b"get model action ", name, names, out),
            Query::Domain => out.extend_from_slice(b"get domain"),
            Query::ProblemInstances => out.extend_from_slice(b"get problem instances"),
            Query::ProblemPredicates => out.extend_from_slice(b"get problem predicates"),
            Query::ProblemFunctions => out.extend_from_slice(b"get problem functions"),
            Query::ProblemGoal => out.extend_from_slice(b"get problem goal"),
            Query::Plan => out.extend_from_slice(b"get plan"),
            Query::Tree => out.extend_from_slice(b"get tree"),
        }
    }
}

impl Printed for By {
    ghost text = { by_text };

    fn print(&self, names: &Names, out: &mut Vec<u8>) -> Result<(), AllocError> {
        match self {
            By::Terminal(line) => push_after(b"terminal ", line, names, out),
            By::Performer(r, name) => push_on_request(b"performer ", *r, *name, names, out),
            By::Observer(name) => push_after(b"observer ", name, names, out),
        }
    }
}

/// The word for what a run is for.
fn kind_text(kind: RunKind) -> &'static [u8]
    ensures { result.now ≡ kind_text kind }
{
    match kind {
        RunKind::Goal => b"goal",
        RunKind::Plan => b"plan",
        RunKind::Action => b"action",
    }
}

/// The word for why there is no offer.
fn pass_text(why: PassWhy) -> &'static [u8]
    ensures { result.now ≡ pass_text why }
{
    match why {
        PassWhy::Other => b"other",
        PassWhy::Busy => b"busy",
        PassWhy::Late => b"late",
    }
}

/// The word for why an act failed.
fn fail_text(why: FailWhy) -> &'static [u8]
    ensures { result.now ≡ fail_text why }
{
    match why {
        FailWhy::NoPerformer => b"noperformer",
        FailWhy::Script => b"script",
        FailWhy::AtEnd => b"atend",
        FailWhy::Effect => b"effect",
    }
}

/// The word for why an act was cancelled.
fn cancel_text(why: CancelWhy) -> &'static [u8]
    ensures { result.now ≡ cancel_text why }
{
    match why {
        CancelWhy::OverAll => b"overall",
        CancelWhy::Stop => b"stop",
    }
}

/// What stands after `finish R P`.
fn finish_text(ok: bool) -> &'static [u8]
    ensures { result.now ≡ finish_text ok }
{
    if ok { b" ok" } else { b" fail" }
}

impl Printed for Outcome {
    ghost text = { λ names how. outcome_text how };

    fn print(&self, names: &Names, out: &mut Vec<u8>) -> Result<(), AllocError> {
        match self {
            Outcome::Success => out.extend_from_slice(b"success"),
            Outcome::Act => out.extend_from_slice(b"failed act"),
            Outcome::Blocked => out.extend_from_slice(b"failed blocked"),
            Outcome::NoGoal => out.extend_from_slice(b"failed nogoal"),
            Outcome::Replans => out.extend_from_slice(b"failed replans"),
            Outcome::NoPlan => out.extend_from_slice(b"failed noplan"),
            Outcome::Spent(depth) => push_after(b"failed spent ", depth, names, out),
            Outcome::TooMany => out.extend_from_slice(b"failed toomany"),
        }
    }
}

/// Adds a word, a request and a performer.
fn push_on_request(
    word: &[u8],
    r: u64,
    by: Name,
    names: &Names,
    out: &mut Vec<u8>,
) -> Result<(), AllocError>
    ensures { OnOk result (out.new.items ≡ out.old.items ++ on_request names.now word.now r by) }
{
    push_both(word, &r, &by, names, out)
}

/// Adds a word, the place of an act, and words after a space.
fn push_on_act(
    word: &[u8],
    act: u32,
    why: &[u8],
    names: &Names,
    out: &mut Vec<u8>,
) -> Result<(), AllocError>
    ensures { OnOk result (out.new.items ≡ out.old.items
        ++ (word.now ++ (decimal act ++ (codes " " ++ why.now)))) }
{
    push_after(word, &act, names, out)?;
    out.push(b' ')?;
    out.extend_from_slice(why)
}

/// Adds what a performer tells of its act: how far it is, and a note.
fn push_feedback(
    r: u64,
    by: Name,
    percent: u8,
    note: &[u8],
    names: &Names,
    out: &mut Vec<u8>,
) -> Result<(), AllocError>
    ensures { OnOk result (out.new.items ≡ out.old.items
        ++ (on_request names.now (codes "feedback ") r by
        ++ (codes " " ++ (decimal percent ++ (codes " " ++ note.now))))) }
{
    push_on_request(b"feedback ", r, by, names, out)?;
    push_spaced(&percent, names, out)?;
    out.push(b' ')?;
    out.extend_from_slice(note)
}

impl Printed for Event {
    ghost text = { event_text };

    fn print(&self, names: &Names, out: &mut Vec<u8>) -> Result<(), AllocError> {
        match self {
            Event::Edit { by, edit } => push_both(b"edit ", by, edit, names, out),
            Event::Refused { by, why } => push_both(b"refused ", by, why, names, out),
            Event::Ask(query) => push_after(b"ask ", query, names, out),
            Event::Run { kind, acts } => {
                out.extend_from_slice(b"run ")?;
                out.extend_from_slice(kind_text(*kind))?;
                push_all(acts.as_slice(), names, out)
            }
            Event::Quit => out.extend_from_slice(b"quit"),
            Event::Start(act) => push_after(b"start ", act, names, out),
            Event::Request { r, act } => push_both(b"request ", r, act, names, out),
            Event::Offer { r, by } => push_on_request(b"offer ", *r, *by, names, out),
            Event::Pass { r, by, why } => {
                push_on_request(b"pass ", *r, *by, names, out)?;
                out.push(b' ')?;
                out.extend_from_slice(pass_text(*why))
            }
            Event::Confirm { r, by } => push_on_request(b"confirm ", *r, *by, names, out),
            Event::Reject { r, by } => push_on_request(b"reject ", *r, *by, names, out),
            Event::Begin { r, by } => push_on_request(b"begin ", *r, *by, names, out),
            Event::UnitWork { r, by } => push_on_request(b"unitwork ", *r, *by, names, out),
            Event::Feedback {
                r,
                by,
                percent,
                text,
            } => push_feedback(*r, *by, *percent, text.as_slice(), names, out),
            Event::Finish { r, by, ok } => {
                push_on_request(b"finish ", *r, *by, names, out)?;
                out.extend_from_slice(finish_text(*ok))
            }
            Event::Unserved(r) => push_after(b"unserved ", r, names, out),
            Event::End(act) => push_after(b"end ", act, names, out),
            Event::Fail { act, why } => push_on_act(b"fail ", *act, fail_text(*why), names, out),
            Event::Cancel { act, why } => {
                push_on_act(b"cancel ", *act, cancel_text(*why), names, out)
            }
            Event::Stopped { r, by } => push_on_request(b"stopped ", *r, *by, names, out),
            Event::Replan(acts) => {
                out.extend_from_slice(b"replan")?;
                push_all(acts.as_slice(), names, out)
            }
            Event::Over(how) => push_after(b"over ", how, names, out),
        }
    }
}

/// The text of an entry: its line, without the LF that ends it.
impl Printed for Entry {
    ghost text = { entry_line };

    fn print(&self, names: &Names, out: &mut Vec<u8>) -> Result<(), AllocError> {
        out.reserve(LINE_BYTES)?;
        self.hand.print(names, out)?;
        push_spaced(&self.what, names, out)
    }
}

/// An entry's line, without the LF that ends it. A name that the table hasn't is printed as nothing.
pub fn print_entry(alloc: Global, names: &Names, entry: &Entry) -> Result<Vec<u8>, AllocError>
    ensures { IfOk result (λ line. line.items ≡ entry_line names.now entry.now) }
{
    let mut line = Vec::with_capacity(alloc, LINE_BYTES)?;
    entry.print(names, &mut line)?;
    Ok(line)
}
