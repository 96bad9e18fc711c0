//! What stands in an entry that has a line.
ghost use Rattle.std.specs.Prelude.{◌≡◌};
ghost use Rattle.std.specs.List.{list_all};
ghost use Rattle.ps_machine.specs.Tables.{is_note, is_printable};
ghost use Rattle.ps_entries.specs.Forms.{is_act, is_by, is_byte, is_cause, is_edit_cause, is_effect_cause, is_entry, is_event, is_ground_cause, is_known, is_line_cause, is_long, is_no_action, is_on_request, is_outcome, is_plan_cause, is_short, is_text_cause, may_run};

use ps_action::{Act, EffectRefusal, GroundRefusal, PlanRefusal, PlanTextRefusal};
use ps_machine::{By, Entry, Event, LineCause, Outcome, Refusal, RunKind};
use ps_world::{EditRefusal, Name};

/// The most bytes of a note.
const LONGEST_NOTE: usize = 64;

/// Any number of 8 bits is one.
fn is_byte(_n: u8) -> bool
    ensures { result ≡ is_byte _n }
{
    true
}

/// Any number of 32 bits is one.
fn is_short(_n: u32) -> bool
    ensures { result ≡ is_short _n }
{
    true
}

/// Any number of 64 bits is one.
fn is_long(_n: u64) -> bool
    ensures { result ≡ is_long _n }
{
    true
}

/// Any place is a number of 64 bits.
fn is_place(_n: usize) -> bool
    ensures { result ≡ is_long _n }
{
    true
}

/// Whether a name is one of so many.
fn is_known(count: usize, name: Name) -> bool
    ensures { result ≡ is_known count name }
{
    (name.0 as usize) < count
}

fn is_line_cause(cause: LineCause) -> bool
    ensures { result ≡ is_line_cause cause }
{
    match cause {
        LineCause::Lex { at } => is_place(at),
        LineCause::Number { at } => is_place(at),
        LineCause::Shape { at } => is_place(at),
        _ => true,
    }
}

fn is_edit_cause(count: usize, why: EditRefusal) -> bool
    ensures { result ≡ is_edit_cause count why }
{
    match why {
        EditRefusal::NoInstance(name) => is_known(count, name),
        EditRefusal::Arity { want, got } => is_place(want) && is_place(got),
        EditRefusal::WrongType { at } => is_place(at),
        _ => true,
    }
}

fn is_ground_cause(count: usize, why: GroundRefusal) -> bool
    ensures { result ≡ is_ground_cause count why }
{
    match why {
        GroundRefusal::NoAction => true,
        GroundRefusal::Arity { want, got } => is_place(want) && is_place(got),
        GroundRefusal::NoInstance(name) => is_known(count, name),
        GroundRefusal::WrongType { at } => is_place(at),
    }
}

fn is_effect_cause(why: EffectRefusal) -> bool
    ensures { result ≡ is_effect_cause why }
{
    match why {
        EffectRefusal::Clash { at } => is_place(at),
        EffectRefusal::Undefined { at } => is_place(at),
        EffectRefusal::Range { at } => is_place(at),
    }
}

fn is_plan_cause(count: usize, why: PlanRefusal) -> bool
    ensures { result ≡ is_plan_cause count why }
{
    match why {
        PlanRefusal::NoGoal => true,
        PlanRefusal::Ground(at, why) => is_short(at) && is_ground_cause(count, why),
        PlanRefusal::StartFalse(at) => is_short(at),
        PlanRefusal::StartEffect(at, why) => is_short(at) && is_effect_cause(why),
        PlanRefusal::OverAllFalse(at) => is_short(at),
        PlanRefusal::EndFalse(at) => is_short(at),
        PlanRefusal::EndEffect(at, why) => is_short(at) && is_effect_cause(why),
        PlanRefusal::GoalFalse => true,
    }
}

fn is_text_cause(why: PlanTextRefusal) -> bool
    ensures { result ≡ is_text_cause why }
{
    match why {
        PlanTextRefusal::Line { n } => is_place(n),
        PlanTextRefusal::Long { n } => is_place(n),
    }
}

fn is_no_action(why: GroundRefusal) -> bool
    ensures { result ≡ is_no_action why }
{
    match why {
        GroundRefusal::NoAction => true,
        _ => false,
    }
}

/// Whether a cause stands first among those that print as it does, and its names are known.
fn is_cause(count: usize, why: Refusal) -> bool
    ensures { result ≡ is_cause count why }
{
    match why {
        Refusal::Line(cause) => is_line_cause(cause),
        Refusal::Edit(why) => is_edit_cause(count, why),
        Refusal::Ground(why) => is_no_action(why),
        Refusal::Plan(why) => is_plan_cause(count, why),
        Refusal::PlanText(why) => is_text_cause(why),
        Refusal::NoGoal => false,
        Refusal::NoPlan => true,
        Refusal::Spent(depth) => is_short(depth),
        Refusal::TooMany => true,
        Refusal::NoRun => true,
        Refusal::NoPredicate => false,
        Refusal::NoAction => false,
    }
}

fn is_by(count: usize, by: By) -> bool
    ensures { result ≡ is_by count by }
{
    match by {
        By::Terminal(line) => is_short(line),
        By::Performer(r, name) => is_long(r) && is_known(count, name),
        By::Observer(name) => is_known(count, name),
    }
}

fn are_known(count: usize, names: &[Name]) -> bool
    ensures { result ≡ list_all (is_known count) names.now }
{
    names.iter().all(|name| is_known(count, *name))
}

fn is_act(count: usize, act: &Act) -> bool
    ensures { result ≡ is_act count act.now }
{
    is_known(count, act.action) && are_known(count, act.args.as_slice()) && act.args.len() <= 6
}

fn are_acts(count: usize, acts: &[Act]) -> bool
    ensures { result ≡ list_all (is_act count) acts.now }
{
    acts.iter().all(|act| is_act(count, act))
}

/// Whether a run of a kind may have these acts: a run of an action has one.
fn may_run(kind: RunKind, acts: &[Act]) -> bool
    ensures { result ≡ may_run kind acts.now }
{
    match kind {
        RunKind::Action => acts.len() == 1,
        _ => true,
    }
}

fn is_outcome(how: Outcome) -> bool
    ensures { result ≡ is_outcome how }
{
    match how {
        Outcome::Spent(depth) => is_short(depth),
        _ => true,
    }
}

fn is_printable(b: u8) -> bool
    ensures { result ≡ is_printable b }
{
    b >= b' ' && b <= b'~'
}

fn are_printable(text: &[u8]) -> bool
    ensures { result ≡ list_all is_printable text.now }
{
    text.iter().all(|b| is_printable(*b))
}

/// Whether a text is 1 to 64 printable bytes without blanks at its ends.
fn is_note(text: &[u8]) -> bool
    ensures { result ≡ is_note text.now }
{
    !text.is_empty()
        && text.len() <= LONGEST_NOTE
        && are_printable(text)
        && !text.starts_with(b" ")
        && !text.ends_with(b" ")
}

fn is_on_request(count: usize, r: u64, by: Name) -> bool
    ensures { result ≡ is_on_request count r by }
{
    is_long(r) && is_known(count, by)
}

/// Whether an event is in form; of what a terminal line says in it nothing is said here.
fn is_event(count: usize, event: &Event) -> bool
    ensures { result ≡ is_event count event.now }
{
    match event {
        Event::Edit { by, edit: _ } => is_by(count, *by),
        Event::Refused { by, why } => is_by(count, *by) && is_cause(count, *why),
        Event::Ask(_) => true,
        Event::Run { kind, acts } => {
            may_run(*kind, acts.as_slice()) && are_acts(count, acts.as_slice())
        }
        Event::Quit => true,
        Event::Start(act) => is_short(*act),
        Event::Request { r, act } => is_long(*r) && is_short(*act),
        Event::Offer { r, by } => is_on_request(count, *r, *by),
        Event::Pass { r, by, why: _ } => is_on_request(count, *r, *by),
        Event::Confirm { r, by } => is_on_request(count, *r, *by),
        Event::Reject { r, by } => is_on_request(count, *r, *by),
        Event::Begin { r, by } => is_on_request(count, *r, *by),
        Event::UnitWork { r, by } => is_on_request(count, *r, *by),
        Event::Feedback {
            r,
            by,
            percent,
            text,
        } => { is_on_request(count, *r, *by) && (*percent <= 100 && is_note(text.as_slice())) }
        Event::Finish { r, by, ok: _ } => is_on_request(count, *r, *by),
        Event::Unserved(r) => is_long(*r),
        Event::End(act) => is_short(*act),
        Event::Fail { act, why: _ } => is_short(*act),
        Event::Cancel { act, why: _ } => is_short(*act),
        Event::Stopped { r, by } => is_on_request(count, *r, *by),
        Event::Replan(acts) => are_acts(count, acts.as_slice()),
        Event::Over(how) => is_outcome(*how),
    }
}

/// Whether an entry is in form, with so many names in the table.
pub fn is_entry(count: usize, entry: &Entry) -> bool
    ensures { result ≡ is_entry count entry.now }
{
    is_byte(entry.hand) && is_event(count, &entry.what)
}
