//! What an entry does to the rows of a picture.
ghost use Rattle.std.specs.Prelude.{◌≡◌};
ghost use Rattle.ps_picture.specs.Touches.{by_touch, finished, same_subject, touch_in, touch_of, touch_on};

use ps_machine::{By, Event};
use ps_world::Name;

/// Whose row it is.
#[derive(Clone, Copy)]
pub enum Subject {
    /// The act at this place of the plan.
    Act(u64),
    /// The performer or the observer with this name.
    Member(Name),
}

/// How a bar ends.
#[derive(Clone, Copy, PartialEq, Eq)]
pub enum Ending {
    Done,
    Failed,
    Cancelled,
    /// It has no end among the entries, or is begun anew.
    Open,
}

/// What a mark stands for.
#[derive(Clone, Copy, PartialEq, Eq)]
pub enum Sign {
    /// A performer is wanted for the act.
    Request,
    Offer,
    /// The performer makes no offer.
    Pass,
    /// The performer's offer is the one that is taken.
    Confirm,
    /// The performer's offer isn't taken.
    Reject,
    Feedback,
    /// The performer or the observer edits what is known.
    Edit,
    /// Its edit is refused.
    Refused,
}

/// What an entry does to its row.
#[derive(Clone, Copy)]
pub enum Touch {
    /// A bar begins.
    Begins,
    /// The bar ends.
    Ends(Ending),
    /// A mark stands.
    Marks(Sign),
}

/// Whether two rows are of the same act or member.
fn same_subject(one: Subject, other: Subject) -> bool
    ensures { result ≡ same_subject one other }
{
    match (one, other) {
        (Subject::Act(m), Subject::Act(n)) => m == n,
        (Subject::Member(m), Subject::Member(n)) => m == n,
        (Subject::Act(_), Subject::Member(_)) => false,
        (Subject::Member(_), Subject::Act(_)) => false,
    }
}

/// How the bar of a performer that finishes ends.
fn finished(ok: bool) -> Ending
    ensures { result ≡ finished ok }
{
    if ok { Ending::Done } else { Ending::Failed }
}

/// A mark in the row of whoever edits, if it isn't the terminal.
fn by_touch(by: By, sign: Sign) -> Option<(Subject, Touch)>
    ensures { result ≡ by_touch by sign }
{
    match by {
        By::Terminal(_) => None,
        By::Performer(_, name) => Some((Subject::Member(name), Touch::Marks(sign))),
        By::Observer(name) => Some((Subject::Member(name), Touch::Marks(sign))),
    }
}

/// Whose row an event stands in, and what it does there.
pub fn touch_of(event: &Event) -> Option<(Subject, Touch)>
    ensures { result ≡ touch_of event.now }
{
    match event {
        Event::Start(act) => Some((Subject::Act(u64::from(*act)), Touch::Begins)),
        Event::Request { r: _, act } => Some((
            Subject::Act(u64::from(*act)),
            Touch::Marks(Sign::Request),
        )),
        Event::End(act) => Some((Subject::Act(u64::from(*act)), Touch::Ends(Ending::Done))),
        Event::Fail { act, why: _ } => Some((
            Subject::Act(u64::from(*act)),
            Touch::Ends(Ending::Failed),
        )),
        Event::Cancel { act, why: _ } => Some((
            Subject::Act(u64::from(*act)),
            Touch::Ends(Ending::Cancelled),
        )),
        Event::Offer { r: _, by } => Some((Subject::Member(*by), Touch::Marks(Sign::Offer))),
        Event::Pass { r: _, by, why: _ } => Some((Subject::Member(*by), Touch::Marks(Sign::Pass))),
        Event::Confirm { r: _, by } => Some((Subject::Member(*by), Touch::Marks(Sign::Confirm))),
        Event::Reject { r: _, by } => Some((Subject::Member(*by), Touch::Marks(Sign::Reject))),
        Event::Begin { r: _, by } => Some((Subject::Member(*by), Touch::Begins)),
        Event::Feedback {
            r: _,
            by,
            percent: _,
            text: _,
        } => Some((Subject::Member(*by), Touch::Marks(Sign::Feedback))),
        Event::Finish { r: _, by, ok } => Some((Subject::Member(*by), Touch::Ends(finished(*ok)))),
        Event::Stopped { r: _, by } => {
            Some((Subject::Member(*by), Touch::Ends(Ending::Cancelled)))
        }
        Event::Edit { by, edit: _ } => by_touch(*by, Sign::Edit),
        Event::Refused { by, why: _ } => by_touch(*by, Sign::Refused),
        _ => None,
    }
}

/// What is done to this row, of what is done to some row.
fn touch_in(subject: Subject, touched: Option<(Subject, Touch)>) -> Option<Touch>
    ensures { result ≡ touch_in subject touched }
{
    match touched {
        None => None,
        Some((other, touch)) => if same_subject(subject, other) {
            Some(touch)
        } else {
            None
        },
    }
}

/// What an event does to a row.
pub fn touch_on(subject: Subject, event: &Event) -> Option<Touch>
    ensures { result ≡ touch_on subject event.now }
{
    touch_in(subject, touch_of(event))
}
