//! Where the reader of a member script stands after a line.
ghost use Rattle.std.specs.Prelude.{◌≡◌};
ghost use Rattle.ps_world.specs.Failures.{Gives};
ghost use Rattle.ps_world.specs.Knowledge.{action_of};
ghost use Rattle.ps_members.specs.Moves.{acting, from_acting, from_beginning, from_named, from_observing, from_ready, from_waiting, from_working, last_job, misplaced, moved, next_job, ready, with_edit, with_item, with_unit};

use super::forms::is_finished;
use super::places::{Place, Said};
use super::refusals::ScriptRefusal;
use ps_domain::Expert;
use ps_machine::{LineCause, Member, Observer, Performer, Unit};
use ps_world::{Cond, Edit, Failure, Name, Seq};
use std::alloc::Global;

/// The most jobs of a performer.
pub const MOST_JOBS: usize = 64;

/// The most units of a job or of an observer.
pub const MOST_UNITS: usize = 1000;

/// After `action`.
fn acting(
    expert: &Expert,
    n: usize,
    name: Name,
    action: Name,
) -> Result<Place, Failure<ScriptRefusal>>
    ensures { Gives (λ place. place) result (acting n name action (action_of expert.now action)) }
{
    match expert.action(action) {
        Some(declared) => Ok(Place::Acting(name, action, declared.params.len())),
        None => Err(Failure::Refused(ScriptRefusal::NoAction { n })),
    }
}

/// After `args`.
fn ready(
    alloc: Global,
    n: usize,
    name: Name,
    action: Name,
    arity: usize,
    places: Seq<Option<Name>>,
) -> Result<Place, Failure<ScriptRefusal>>
    ensures { Gives (λ place. place) result (ready n name action arity places) }
{
    if places.len() != arity {
        return Err(Failure::Refused(ScriptRefusal::Arity { n }));
    }
    Ok(Place::Ready(Performer {
        name,
        action,
        pattern: places,
        jobs: Seq::new(alloc),
    }))
}

/// After a `job` that follows another job.
fn next_job(
    alloc: Global,
    n: usize,
    mut performer: Performer,
    units: Seq<Unit>,
) -> Result<Place, Failure<ScriptRefusal>>
    ensures { Gives (λ place. place) result (next_job n performer units) }
{
    if !is_finished(units.as_slice()) {
        return Err(Failure::Refused(ScriptRefusal::NoFinish { n }));
    }
    performer.jobs.push(units)?;
    if performer.jobs.len() >= MOST_JOBS {
        return Err(Failure::Refused(ScriptRefusal::Limit { n }));
    }
    Ok(Place::Working(performer, Seq::new(alloc)))
}

/// After the `end` of a performer.
fn last_job(
    n: usize,
    mut performer: Performer,
    units: Seq<Unit>,
) -> Result<Place, Failure<ScriptRefusal>>
    ensures { Gives (λ place. place) result (last_job n performer units) }
{
    if !is_finished(units.as_slice()) {
        return Err(Failure::Refused(ScriptRefusal::NoFinish { n }));
    }
    performer.jobs.push(units)?;
    Ok(Place::Ended(Member::Performer(performer)))
}

/// After a unit of a job.
fn with_unit(
    n: usize,
    performer: Performer,
    mut units: Seq<Unit>,
    unit: Unit,
) -> Result<Place, Failure<ScriptRefusal>>
    ensures { Gives (λ place. place) result (with_unit n performer units unit) }
{
    if units.len() >= MOST_UNITS {
        return Err(Failure::Refused(ScriptRefusal::Limit { n }));
    }
    units.push(unit)?;
    Ok(Place::Working(performer, units))
}

/// After an edit of an observer.
fn with_item(
    n: usize,
    mut observer: Observer,
    when: Option<Cond>,
    edit: Edit,
) -> Result<Place, Failure<ScriptRefusal>>
    ensures { Gives (λ place. place) result (with_item n observer when edit) }
{
    if observer.units.len() >= MOST_UNITS {
        return Err(Failure::Refused(ScriptRefusal::Limit { n }));
    }
    observer.units.push((when, edit))?;
    Ok(Place::Observing(observer))
}

/// What isn't allowed here is no form of a line.
fn misplaced(n: usize) -> Result<Place, Failure<ScriptRefusal>>
    ensures { Gives (λ place. place) result (misplaced n) }
{
    Err(Failure::Refused(ScriptRefusal::Line {
        n,
        cause: LineCause::Command,
    }))
}

fn from_beginning(alloc: Global, n: usize, said: Said) -> Result<Place, Failure<ScriptRefusal>>
    ensures { Gives (λ place. place) result (from_beginning n said) }
{
    match said {
        Said::Performer(name) => Ok(Place::Named(name)),
        Said::Observer(name) => {
            let units = Seq::new(alloc);
            Ok(Place::Observing(Observer { name, units }))
        }
        _ => misplaced(n),
    }
}

fn from_named(
    expert: &Expert,
    n: usize,
    name: Name,
    said: Said,
) -> Result<Place, Failure<ScriptRefusal>>
    ensures { Gives (λ place. place) result (from_named expert.now n name said) }
{
    match said {
        Said::Action(action) => acting(expert, n, name, action),
        _ => misplaced(n),
    }
}

fn from_acting(
    alloc: Global,
    n: usize,
    name: Name,
    action: Name,
    arity: usize,
    said: Said,
) -> Result<Place, Failure<ScriptRefusal>>
    ensures { Gives (λ place. place) result (from_acting n name action arity said) }
{
    match said {
        Said::Args(places) => ready(alloc, n, name, action, arity, places),
        _ => misplaced(n),
    }
}

fn from_ready(
    alloc: Global,
    n: usize,
    performer: Performer,
    said: Said,
) -> Result<Place, Failure<ScriptRefusal>>
    ensures { Gives (λ place. place) result (from_ready n performer said) }
{
    match said {
        Said::Job => Ok(Place::Working(performer, Seq::new(alloc))),
        _ => misplaced(n),
    }
}

fn from_working(
    alloc: Global,
    n: usize,
    performer: Performer,
    units: Seq<Unit>,
    said: Said,
) -> Result<Place, Failure<ScriptRefusal>>
    ensures { Gives (λ place. place) result (from_working n performer units said) }
{
    match said {
        Said::Job => next_job(alloc, n, performer, units),
        Said::End => last_job(n, performer, units),
        Said::Unit(unit) => with_unit(n, performer, units, unit),
        _ => misplaced(n),
    }
}

/// After a unit of an observer, which is an edit.
fn with_edit(
    n: usize,
    observer: Observer,
    when: Option<Cond>,
    unit: Unit,
) -> Result<Place, Failure<ScriptRefusal>>
    ensures { Gives (λ place. place) result (with_edit n observer when unit) }
{
    match unit {
        Unit::Edit(edit) => with_item(n, observer, when, edit),
        _ => misplaced(n),
    }
}

fn from_observing(n: usize, observer: Observer, said: Said) -> Result<Place, Failure<ScriptRefusal>>
    ensures { Gives (λ place. place) result (from_observing n observer said) }
{
    match said {
        Said::When(when) => Ok(Place::Waiting(observer, when)),
        Said::Unit(unit) => with_edit(n, observer, None, unit),
        Said::End => Ok(Place::Ended(Member::Observer(observer))),
        _ => misplaced(n),
    }
}

fn from_waiting(
    n: usize,
    observer: Observer,
    when: Cond,
    said: Said,
) -> Result<Place, Failure<ScriptRefusal>>
    ensures { Gives (λ place. place) result (from_waiting n observer when said) }
{
    match said {
        Said::Unit(unit) => with_edit(n, observer, Some(when), unit),
        _ => misplaced(n),
    }
}

/// Where line `n` leads, or why it leads nowhere.
pub fn moved(
    alloc: Global,
    expert: &Expert,
    n: usize,
    at: Place,
    said: Said,
) -> Result<Place, Failure<ScriptRefusal>>
    ensures { Gives (λ place. place) result (moved expert.now n at said) }
{
    match at {
        Place::Beginning => from_beginning(alloc, n, said),
        Place::Named(name) => from_named(expert, n, name, said),
        Place::Acting(name, action, arity) => from_acting(alloc, n, name, action, arity, said),
        Place::Ready(performer) => from_ready(alloc, n, performer, said),
        Place::Working(performer, units) => from_working(alloc, n, performer, units, said),
        Place::Observing(observer) => from_observing(n, observer, said),
        Place::Waiting(observer, when) => from_waiting(n, observer, when, said),
        Place::Ended(_) => misplaced(n),
    }
}
