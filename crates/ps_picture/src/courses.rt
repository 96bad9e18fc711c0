//! The parts of a picture: one for each plan of a run.
ghost use Rattle.std.specs.Prelude.{◌≡◌, ◌++◌, IfOk, OnOk};
ghost use Rattle.ps_picture.specs.Courses.{body_of, close_of, closed_by, course_of, courses_by, last_line, opening_of, picture_of, plan_of};

use super::members::{act_rows, member_rows};
use super::rows::Row;
use ps_action::Act;
use ps_machine::{Entry, Event, Outcome, RunKind};
use ps_world::Seq;
use std::alloc::{AllocError, Global};

/// What made a plan.
#[derive(Clone, Copy)]
pub enum Opening {
    /// A run was opened with it.
    Run(RunKind),
    /// A run was planned anew.
    Replan,
}

/// How a plan ends.
#[derive(Clone, Copy)]
pub enum Close {
    /// With the end of its run.
    Over(Outcome),
    /// The run is planned anew.
    NewPlan,
    /// Its run has no end among the entries.
    Cut,
}

/// A plan of a run: its rows from the line that made it to the last of its lines. Lines are counted from 1.
#[derive(Drop)]
pub struct Course {
    pub from: u32,
    pub to: u32,
    pub opening: Opening,
    pub close: Close,
    /// A row an act, in the order of the plan.
    pub acts: Seq<Row>,
    /// A row a performer or an observer, in the order in which they come.
    pub members: Seq<Row>,
}

/// What makes a plan, if an event does.
fn opening_of(event: &Event) -> Option<Opening>
    ensures { result ≡ opening_of event.now }
{
    match event {
        Event::Run { kind, acts: _ } => Some(Opening::Run(*kind)),
        Event::Replan(_) => Some(Opening::Replan),
        _ => None,
    }
}

/// The plan that an event makes.
fn plan_of(event: &Event) -> &[Act]
    ensures { result.now ≡ plan_of event.now }
{
    match event {
        Event::Run { kind: _, acts } => acts.as_slice(),
        Event::Replan(acts) => acts.as_slice(),
        _ => &[],
    }
}

/// How a plan ends by an event, if it does.
fn closed_by(event: &Event) -> Option<Close>
    ensures { result ≡ closed_by event.now }
{
    match event {
        Event::Over(how) => Some(Close::Over(*how)),
        Event::Replan(_) => Some(Close::NewPlan),
        Event::Run { kind: _, acts: _ } => Some(Close::Cut),
        _ => None,
    }
}

/// How a plan ends before these entries.
fn close_of(entries: &[(u32, Entry)]) -> Close
    ensures { result ≡ close_of entries.now }
{
    for (_, entry) in entries {
        if let Some(close) = closed_by(&entry.what) {
            return close;
        }
    }
    Close::Cut
}

/// The entries of a plan, of those after the one that makes it.
fn body_of(entries: &[(u32, Entry)]) -> &[(u32, Entry)]
    ensures { result.now ≡ body_of entries.now }
{
    for (i, (_, entry)) in entries.iter().enumerate() {
        match closed_by(&entry.what) {
            None => {}
            Some(Close::Over(_)) => return &entries[..i + 1],
            Some(_) => return &entries[..i],
        }
    }
    entries
}

/// The line of the last of some entries, or this.
fn last_line(line: u32, entries: &[(u32, Entry)]) -> u32
    ensures { result ≡ last_line line entries.now }
{
    let mut last = line;
    for (at, _) in entries {
        last = *at;
    }
    last
}

/// A plan made at a line, with the entries that are its own and how it ends.
fn course_of(
    alloc: Global,
    line: u32,
    opening: Opening,
    acts: &[Act],
    entries: &[(u32, Entry)],
    close: Close,
) -> Result<Course, AllocError>
    ensures { IfOk result (λ course. course ≡ course_of line opening acts.now entries.now close) }
{
    let last = last_line(line, entries);
    let acts = act_rows(alloc, last, entries, acts)?;
    let members = member_rows(alloc, last, entries)?;
    Ok(Course {
        from: line,
        to: last,
        opening,
        close,
        acts: Seq::of(acts),
        members: Seq::of(members),
    })
}

/// Adds the part of a picture that the first of these entries opens, if it opens one.
fn push_course(
    alloc: Global,
    first: &(u32, Entry),
    rest: &[(u32, Entry)],
    courses: &mut Vec<Course>,
) -> Result<(), AllocError>
    ensures { OnOk result (courses.new.items ≡ courses.old.items
        ++ courses_by first.now.0 (opening_of first.now.1.what) (plan_of first.now.1.what) rest.now) }
{
    let what = &first.1.what;
    match opening_of(what) {
        Some(opening) => {
            let body = body_of(rest);
            let close = close_of(rest);
            courses.push(course_of(alloc, first.0, opening, plan_of(what), body, close)?)?;
            Ok(())
        }
        None => Ok(()),
    }
}

/// The picture of a journal's entries, each with its line: a part for each plan of each run, in order. The only error is
/// that memory ran out. It goes over the entries of a plan twice for each of its rows.
pub fn picture(alloc: Global, entries: &[(u32, Entry)]) -> Result<Vec<Course>, AllocError>
    ensures { IfOk result (λ courses. courses.items ≡ picture_of entries.now) }
{
    let mut courses = Vec::new(alloc);
    for (i, first) in entries.iter().enumerate() {
        push_course(alloc, first, &entries[i + 1..], &mut courses)?;
    }
    Ok(courses)
}
