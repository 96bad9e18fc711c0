//! The row of an act or a member: its bars and its marks.
ghost use Rattle.std.specs.Prelude.{◌≡◌, ◌++◌, IfOk, OnOk};
ghost use Rattle.ps_picture.specs.Touches.{touch_on};
ghost use Rattle.ps_picture.specs.Rows.{bars_by, bars_of, ended_by, ending_in, marks_by, marks_of, row_of};

use super::touches::{Ending, Sign, Subject, Touch, touch_on};
use ps_action::Act;
use ps_machine::Entry;
use ps_world::{Name, Seq};
use std::alloc::{AllocError, Global};

/// From the line of an entry to that of another, which may be the same. Lines are counted from 1.
#[derive(Clone, Copy)]
pub struct Bar {
    pub from: u32,
    pub to: u32,
    pub ending: Ending,
}

/// At the line of an entry.
#[derive(Clone, Copy)]
pub struct Mark {
    pub at: u32,
    pub sign: Sign,
}

/// Whose row it is.
#[derive(Clone, Copy)]
pub enum Label {
    Act(Act),
    /// A performer or an observer.
    Member(Name),
}

/// The bars and the marks of an act or a member, in order.
#[derive(Drop)]
pub struct Row {
    pub label: Label,
    pub bars: Seq<Bar>,
    pub marks: Seq<Mark>,
}

/// Adds the mark that a line is, if it is one.
fn push_mark(line: u32, touch: Option<Touch>, marks: &mut Vec<Mark>) -> Result<(), AllocError>
    ensures { OnOk result (marks.new.items ≡ marks.old.items ++ marks_by line touch) }
{
    match touch {
        Some(Touch::Marks(sign)) => {
            marks.push(Mark { at: line, sign })?;
            Ok(())
        }
        _ => Ok(()),
    }
}

/// The marks in a row.
fn marks_of(
    alloc: Global,
    subject: Subject,
    entries: &[(u32, Entry)],
) -> Result<Vec<Mark>, AllocError>
    ensures { IfOk result (λ marks. marks.items ≡ marks_of subject entries.now) }
{
    let mut marks = Vec::new(alloc);
    for (line, entry) in entries {
        push_mark(*line, touch_on(subject, &entry.what), &mut marks)?;
    }
    Ok(marks)
}

/// Where and how a bar ends by what is done to its row at a line, if it does.
fn ended_by(line: u32, touch: Option<Touch>) -> Option<(u32, Ending)>
    ensures { result ≡ ended_by line touch }
{
    match touch {
        Some(Touch::Ends(how)) => Some((line, how)),
        Some(Touch::Begins) => Some((line, Ending::Open)),
        _ => None,
    }
}

/// Where and how a bar of a row ends that is open before these entries.
fn ending_in(subject: Subject, last: u32, entries: &[(u32, Entry)]) -> (u32, Ending)
    ensures { result ≡ ending_in subject last entries.now }
{
    for (line, entry) in entries {
        let touch = touch_on(subject, &entry.what);
        if let Some(end) = ended_by(*line, touch) {
            return end;
        }
    }
    (last, Ending::Open)
}

/// Adds the bar that begins at the first of these entries, if one does.
fn push_bar(
    subject: Subject,
    last: u32,
    first: &(u32, Entry),
    rest: &[(u32, Entry)],
    bars: &mut Vec<Bar>,
) -> Result<(), AllocError>
    ensures { OnOk result (bars.new.items ≡ bars.old.items
        ++ bars_by first.now.0 (touch_on subject first.now.1.what) (ending_in subject last rest.now)) }
{
    match touch_on(subject, &first.1.what) {
        Some(Touch::Begins) => {
            let (to, ending) = ending_in(subject, last, rest);
            bars.push(Bar {
                from: first.0,
                to,
                ending,
            })?;
            Ok(())
        }
        _ => Ok(()),
    }
}

/// The bars in a row, where the entries end with this line.
fn bars_of(
    alloc: Global,
    subject: Subject,
    last: u32,
    entries: &[(u32, Entry)],
) -> Result<Vec<Bar>, AllocError>
    ensures { IfOk result (λ bars. bars.items ≡ bars_of subject last entries.now) }
{
    let mut bars = Vec::new(alloc);
    for (i, first) in entries.iter().enumerate() {
        push_bar(subject, last, first, &entries[i + 1..], &mut bars)?;
    }
    Ok(bars)
}

/// The row of an act or a member in entries that end with this line.
pub fn row_of(
    alloc: Global,
    label: Label,
    subject: Subject,
    last: u32,
    entries: &[(u32, Entry)],
) -> Result<Row, AllocError>
    ensures { IfOk result (λ row. row ≡ row_of label subject last entries.now) }
{
    let bars = bars_of(alloc, subject, last, entries)?;
    let marks = marks_of(alloc, subject, entries)?;
    Ok(Row {
        label,
        bars: Seq::of(bars),
        marks: Seq::of(marks),
    })
}
