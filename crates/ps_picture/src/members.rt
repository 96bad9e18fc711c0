//! The rows of the acts of a plan, and of the members.
ghost use Rattle.std.specs.Prelude.{◌≡◌, IfOk, OnOk};
ghost use Rattle.std.specs.List.{list_any};
ghost use Rattle.ps_world.specs.Names.{same_name};
ghost use Rattle.ps_picture.specs.Rows.{act_rows, member_rows, members_of, with_name, with_touched};

use super::rows::{Label, Row, row_of};
use super::touches::{Subject, Touch, touch_of};
use ps_action::Act;
use ps_machine::Entry;
use ps_world::Name;
use std::alloc::{AllocError, Global};

/// The rows of a plan's acts, in order.
pub fn act_rows(
    alloc: Global,
    last: u32,
    entries: &[(u32, Entry)],
    acts: &[Act],
) -> Result<Vec<Row>, AllocError>
    ensures { IfOk result (λ rows. rows.items ≡ act_rows last entries.now 0 acts.now) }
{
    let mut rows = Vec::new(alloc);
    for (i, act) in acts.iter().enumerate() {
        let subject = Subject::Act(i as u64);
        rows.push(row_of(alloc, Label::Act(*act), subject, last, entries)?)?;
    }
    Ok(rows)
}

/// Whether a name is among these.
fn has_name(names: &[Name], name: Name) -> bool
    ensures { result ≡ list_any (λ m. same_name m name) names.now }
{
    names.contains(&name)
}

/// Adds a name, unless it is there.
fn push_name(name: Name, names: &mut Vec<Name>) -> Result<(), AllocError>
    ensures { OnOk result (names.new.items ≡ with_name names.old.items name) }
{
    if has_name(names, name) {
        return Ok(());
    }
    names.push(name)?;
    Ok(())
}

/// Adds the name of a member that is touched, unless it is there.
fn push_touched(touched: Option<(Subject, Touch)>, names: &mut Vec<Name>) -> Result<(), AllocError>
    ensures { OnOk result (names.new.items ≡ with_touched names.old.items touched) }
{
    match touched {
        Some((Subject::Member(name), _)) => push_name(name, names),
        _ => Ok(()),
    }
}

/// The names of the members with rows, in the order in which they come in the entries.
fn members_of(alloc: Global, entries: &[(u32, Entry)]) -> Result<Vec<Name>, AllocError>
    ensures { IfOk result (λ names. names.items ≡ members_of entries.now) }
{
    let mut names = Vec::new(alloc);
    for (_, entry) in entries {
        push_touched(touch_of(&entry.what), &mut names)?;
    }
    Ok(names)
}

/// The rows of members of these names, in order.
fn rows_of(
    alloc: Global,
    last: u32,
    entries: &[(u32, Entry)],
    names: &[Name],
) -> Result<Vec<Row>, AllocError>
    ensures { IfOk result (λ rows. rows.items ≡ member_rows last entries.now names.now) }
{
    let mut rows = Vec::new(alloc);
    for name in names {
        let subject = Subject::Member(*name);
        rows.push(row_of(alloc, Label::Member(*name), subject, last, entries)?)?;
    }
    Ok(rows)
}

/// The rows of the members of entries.
pub fn member_rows(
    alloc: Global,
    last: u32,
    entries: &[(u32, Entry)],
) -> Result<Vec<Row>, AllocError>
    ensures { IfOk result (λ rows. rows.items
        ≡ member_rows last entries.now (members_of entries.now)) }
{
    let names = members_of(alloc, entries)?;
    rows_of(alloc, last, entries, &names)
}
