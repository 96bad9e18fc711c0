//! Recorded units are counted.
ghost use Rattle.std.specs.Prelude.{◌≡◌, ◌+◌, ◌-◌, ◌^◌, ◌<◌, ◌≤◌, if◌then◌else◌};
ghost use Rattle.std.specs.List.{list_any};
ghost use Rattle.ps_reports.specs.Audit.{all_recorded, is_performer, is_recorded};

use crate::stints::unit_by;
use ps_machine::{Entry, Event, Input, Member};
use ps_world::Name;

/// How many units of the input's performers are recorded.
pub fn count_recorded(i: &Input, h: &[Entry]) -> u64
    ensures { result ≡ all_recorded i.now h.now }
{
    let mut count = 0;
    for entry in h {
        count = count_one(i, &entry.what, count);
    }
    count
}

// One more, if an event is a unit of a performer.
fn count_one(i: &Input, event: &Event, count: u64) -> u64
    requires { count < 2 ^ 64 - 1 }
    ensures counted { result ≡ (if is_recorded i.now event.now then count + 1 else count) }
    ensures few { result ≤ count + 1 }
{
    if is_recorded(i, event) {
        count + 1
    } else {
        count
    }
}

// Whether an event is a unit of a performer.
fn is_recorded(i: &Input, event: &Event) -> bool
    ensures { result ≡ is_recorded i.now event.now }
{
    match unit_by(event) {
        Some((_, by)) => has_performer(i, by),
        None => false,
    }
}

// Whether there is a performer of this name.
fn has_performer(i: &Input, by: Name) -> bool
    ensures { result ≡ list_any (is_performer by) i.now.members }
{
    i.members
        .as_slice()
        .iter()
        .any(|member| is_performer(by, member))
}

fn is_performer(by: Name, member: &Member) -> bool
    ensures { result ≡ is_performer by member.now }
{
    match member {
        Member::Performer(performer) => performer.name == by,
        Member::Observer(_) => false,
    }
}
