//! The reports that a journal bears out.
ghost use Rattle.std.specs.Prelude.{◌≡◌, ◌+◌, ◌^◌, ◌<◌, ◌≤◌, ◌++◌, IfOk, OnOk};
ghost use Rattle.std.specs.Option.{option_copied, option_to_list};
ghost use Rattle.ps_rules.specs.Members.{job};
ghost use Rattle.ps_reports.specs.Audit.{is_of_job, kept_of, kept_of_all, lateness, told, unit_in, verdict, with_member};
ghost use Rattle.ps_reports.specs.Stints.{stint_at};

use crate::firsts::copy_of;
use crate::stints::{Stint, Stints};
use ps_hub::Report;
use ps_legal::same_unit;
use ps_machine::{Entry, Input, Member, Performer, Unit};
use ps_world::Seq;
use std::alloc::{AllocError, Global};

/// The reports that are kept, by performers, where no two are of one performer and request and have one number.
pub fn keep(
    alloc: Global,
    i: &Input,
    h: &[Entry],
    reports: &[Report],
) -> Result<Vec<(bool, Report)>, AllocError>
    ensures { IfOk result (λ v. v.items ≡ kept_of_all i.now h.now reports.now) }
{
    let mut kept = Vec::new(alloc);
    let mut place: u64 = 0;
    for member in i.members.as_slice() {
        place = keep_member(alloc, member, place, h, reports, &mut kept)?;
    }
    Ok(kept)
}

// Adds those of one member, and gives the place of the next performer.
fn keep_member(
    alloc: Global,
    member: &Member,
    place: u64,
    h: &[Entry],
    reports: &[Report],
    kept: &mut Vec<(bool, Report)>,
) -> Result<u64, AllocError>
    requires { place < 2 ^ 63 }
    ensures kept { IfOk result (λ next. (next, kept.new.items)
        ≡ with_member h.now reports.now (place, kept.old.items) member.now) }
    ensures next { IfOk result (λ next. next ≤ place + 1) }
{
    match member {
        Member::Performer(performer) => {
            keep_of(alloc, performer, place, h, reports, kept)?;
            Ok(place + 1)
        }
        Member::Observer(_) => Ok(place),
    }
}

// Adds those of one performer.
fn keep_of(
    alloc: Global,
    performer: &Performer,
    place: u64,
    h: &[Entry],
    reports: &[Report],
    kept: &mut Vec<(bool, Report)>,
) -> Result<(), AllocError>
    ensures { OnOk result (kept.new.items
        ≡ kept.old.items ++ kept_of performer.now place h.now reports.now) }
{
    let stints = Stints::of(alloc, performer.name, h)?;
    for report in reports {
        keep_one(alloc, performer, place, &stints, report, kept)?;
    }
    Ok(())
}

// Adds one report, if it is kept.
fn keep_one(
    alloc: Global,
    performer: &Performer,
    place: u64,
    stints: &Stints,
    report: &Report,
    kept: &mut Vec<(bool, Report)>,
) -> Result<(), AllocError>
    ensures { let stint = stint_at stints.now report.now.r in
        OnOk result (kept.new.items
        ≡ kept.old.items ++ option_to_list (told performer.now place stint report.now)) }
{
    if u64::from(report.by) != place {
        return Ok(());
    }
    let Some(late) = verdict(performer, stints.on(report.r), report) else {
        return Ok(());
    };
    kept.push((late, copy_of(alloc, report)?))?;
    Ok(())
}

// Whether a report of this performer is late, where it is kept.
fn verdict(performer: &Performer, stint: Stint, report: &Report) -> Option<bool>
    ensures { result ≡ verdict performer.now stint report.now }
{
    if !is_of_job(performer, stint, report) {
        return None;
    }
    lateness(u64::from(report.n), stint)
}

fn lateness(n: u64, stint: Stint) -> Option<bool>
    ensures { result ≡ lateness n stint }
{
    if n < stint.units {
        Some(false)
    } else if n == stint.units && stint.stopped {
        Some(true)
    } else {
        None
    }
}

fn is_of_job(performer: &Performer, stint: Stint, report: &Report) -> bool
    ensures { result ≡ is_of_job performer.now stint report.now }
{
    match unit_in(performer, stint, report.n) {
        Some(unit) => same_unit(&report.unit, unit),
        None => false,
    }
}

// The unit of this number in the job that a performer has in a stint.
fn unit_in(performer: &Performer, stint: Stint, n: u32) -> Option<&Unit>
    ensures { option_copied result ≡ unit_in performer.now stint n }
{
    job(performer, stint.turn?)?.as_slice().get(n as usize)
}

// The units of a performer's job at its n-th beginning.
fn job(performer: &Performer, n: u64) -> Option<&Seq<Unit>>
    ensures { option_copied result ≡ job performer.now n }
{
    let jobs = performer.jobs.as_slice();
    let last = n.min(jobs.len() as u64);
    jobs.get(last.saturating_sub(1) as usize)
}
