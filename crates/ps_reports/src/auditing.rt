//! Lists of reports are audited.
ghost use Rattle.std.specs.Prelude.{◌≡◌, ◌+◌, ◌-◌, ◌^◌, ◌<◌, ◌≤◌, if◌then◌else◌, IfOk};
ghost use Rattle.ps_hub.specs.Reports.{IsNumbered};
ghost use Rattle.ps_reports.specs.Audit.{IsAudit, IsAuditOfFirsts, on_time};

use crate::audited::Audit;
use crate::counting::count_recorded;
use crate::firsts::firsts;
use crate::keeping::keep;
use ps_hub::Report;
use ps_machine::{Entry, Input};
use ps_world::Seq;
use std::alloc::{AllocError, Global};

/// What a journal of this input bears out of these reports. Of several reports with one performer, request and number the first one
/// counts. The only error is out of memory.
pub fn audit(alloc: Global, i: &Input, h: &[Entry], reports: &[Report]) -> Result<Audit, AllocError>
    ensures { IfOk result (λ audit. IsAudit i.now h.now reports.now audit) }
{
    let firsts = firsts(alloc, reports)?;
    audit_firsts(alloc, i, h, &firsts)
}

/// The same for reports that are numbered, as those of a tray and of a closed belt are: each is looked up once.
pub fn audit_numbered(
    alloc: Global,
    i: &Input,
    h: &[Entry],
    reports: &[Report],
) -> Result<Audit, AllocError>
    requires { IsNumbered reports.now }
    ensures { IfOk result (λ audit. IsAudit i.now h.now reports.now audit) }
{
    audit_firsts(alloc, i, h, reports)
}

// What a journal bears out of reports of which no two have one performer, request and number.
fn audit_firsts(
    alloc: Global,
    i: &Input,
    h: &[Entry],
    reports: &[Report],
) -> Result<Audit, AllocError>
    ensures { IfOk result (λ audit. IsAuditOfFirsts i.now h.now reports.now audit) }
{
    let kept = keep(alloc, i, h, reports)?;
    let missing = count_recorded(i, h).saturating_sub(count_on_time(&kept));
    Ok(Audit {
        kept: Seq::of(kept),
        missing,
    })
}

// How many reports are on time.
fn count_on_time(kept: &[(bool, Report)]) -> u64
    ensures { result ≡ on_time kept.now }
{
    let mut count = 0;
    for (late, _) in kept {
        count = count_unless(*late, count);
    }
    count
}

// One more, unless a report is late.
fn count_unless(late: bool, count: u64) -> u64
    requires { count < 2 ^ 64 - 1 }
    ensures counted { result ≡ (if late then count else count + 1) }
    ensures few { result ≤ count + 1 }
{
    if late { count } else { count + 1 }
}
