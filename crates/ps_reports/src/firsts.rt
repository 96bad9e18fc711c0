//! The first report of each performer, request and number.
ghost use Rattle.std.specs.Prelude.{◌≡◌, IfOk};
ghost use Rattle.std.specs.List.{list_any};
ghost use Rattle.ps_reports.specs.Audit.{firsts, same_place};

use ps_hub::Report;
use ps_world::Duplicate;
use std::alloc::{AllocError, Global};

/// The first report of each performer, request and number, in order.
pub fn firsts(alloc: Global, reports: &[Report]) -> Result<Vec<Report>, AllocError>
    ensures { IfOk result (λ v. v.items ≡ firsts reports.now) }
{
    let mut firsts: Vec<Report> = Vec::new(alloc);
    for report in reports {
        if !stands_in(&firsts, report) {
            firsts.push(copy_of(alloc, report)?)?;
        }
    }
    Ok(firsts)
}

// Whether one of these has the report's performer, request and number.
fn stands_in(reports: &[Report], report: &Report) -> bool
    ensures { result ≡ list_any (same_place report.now) reports.now }
{
    reports.iter().any(|other| report.by == other.by && report.r == other.r && report.n == other.n)
}

/// An equal report.
pub fn copy_of(alloc: Global, report: &Report) -> Result<Report, AllocError>
    ensures { IfOk result (λ copy. copy ≡ report.now) }
{
    Ok(Report {
        by: report.by,
        r: report.r,
        n: report.n,
        unit: report.unit.copy(alloc)?,
    })
}
