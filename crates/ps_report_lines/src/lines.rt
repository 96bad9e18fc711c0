//! The lines of an audit.
ghost use Rattle.std.specs.Prelude.{◌≡◌, ◌++◌, count_by, IfOk, OnOk};
ghost use Rattle.std.specs.List.{flat_map};
ghost use Rattle.ps_report_lines.specs.Lines.{count_line, kept_line, kept_lines, kept_word, report_text, reporter_text};

use super::units::push_unit;
use ps_hub::Report;
use ps_journal::{Printed, push_after};
use ps_reports::Audit;
use ps_text::Names;
use ps_world::Name;
use std::alloc::{AllocError, Global};

/// The word for a report that is late, or isn't.
fn kept_word(late: bool) -> &'static [u8]
    ensures { result.now ≡ kept_word late }
{
    if late { b"late " } else { b"report " }
}

/// Adds the name of the performer with this place.
fn push_reporter(names: &Names, who: &[Name], by: u32, out: &mut Vec<u8>) -> Result<(), AllocError>
    ensures { OnOk result (out.new.items
        ≡ out.old.items ++ reporter_text names.now who.now by) }
{
    match who.get(by as usize) {
        Some(name) => name.print(names, out),
        None => Ok(()),
    }
}

/// Adds a report.
fn push_report(
    names: &Names,
    who: &[Name],
    report: &Report,
    out: &mut Vec<u8>,
) -> Result<(), AllocError>
    ensures { OnOk result (out.new.items
        ≡ out.old.items ++ report_text names.now who.now report.now) }
{
    push_reporter(names, who, report.by, out)?;
    push_after(b" ", &report.r, names, out)?;
    push_after(b" ", &report.n, names, out)?;
    out.push(b' ')?;
    push_unit(names, &report.unit, out)
}

/// Adds the line of a report that is kept.
fn push_kept(
    names: &Names,
    who: &[Name],
    kept: &(bool, Report),
    out: &mut Vec<u8>,
) -> Result<(), AllocError>
    ensures { OnOk result (out.new.items ≡ out.old.items ++ kept_line names.now who.now kept.now) }
{
    out.extend_from_slice(kept_word(kept.0))?;
    push_report(names, who, &kept.1, out)?;
    out.push(b'\n')?;
    Ok(())
}

/// Adds the lines of reports that are kept.
fn push_all_kept(
    names: &Names,
    who: &[Name],
    all: &[(bool, Report)],
    out: &mut Vec<u8>,
) -> Result<(), AllocError>
    ensures { OnOk result (out.new.items
        ≡ out.old.items ++ flat_map (kept_line names.now who.now) all.now) }
{
    for kept in all {
        push_kept(names, who, kept, out)?;
    }
    Ok(())
}

/// How many reports are late.
fn count_late(all: &[(bool, Report)]) -> usize
    ensures { result ≡ count_by (λ k. k.0) all.now }
{
    all.iter().filter(|kept| kept.0).count()
}

/// Adds the last line.
fn push_counts(
    names: &Names,
    all: &[(bool, Report)],
    missing: u64,
    out: &mut Vec<u8>,
) -> Result<(), AllocError>
    ensures { OnOk result (out.new.items ≡ out.old.items ++ count_line all.now missing) }
{
    push_after(b"reports ", &all.len(), names, out)?;
    push_after(b" late ", &count_late(all), names, out)?;
    push_after(b" missing ", &missing, names, out)?;
    out.push(b'\n')?;
    Ok(())
}

/// The lines of an audit, where these are the performers: one for each report that is kept, and a last one with the
/// counts. The only error is out of memory.
pub fn report_lines(
    alloc: Global,
    names: &Names,
    who: &[Name],
    audit: &Audit,
) -> Result<Vec<u8>, AllocError>
    ensures { IfOk result (λ text. text.items
        ≡ kept_lines names.now who.now audit.now.kept audit.now.missing) }
{
    let mut text = Vec::new(alloc);
    push_all_kept(names, who, audit.kept.as_slice(), &mut text)?;
    push_counts(names, audit.kept.as_slice(), audit.missing, &mut text)?;
    Ok(text)
}
