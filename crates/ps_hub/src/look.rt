//! What a call may learn of the reports on the belt at one of its steps.
ghost use Rattle.std.specs.Prelude.{List};

/// A fact of lists of reports. A call that is generic in it can't make it up: where it holds of whatever a belt may hold, the call has it
/// of reports that the belt held.
pub trait Look {
    ghost use Rattle.ps_hub.specs.declared.report.Report.{Report as ReportView};

    ghost fact: { List ReportView → Type 0 };
}

/// Learns nothing.
pub struct NoLook;

impl Look for NoLook {
    ghost fact = { λ items. Unit {0} };
}
