//! The texts of units.
ghost use Rattle.std.specs.Prelude.{◌≡◌, ◌++◌, codes, OnOk};
ghost use Rattle.std.specs.Fmt.{decimal};
ghost use Rattle.ps_machine.specs.Texts.{finish_text};
ghost use Rattle.ps_report_lines.specs.Lines.{unit_text};

use ps_journal::{Printed, push_after};
use ps_machine::Unit;
use ps_text::Names;
use std::alloc::AllocError;

/// Adds how far a performer is, and a note.
fn push_feedback(
    names: &Names,
    percent: u8,
    note: &[u8],
    out: &mut Vec<u8>,
) -> Result<(), AllocError>
    ensures { OnOk result (out.new.items ≡ out.old.items
        ++ (codes "feedback " ++ (decimal percent ++ (codes " " ++ note.now)))) }
{
    push_after(b"feedback ", &percent, names, out)?;
    out.push(b' ')?;
    out.extend_from_slice(note)
}

/// What ends a job.
fn finish_text(ok: bool) -> &'static [u8]
    ensures { result.now ≡ codes "finish" ++ finish_text ok }
{
    if ok { b"finish ok" } else { b"finish fail" }
}

/// Adds a unit, as the file of a performer says it.
pub fn push_unit(names: &Names, unit: &Unit, out: &mut Vec<u8>) -> Result<(), AllocError>
    ensures { OnOk result (out.new.items ≡ out.old.items ++ unit_text names.now unit.now) }
{
    match unit {
        Unit::Work => out.extend_from_slice(b"work"),
        Unit::Feedback(percent, note) => push_feedback(names, *percent, note.as_slice(), out),
        Unit::Edit(edit) => edit.print(names, out),
        Unit::Finish(ok) => out.extend_from_slice(finish_text(*ok)),
    }
}
