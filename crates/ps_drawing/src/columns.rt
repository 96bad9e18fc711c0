//! The columns of the text form.
ghost use Rattle.std.specs.Prelude.{◌≡◌, ◌++◌, ◌<◌, OnOk};
ghost use Rattle.ps_drawing.specs.Columns.{bar_at, cell_of, cells_from, column_of, columns, covers, end_at, mark_at, step_of};

use super::signs::{ending_byte, sign_byte};
use ps_picture::{Bar, Mark, Row};
use std::alloc::AllocError;

/// The lines of a plan.
#[derive(Clone, Copy)]
pub struct Span {
    pub from: u32,
    pub to: u32,
}

/// How many columns the lines of a plan have.
#[tactic(auto, unfolding(crate::specs::Columns::columns))]
pub fn columns() -> u64
    ensures columns { result ≡ columns }
    ensures some { 0 < result }
    ensures few { result < 100 }
{
    70
}

/// How many lines stand in one column.
pub fn step_of(span: Span) -> u64
    ensures { result ≡ step_of span }
{
    u64::from(span.to.saturating_sub(span.from)) / columns() + 1
}

/// The column of a line.
fn column_of(span: Span, line: u32) -> u64
    ensures { result ≡ column_of span line }
{
    let column = u64::from(line.saturating_sub(span.from)) / step_of(span);
    column.min(columns() - 1)
}

/// The byte of the first bar that ends in a column, else this.
fn end_at(span: Span, column: u64, bars: &[Bar], other: u8) -> u8
    ensures { result ≡ end_at span column bars.now other }
{
    for bar in bars {
        if column_of(span, bar.to) == column {
            return ending_byte(bar.ending);
        }
    }
    other
}

/// The byte of the first mark in a column, else this.
fn mark_at(span: Span, column: u64, marks: &[Mark], other: u8) -> u8
    ensures { result ≡ mark_at span column marks.now other }
{
    for mark in marks {
        if column_of(span, mark.at) == column {
            return sign_byte(mark.sign);
        }
    }
    other
}

/// Whether a bar goes over a column.
fn covers(span: Span, column: u64, bar: &Bar) -> bool
    ensures { result ≡ covers span column bar.now }
{
    column_of(span, bar.from) <= column && column <= column_of(span, bar.to)
}

/// The byte of the first bar that goes over a column, else this.
fn bar_at(span: Span, column: u64, bars: &[Bar], other: u8) -> u8
    ensures { result ≡ bar_at span column bars.now other }
{
    for bar in bars {
        if covers(span, column, bar) {
            return ending_byte(bar.ending);
        }
    }
    other
}

/// The byte in a column of a row.
fn cell_of(span: Span, row: &Row, column: u64) -> u8
    ensures { result ≡ cell_of span row.now column }
{
    let bars = row.bars.as_slice();
    let bar = bar_at(span, column, bars, b' ');
    let mark = mark_at(span, column, row.marks.as_slice(), bar);
    end_at(span, column, bars, mark)
}

/// Adds the first so many columns of a row.
pub fn push_cells(span: Span, row: &Row, count: u64, out: &mut Vec<u8>) -> Result<(), AllocError>
    ensures { OnOk result (out.new.items ≡ out.old.items ++ cells_from span row.now 0 count) }
{
    for column in 0..count {
        out.push(cell_of(span, row, column))?;
    }
    Ok(())
}
