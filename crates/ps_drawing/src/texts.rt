//! The text form of a picture.
ghost use Rattle.std.specs.Prelude.{◌≡◌, ◌++◌, ◌≤◌, replicate, IfOk, OnOk};
ghost use Rattle.std.specs.Fmt.{decimal};
ghost use Rattle.std.specs.List.{flat_map};
ghost use Rattle.ps_drawing.specs.Texts.{axis_text, course_text, cut, fitted, legend_text, line_within, margin_text, picture_text, row_text, step_text, ticks, ticks_from, title_text};

use super::columns::{Span, columns, push_cells, step_of};
use super::signs::{label_text, push_heading};
use ps_journal::push_number;
use ps_picture::{Course, Row};
use ps_text::Names;
use std::alloc::{AllocError, Global};

/// Adds a text cut to so many bytes, with two points at its end where something is missing.
#[tactic(auto, unfolding(crate::specs::Texts::cut))]
pub fn push_cut(count: usize, text: &[u8], out: &mut Vec<u8>) -> Result<(), AllocError>
    ensures { OnOk result (out.new.items ≡ out.old.items ++ cut count text.now) }
{
    if text.len() <= count {
        return out.extend_from_slice(text);
    }
    out.extend_from_slice(&text[..count.saturating_sub(2)])?;
    out.extend_from_slice(b"..")
}

/// Adds so many spaces.
fn push_spaces(count: usize, out: &mut Vec<u8>) -> Result<(), AllocError>
    ensures { OnOk result (out.new.items ≡ out.old.items ++ replicate count 32) }
{
    for at in 0..count {
        out.push(b' ')?;
    }
    Ok(())
}

/// Adds a text in just so many bytes.
#[tactic(auto, unfolding(crate::specs::Texts::fitted))]
fn push_fitted(count: usize, text: &[u8], out: &mut Vec<u8>) -> Result<(), AllocError>
    ensures { OnOk result (out.new.items ≡ out.old.items ++ fitted count text.now) }
{
    push_cut(count, text, out)?;
    push_spaces(count.saturating_sub(text.len()), out)
}

/// Adds what stands before the columns of a row.
fn push_margin(text: &[u8], out: &mut Vec<u8>) -> Result<(), AllocError>
    ensures { OnOk result (out.new.items ≡ out.old.items ++ margin_text text.now) }
{
    push_fitted(28, text, out)?;
    out.push(b'|')?;
    Ok(())
}

/// Adds the line of a row.
#[tactic(auto, unfolding(crate::specs::Texts::row_text))]
fn push_row(
    alloc: Global,
    names: &Names,
    span: Span,
    row: &Row,
    out: &mut Vec<u8>,
) -> Result<(), AllocError>
    ensures { OnOk result (out.new.items ≡ out.old.items ++ row_text names.now span row.now) }
{
    let label = label_text(alloc, names, row.label)?;
    push_margin(&label, out)?;
    push_cells(span, row, columns(), out)?;
    out.extend_from_slice(b"|\n")
}

/// Adds the lines of rows.
fn push_rows(
    alloc: Global,
    names: &Names,
    span: Span,
    rows: &[Row],
    out: &mut Vec<u8>,
) -> Result<(), AllocError>
    ensures { OnOk result (out.new.items ≡ out.old.items
        ++ flat_map (row_text names.now span) rows.now) }
{
    for row in rows {
        push_row(alloc, names, span, row, out)?;
    }
    Ok(())
}

/// The number of a line, if it is of this plan.
fn line_within(alloc: Global, span: Span, line: u64) -> Result<Vec<u8>, AllocError>
    ensures { IfOk result (λ text. text.items ≡ line_within span line) }
{
    let mut text = Vec::new(alloc);
    if line <= u64::from(span.to) {
        push_number(line, &mut text)?;
    }
    Ok(text)
}

/// Adds the number of the line at each of the first ticks.
fn push_ticks(alloc: Global, span: Span, count: u64, out: &mut Vec<u8>) -> Result<(), AllocError>
    requires { count ≤ 16 }
    ensures { OnOk result (out.new.items ≡ out.old.items ++ ticks_from span 0 count) }
{
    let step = step_of(span);
    for k in 0..count {
        let number = line_within(alloc, span, u64::from(span.from) + 10 * k * step)?;
        push_fitted(10, &number, out)?;
    }
    Ok(())
}

/// How many ticks there are.
#[tactic(auto, unfolding(crate::specs::Texts::ticks))]
pub fn ticks() -> u64
    ensures ticks { result ≡ ticks }
    ensures few { result ≤ 7 }
{
    7
}

/// Adds the line that numbers the columns.
#[tactic(auto, unfolding(crate::specs::Texts::axis_text))]
fn push_axis(alloc: Global, span: Span, out: &mut Vec<u8>) -> Result<(), AllocError>
    ensures { OnOk result (out.new.items ≡ out.old.items ++ axis_text span) }
{
    push_margin(b"", out)?;
    push_ticks(alloc, span, ticks(), out)?;
    out.extend_from_slice(b"|\n")
}

/// Adds a number between two texts.
fn push_between(
    before: &[u8],
    number: u64,
    after: &[u8],
    out: &mut Vec<u8>,
) -> Result<(), AllocError>
    ensures { OnOk result (out.new.items ≡ out.old.items
        ++ (before.now ++ (decimal number ++ after.now))) }
{
    out.extend_from_slice(before)?;
    push_number(number, out)?;
    out.extend_from_slice(after)
}

/// Adds how many lines stand in a column.
#[tactic(auto, unfolding(crate::specs::Texts::step_text))]
fn push_step(step: u64, out: &mut Vec<u8>) -> Result<(), AllocError>
    ensures { OnOk result (out.new.items ≡ out.old.items ++ step_text step) }
{
    push_between(b"; lines a column: ", step, b"\n", out)
}

/// Adds the first line of a plan.
#[tactic(auto, unfolding(crate::specs::Texts::title_text))]
fn push_title(
    names: &Names,
    span: Span,
    course: &Course,
    out: &mut Vec<u8>,
) -> Result<(), AllocError>
    ensures { OnOk result (out.new.items ≡ out.old.items ++ title_text span course.now) }
{
    push_heading(names, course, out)?;
    push_step(step_of(span), out)
}

/// Adds the text of a plan.
#[tactic(auto, unfolding(crate::specs::Texts::course_text))]
fn push_course(
    alloc: Global,
    names: &Names,
    course: &Course,
    out: &mut Vec<u8>,
) -> Result<(), AllocError>
    ensures { OnOk result (out.new.items ≡ out.old.items ++ course_text names.now course.now) }
{
    let span = Span {
        from: course.from,
        to: course.to,
    };
    push_title(names, span, course, out)?;
    push_axis(alloc, span, out)?;
    push_rows(alloc, names, span, course.acts.as_slice(), out)?;
    push_rows(alloc, names, span, course.members.as_slice(), out)?;
    out.push(b'\n')?;
    Ok(())
}

/// Adds the texts of plans.
fn push_courses(
    alloc: Global,
    names: &Names,
    courses: &[Course],
    out: &mut Vec<u8>,
) -> Result<(), AllocError>
    ensures { OnOk result (out.new.items ≡ out.old.items
        ++ flat_map (course_text names.now) courses.now) }
{
    for course in courses {
        push_course(alloc, names, course, out)?;
    }
    Ok(())
}

/// Adds what the signs mean.
#[tactic(auto, unfolding(crate::specs::Texts::legend_text))]
fn push_legend(out: &mut Vec<u8>) -> Result<(), AllocError>
    ensures { OnOk result (out.new.items ≡ out.old.items ++ legend_text) }
{
    out.extend_from_slice(
        b"bars: = done, x failed, / cancelled, ~ open\nmarks: ? request, o offer, . pass, + confirm, - reject, f feedback, e edit, ! refused edit\n",
    )
}

/// The text of a picture, whose lines have 100 columns but for headings. A column is as few lines as let all of a plan
/// have one; a bar that ends in it is seen there. The only error is that memory ran out.
pub fn picture_text(alloc: Global, names: &Names, courses: &[Course]) -> Result<Vec<u8>, AllocError>
    ensures { IfOk result (λ text. text.items ≡ picture_text names.now courses.now) }
{
    let mut text = Vec::new(alloc);
    push_courses(alloc, names, courses, &mut text)?;
    push_legend(&mut text)?;
    Ok(text)
}
