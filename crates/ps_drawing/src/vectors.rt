//! The picture as an SVG image.
ghost use Rattle.std.specs.Prelude.{◌≡◌, ◌++◌, ◌^◌, ◌≤◌, codes, IfOk, OnOk};
ghost use Rattle.std.specs.List.{flat_map};
ghost use Rattle.ps_drawing.specs.Signs.{heading_text, label_text};
ghost use Rattle.ps_drawing.specs.Texts.{cut};
ghost use Rattle.ps_drawing.specs.Vectors.{after_acts, after_all, after_course, bar_svg, course_svg, courses_svg, foot_svg, head_svg, legend_svg, mark_svg, picture_svg, row_svg, rows_svg, start_svg, style_svg, text_svg, tick_svg, ticks_svg};

use super::columns::Span;
use super::elements::{
    below, lines_in, place_of, push_line, push_rect, push_text, push_valued, width_of,
};
use super::signs::{ending_word, label_text, push_heading, sign_byte};
use super::texts::{push_cut, ticks};
use ps_journal::push_number;
use ps_picture::{Bar, Course, Mark, Row};
use ps_text::Names;
use std::alloc::{AllocError, Global};

/// Adds a bar, in a row at this height.
#[tactic(auto, unfolding(crate::specs::Vectors::bar_svg))]
fn push_bar(span: Span, y: u64, bar: &Bar, out: &mut Vec<u8>) -> Result<(), AllocError>
    ensures { OnOk result (out.new.items ≡ out.old.items ++ bar_svg span y bar.now) }
{
    let from = place_of(span, u64::from(bar.from));
    let to = place_of(span, u64::from(bar.to) + 1);
    let width = to.saturating_sub(from).max(2);
    push_rect(
        ending_word(bar.ending),
        from,
        y.saturating_sub(13),
        width,
        out,
    )
}

/// Adds bars, in a row at this height.
fn push_bars(span: Span, y: u64, bars: &[Bar], out: &mut Vec<u8>) -> Result<(), AllocError>
    ensures { OnOk result (out.new.items ≡ out.old.items ++ flat_map (bar_svg span y) bars.now) }
{
    for bar in bars {
        push_bar(span, y, bar, out)?;
    }
    Ok(())
}

/// Adds a mark, in a row at this height.
#[tactic(auto, unfolding(crate::specs::Vectors::mark_svg))]
fn push_mark(span: Span, y: u64, mark: &Mark, out: &mut Vec<u8>) -> Result<(), AllocError>
    ensures { OnOk result (out.new.items ≡ out.old.items ++ mark_svg span y mark.now) }
{
    let from = place_of(span, u64::from(mark.at));
    let to = place_of(span, u64::from(mark.at) + 1);
    push_text(b"mark", (from + to) / 2, y, &[sign_byte(mark.sign)], out)
}

/// Adds marks, in a row at this height.
fn push_marks(span: Span, y: u64, marks: &[Mark], out: &mut Vec<u8>) -> Result<(), AllocError>
    ensures { OnOk result (out.new.items ≡ out.old.items ++ flat_map (mark_svg span y) marks.now) }
{
    for mark in marks {
        push_mark(span, y, mark, out)?;
    }
    Ok(())
}

/// The text of an act or of a member's name, cut to what fits beside a row.
fn short_label(alloc: Global, names: &Names, row: &Row) -> Result<Vec<u8>, AllocError>
    ensures { IfOk result (λ text. text.items ≡ cut 31 (label_text names.now row.now.label)) }
{
    let label = label_text(alloc, names, row.label)?;
    let mut text = Vec::new(alloc);
    push_cut(31, &label, &mut text)?;
    Ok(text)
}

/// Adds a row at this height.
#[tactic(auto, unfolding(crate::specs::Vectors::row_svg))]
fn push_row(
    alloc: Global,
    names: &Names,
    span: Span,
    y: u64,
    row: &Row,
    out: &mut Vec<u8>,
) -> Result<(), AllocError>
    ensures { OnOk result (out.new.items ≡ out.old.items ++ row_svg names.now span y row.now) }
{
    let label = short_label(alloc, names, row)?;
    push_text(b"label", 4, y, &label, out)?;
    push_line(230, y.saturating_sub(5), b"h", width_of(span), out)?;
    push_bars(span, y, row.bars.as_slice(), out)?;
    push_marks(span, y, row.marks.as_slice(), out)
}

/// Adds rows one below the other, from this height on.
fn push_rows(
    alloc: Global,
    names: &Names,
    span: Span,
    top: u64,
    rows: &[Row],
    out: &mut Vec<u8>,
) -> Result<(), AllocError>
    ensures { OnOk result (out.new.items ≡ out.old.items
        ++ rows_svg names.now span top rows.now) }
{
    let mut y = top;
    for row in rows {
        push_row(alloc, names, span, y, row, out)?;
        y = below(y, 1);
    }
    Ok(())
}

/// Adds a tick at a line, over rows that reach so far down.
#[tactic(auto, unfolding(crate::specs::Vectors::tick_svg))]
fn push_tick(
    alloc: Global,
    span: Span,
    y: u64,
    reach: u64,
    line: u64,
    out: &mut Vec<u8>,
) -> Result<(), AllocError>
    requires { line ≤ 2 ^ 32 }
    ensures { OnOk result (out.new.items ≡ out.old.items ++ tick_svg span y reach line) }
{
    let mut number = Vec::new(alloc);
    push_number(line, &mut number)?;
    let x = place_of(span, line);
    push_text(b"tick", x, y, &number, out)?;
    push_line(x, y, b"v", reach, out)
}

/// Adds the first of the ticks that part the lines of a plan into seven.
fn push_ticks(
    alloc: Global,
    span: Span,
    y: u64,
    reach: u64,
    count: u64,
    out: &mut Vec<u8>,
) -> Result<(), AllocError>
    requires { count ≤ 7 }
    ensures { OnOk result (out.new.items ≡ out.old.items ++ ticks_svg span y reach 0 count) }
{
    for k in 0..count {
        let line = u64::from(span.from) + k * lines_in(span) / 7;
        push_tick(alloc, span, y, reach, line, out)?;
    }
    Ok(())
}

/// Where the rows of a plan's members begin.
#[tactic(auto, unfolding(crate::specs::Vectors::after_acts))]
fn after_acts(y: u64, course: &Course) -> u64
    ensures { result ≡ after_acts y course.now }
{
    below(below(y, 3), course.acts.len())
}

/// What comes after a plan.
#[tactic(auto, unfolding(crate::specs::Vectors::after_course))]
fn after_course(y: u64, course: &Course) -> u64
    ensures { result ≡ after_course y course.now }
{
    below(after_acts(y, course), course.members.len())
}

/// Adds the heading of a plan at this height.
fn push_head(
    alloc: Global,
    names: &Names,
    y: u64,
    course: &Course,
    out: &mut Vec<u8>,
) -> Result<(), AllocError>
    ensures { OnOk result (out.new.items ≡ out.old.items
        ++ text_svg (codes "heading") 4 y (heading_text course.now)) }
{
    let mut heading = Vec::new(alloc);
    push_heading(names, course, &mut heading)?;
    push_text(b"heading", 4, y, &heading, out)
}

/// Adds a plan from this height on.
#[tactic(auto, unfolding(crate::specs::Vectors::course_svg))]
fn push_course(
    alloc: Global,
    names: &Names,
    y: u64,
    course: &Course,
    out: &mut Vec<u8>,
) -> Result<(), AllocError>
    ensures { OnOk result (out.new.items ≡ out.old.items ++ course_svg names.now y course.now) }
{
    let span = Span {
        from: course.from,
        to: course.to,
    };
    let reach = after_course(y, course).saturating_sub(below(y, 3));
    push_head(alloc, names, below(y, 1), course, out)?;
    push_ticks(alloc, span, below(y, 2), reach, ticks(), out)?;
    push_rows(alloc, names, span, below(y, 3), course.acts.as_slice(), out)?;
    push_rows(
        alloc,
        names,
        span,
        after_acts(y, course),
        course.members.as_slice(),
        out,
    )
}

/// Adds plans one below the other, from the top on.
fn push_courses(
    alloc: Global,
    names: &Names,
    courses: &[Course],
    out: &mut Vec<u8>,
) -> Result<(), AllocError>
    ensures { OnOk result (out.new.items ≡ out.old.items
        ++ courses_svg names.now 0 courses.now) }
{
    let mut y = 0;
    for course in courses {
        push_course(alloc, names, y, course, out)?;
        y = after_course(y, course);
    }
    Ok(())
}

/// Where the last plan ends.
fn after_all(courses: &[Course]) -> u64
    ensures { result ≡ after_all 0 courses.now }
{
    let mut y = 0;
    for course in courses {
        y = after_course(y, course);
    }
    y
}

/// Adds how the classes look.
#[tactic(auto, unfolding(crate::specs::Vectors::style_svg))]
fn push_style(out: &mut Vec<u8>) -> Result<(), AllocError>
    ensures { OnOk result (out.new.items ≡ out.old.items ++ style_svg) }
{
    out.extend_from_slice(
        b"<style>text{font:12px monospace}.heading{font-weight:bold}.tick{font-size:10px;text-anchor:middle;fill:#666}",
    )?;
    out.extend_from_slice(b".mark{font-weight:bold;text-anchor:middle}path{stroke:#ddd}")?;
    out.extend_from_slice(
        b".done{fill:#9d9}.failed{fill:#f88}.cancelled{fill:#fb5}.open{fill:#9cf}</style>\n",
    )
}

/// Adds what the colours and the signs mean.
#[tactic(auto, unfolding(crate::specs::Vectors::legend_svg))]
fn push_legend(out: &mut Vec<u8>) -> Result<(), AllocError>
    ensures { OnOk result (out.new.items ≡ out.old.items ++ legend_svg) }
{
    out.extend_from_slice(
        b"<rect class='done' x='4' y='7' width='16' height='16'/><text x='24' y='20'>done</text>",
    )?;
    out.extend_from_slice(
        b"<rect class='failed' x='84' y='7' width='16' height='16'/><text x='104' y='20'>failed</text>",
    )?;
    out.extend_from_slice(
        b"<rect class='cancelled' x='174' y='7' width='16' height='16'/><text x='194' y='20'>cancelled</text>",
    )?;
    out.extend_from_slice(
        b"<rect class='open' x='284' y='7' width='16' height='16'/><text x='304' y='20'>open</text>\n",
    )?;
    out.extend_from_slice(
        b"<text x='4' y='40'>? request, o offer, . pass, + confirm, - reject, f feedback, e edit, ! refused edit</text>\n",
    )
}

/// Adds the beginning of an image, up to its height.
#[tactic(auto, unfolding(crate::specs::Vectors::start_svg))]
fn push_start(out: &mut Vec<u8>) -> Result<(), AllocError>
    ensures { OnOk result (out.new.items ≡ out.old.items ++ start_svg) }
{
    out.extend_from_slice(
        b"<svg xmlns='http://www.w3.org/2000/svg' width='940' style='background:#fff' height='",
    )
}

/// Adds the beginning of an image of this height.
#[tactic(auto, unfolding(crate::specs::Vectors::head_svg))]
fn push_begin(height: u64, out: &mut Vec<u8>) -> Result<(), AllocError>
    ensures { OnOk result (out.new.items ≡ out.old.items ++ head_svg height) }
{
    push_start(out)?;
    push_number(height, out)?;
    push_valued(b"' viewBox='0 0 940 ", height, out)?;
    out.extend_from_slice(b">\n")?;
    push_style(out)
}

/// Adds the end of an image, with the legend from this height on.
#[tactic(auto, unfolding(crate::specs::Vectors::foot_svg))]
fn push_end(y: u64, out: &mut Vec<u8>) -> Result<(), AllocError>
    ensures { OnOk result (out.new.items ≡ out.old.items ++ foot_svg y) }
{
    out.extend_from_slice(b"<g transform='translate(0 ")?;
    push_number(y, out)?;
    out.extend_from_slice(b")'>\n")?;
    push_legend(out)?;
    out.extend_from_slice(b"</g>\n</svg>\n")
}

/// The SVG image of a picture, 940 pixels wide, which shows what the text form shows. The only error is that memory
/// ran out.
pub fn picture_svg(alloc: Global, names: &Names, courses: &[Course]) -> Result<Vec<u8>, AllocError>
    ensures { IfOk result (λ svg. svg.items ≡ picture_svg names.now courses.now) }
{
    let bottom = after_all(courses);
    let mut out = Vec::new(alloc);
    push_begin(below(bottom, 3), &mut out)?;
    push_courses(alloc, names, courses, &mut out)?;
    push_end(bottom, &mut out)?;
    Ok(out)
}
