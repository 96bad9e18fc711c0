//! The elements of an SVG image, and places in it.
ghost use Rattle.std.specs.Prelude.{◌≡◌, ◌++◌, ◌^◌, ◌<◌, ◌≤◌, OnOk};
ghost use Rattle.ps_drawing.specs.Vectors.{below, escaped, escaped_byte, line_svg, lines_in, place_of, placed, rect_svg, text_svg, valued, width_of};

use super::columns::Span;
use ps_journal::push_number;
use std::alloc::AllocError;

/// So many rows of 20 pixels below a place.
#[tactic(auto, unfolding(crate::specs::Vectors::below))]
pub fn below(y: u64, rows: usize) -> u64
    ensures { result ≡ below y rows }
{
    y.saturating_add((rows as u64).saturating_mul(20))
}

/// How many lines a plan has.
pub fn lines_in(span: Span) -> u64
    ensures lines { result ≡ lines_in span }
    ensures few { result ≤ 2 ^ 32 }
{
    u64::from(span.to.saturating_sub(span.from)) + 1
}

/// How wide they are drawn.
#[tactic(auto, unfolding(crate::specs::Vectors::width_of))]
pub fn width_of(span: Span) -> u64
    ensures width { result ≡ width_of span }
    ensures few { result ≤ 700 }
{
    (lines_in(span) * 16).min(700)
}

/// Where a line begins.
#[tactic(auto, unfolding(crate::specs::Vectors::place_of))]
pub fn place_of(span: Span, line: u64) -> u64
    requires { line ≤ 2 ^ 32 }
    ensures place { result ≡ place_of span line }
    ensures few { result < 2 ^ 63 }
{
    230 + line.saturating_sub(u64::from(span.from)) * width_of(span) / lines_in(span)
}

/// Adds a byte as XML text.
#[tactic(auto, unfolding(crate::specs::Vectors::escaped_byte))]
fn push_escaped_byte(byte: u8, out: &mut Vec<u8>) -> Result<(), AllocError>
    ensures { OnOk result (out.new.items ≡ out.old.items ++ escaped_byte byte) }
{
    if byte == b'&' {
        out.extend_from_slice(b"&amp;")
    } else if byte == b'<' {
        out.extend_from_slice(b"&lt;")
    } else if byte == b'>' {
        out.extend_from_slice(b"&gt;")
    } else if b' ' <= byte && byte <= b'~' {
        out.extend_from_slice(&[byte])
    } else {
        out.extend_from_slice(b"?")
    }
}

/// Adds a text as XML text.
fn push_escaped(text: &[u8], out: &mut Vec<u8>) -> Result<(), AllocError>
    ensures { OnOk result (out.new.items ≡ out.old.items ++ escaped text.now) }
{
    for byte in text {
        push_escaped_byte(*byte, out)?;
    }
    Ok(())
}

/// Adds a number as the value of what a word names.
pub fn push_valued(word: &[u8], number: u64, out: &mut Vec<u8>) -> Result<(), AllocError>
    ensures { OnOk result (out.new.items ≡ out.old.items ++ valued word.now number) }
{
    out.extend_from_slice(word)?;
    push_number(number, out)?;
    out.push(b'\'')?;
    Ok(())
}

/// Adds the beginning of an element of a class at a place.
fn push_placed(
    tag: &[u8],
    class: &[u8],
    x: u64,
    y: u64,
    out: &mut Vec<u8>,
) -> Result<(), AllocError>
    ensures { OnOk result (out.new.items ≡ out.old.items ++ placed tag.now class.now x y) }
{
    out.extend_from_slice(tag)?;
    out.extend_from_slice(class)?;
    push_valued(b"' x='", x, out)?;
    push_valued(b" y='", y, out)
}

/// Adds a text of a class at a place.
#[tactic(auto, unfolding(crate::specs::Vectors::text_svg))]
pub fn push_text(
    class: &[u8],
    x: u64,
    y: u64,
    text: &[u8],
    out: &mut Vec<u8>,
) -> Result<(), AllocError>
    ensures { OnOk result (out.new.items ≡ out.old.items ++ text_svg class.now x y text.now) }
{
    push_placed(b"<text class='", class, x, y, out)?;
    out.push(b'>')?;
    push_escaped(text, out)?;
    out.extend_from_slice(b"</text>\n")
}

/// Adds a line from a place, to the right by `h` and down by `v`.
#[tactic(auto, unfolding(crate::specs::Vectors::line_svg))]
pub fn push_line(
    x: u64,
    y: u64,
    way: &[u8],
    reach: u64,
    out: &mut Vec<u8>,
) -> Result<(), AllocError>
    ensures { OnOk result (out.new.items ≡ out.old.items ++ line_svg x y way.now reach) }
{
    out.extend_from_slice(b"<path d='M")?;
    push_number(x, out)?;
    out.push(b' ')?;
    push_number(y, out)?;
    push_valued(way, reach, out)?;
    out.extend_from_slice(b"/>\n")
}

/// Adds a bar of a class.
#[tactic(auto, unfolding(crate::specs::Vectors::rect_svg))]
pub fn push_rect(
    class: &[u8],
    x: u64,
    y: u64,
    width: u64,
    out: &mut Vec<u8>,
) -> Result<(), AllocError>
    ensures { OnOk result (out.new.items ≡ out.old.items ++ rect_svg class.now x y width) }
{
    push_placed(b"<rect class='", class, x, y, out)?;
    push_valued(b" width='", width, out)?;
    out.extend_from_slice(b" height='16'/>\n")
}
