//! Spans of a text, and its lines.
ghost use Rattle.std.specs.Prelude.{◌≡◌, ◌+◌, ◌-◌, ◌≤◌, ◌==◌, drop, length, position, IfOk, vec_len};
ghost use Rattle.std.specs.List.{position_or_len};
ghost use Rattle.ps_world.specs.Lines.{lines_of};
ghost use Rattle.ps_text.specs.ScriptLines.{HasReturn, begins_with_four, script_lines};
ghost use Rattle.ps_text.specs.Words.{AreWithin, pieces};

use std::alloc::{AllocError, Global};

/// The bytes of a text from one place up to another, which isn't in it. Places are counted from 0.
#[derive(Clone, Copy, PartialEq, Eq, Debug)]
pub struct Span {
    pub from: usize,
    pub to: usize,
}

fn first_line_feed(bytes: &[u8]) -> Option<usize>
    ensures { result ≡ position (λ b. b == 10) bytes.now }
{
    bytes.iter().position(|b| *b == b'\n')
}

/// Whether four bytes stand first of which none is an LF.
fn begins_with_four(bytes: &[u8]) -> bool
    ensures { result ≡ begins_with_four bytes.now }
{
    match bytes {
        [a, b, c, d, ..] => (*a != b'\n' && *b != b'\n') && (*c != b'\n' && *d != b'\n'),
        _ => false,
    }
}

/// A place from another on, where no LF stands between them.
// Four bytes are looked at for each step, since most lines are longer.
fn near_line_end(bytes: &[u8], from: usize) -> usize
    requires { from ≤ length bytes.now }
    ensures within { result ≤ length bytes.now }
    ensures same { result + position_or_len (λ b. b == 10) (drop result bytes.now)
        ≡ from + position_or_len (λ b. b == 10) (drop from bytes.now) }
{
    let mut at = from;
    while begins_with_four(&bytes[at..]) {
        at += 4;
    }
    at
}

/// The place of the first LF from a place on, or the text's length.
pub(crate) fn line_end(bytes: &[u8], from: usize) -> usize
    requires { from ≤ length bytes.now }
    ensures end { result ≡ from + position_or_len (λ b. b == 10) (drop from bytes.now) }
    ensures within { result ≤ length bytes.now }
{
    let near = near_line_end(bytes, from);
    let rest = &bytes[near..];
    near + first_line_feed(rest).unwrap_or(rest.len())
}

/// The lines of a text, in order, each without the LF that ends it. A last line needs none.
pub fn lines(alloc: Global, bytes: &[u8]) -> Result<Vec<Span>, AllocError>
    ensures lines { IfOk result (λ v. pieces bytes.now v.items ≡ lines_of bytes.now) }
    ensures within { IfOk result (λ v. AreWithin bytes.now v.items) }
    ensures few { IfOk result (λ v. vec_len v ≤ length bytes.now) }
{
    let mut spans = Vec::new(alloc);
    let mut from = 0;
    while from < bytes.len() {
        let to = line_end(bytes, from);
        spans.push(Span { from, to })?;
        from = if to < bytes.len() { to + 1 } else { to };
    }
    Ok(spans)
}

/// Where a line ends that begins at one place and has its LF at another: one CR before the LF isn't of the line. The last line of a
/// text may have no LF, and then ends with the text.
fn without_return(bytes: &[u8], from: usize, to: usize) -> usize
    requires { from ≤ to }
    ensures within { (from ≤ result) × (result ≤ to) }
    ensures line { HasReturn bytes.now from to → result ≡ to - 1 }
    ensures kept { (¬ (HasReturn bytes.now from to)) → result ≡ to }
{
    if to < bytes.len() && from < to && bytes[to - 1] == b'\r' {
        return to - 1;
    }
    to
}

/// The lines of a script, in order: each ends at an LF, and one CR before that LF is dropped. The last line needs no LF, and a CR at
/// its end stays.
pub fn script_lines(alloc: Global, bytes: &[u8]) -> Result<Vec<Span>, AllocError>
    ensures lines { IfOk result (λ v. pieces bytes.now v.items ≡ script_lines bytes.now) }
    ensures within { IfOk result (λ v. AreWithin bytes.now v.items) }
    ensures few { IfOk result (λ v. vec_len v ≤ length bytes.now) }
{
    let mut spans = Vec::new(alloc);
    let mut from = 0;
    while from < bytes.len() {
        let lf = line_end(bytes, from);
        let to = without_return(bytes, from, lf);
        spans.push(Span { from, to })?;
        from = if lf < bytes.len() { lf + 1 } else { lf };
    }
    Ok(spans)
}
