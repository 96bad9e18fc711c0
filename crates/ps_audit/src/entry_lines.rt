//! The lines of a text that entries have.
ghost use Rattle.std.specs.Prelude.{◌≡◌, ◌<◌, Some, length, map, slice_get, IfOk};
ghost use Rattle.ps_audit.specs.EntryLines.{line_numbered, span_numbered};

use ps_text::{Span, lines};
use std::alloc::{AllocError, Global};
use std::marker::Model;

/// Lines of a text, which contracts see as their list.
#[derive(Drop)]
pub struct EntryLines<'a> {
    text: &'a [u8],
    spans: Vec<Span>,
}

impl<'a> Model for EntryLines<'a> {
    ghost use Rattle.std.specs.Prelude.{ℕ, List};
    ghost use Rattle.ps_text.specs.Words.{AreWithin, pieces};

    ghost Value = { List (List ℕ) };

    ghost view = { λ l. pieces l.text.now l.spans.items };

    ghost invariant = { λ l. AreWithin l.text.now l.spans.items };
}

/// The span of the line with this number, or an empty one where there is none.
fn span_of(lines: &[Span], n: u32) -> Span
    ensures { result ≡ span_numbered lines.now n }
{
    match lines.get((n as usize).saturating_sub(1)) {
        Some(span) => *span,
        None => Span { from: 0, to: 0 },
    }
}

impl<'a> EntryLines<'a> {
    /// The lines of a text that have these numbers, which are counted from 1.
    pub fn of(alloc: Global, text: &'a [u8], numbers: &[u32]) -> Result<EntryLines<'a>, AllocError>
        ensures { IfOk result (λ l. l ≡ map (line_numbered text.now) numbers.now) }
    {
        let all = lines(alloc, text)?;
        let mut spans = Vec::with_capacity(alloc, numbers.len())?;
        for n in numbers {
            spans.push_reserved(span_of(&all, *n));
        }
        Ok(EntryLines { text, spans })
    }

    /// The line at a place, counted from 0.
    pub fn line(&self, at: usize) -> &[u8]
        requires { at < length self.now }
        ensures { slice_get self.now at ≡ Some result.now }
    {
        let span = self.spans[at];
        &self.text[span.from..span.to]
    }
}
