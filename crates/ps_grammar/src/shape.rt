//! Judging the shape of a domain's text, and of marks from any part of the grammar on.
ghost use Rattle.std.specs.Prelude.{◌≡◌, ◌≤◌, length, Ok, None, OnOk, IfOk, IfSome, slice_get};
ghost use Rattle.ps_world.specs.Failures.{refusal_of};
ghost use Rattle.ps_grammar.specs.Shape.{Derives, IsDomainShape, IsShallow, IsShallowFrom, IsFirstFaultFrom, Refuses};

use super::faults::ShapeFault;
use super::marks::Mark;
use super::symbols::Symbol;
use super::wanted::Wanted;
use ps_world::Failure;
use std::alloc::{AllocError, Global};

/// Judges the marks of a text: whether they are those of a domain, at most 64 levels of parentheses deep.
/// The refusal is the first fault in the text: an unsupported form, a level too many, or another mark that fits nothing. The text's
/// end is a fault where more is wanted. Memory may run out at any mark.
pub fn judge(alloc: Global, marks: &[Mark]) -> Result<(), Failure<ShapeFault>>
    ensures ok { OnOk result (IsDomainShape marks.now × IsShallow marks.now) }
    ensures fault { IfSome (refusal_of result) (λ fault. Refuses fault marks.now) }
{
    let mut wanted = Wanted::whole(alloc)?;
    let at = wanted.taken(marks)?;
    if at < marks.len() {
        let fault = wanted.fault(at, marks[at], mark_at(marks, at + 1));
        return Err(Failure::Refused(fault));
    }
    if wanted.is_empty() {
        Ok(())
    } else {
        Err(Failure::Refused(ShapeFault::Unexpected { at: marks.len() }))
    }
}

/// The place of the first fault of marks where these symbols are wanted: of the mark that fits nothing or opens a level too many, or of
/// the marks' end where more is wanted.
pub fn first_fault(
    alloc: Global,
    start: &[Symbol],
    marks: &[Mark],
) -> Result<Option<usize>, AllocError>
    requires { length start.now ≤ 8 }
    ensures none { result ≡ Ok None
        → Derives start.now marks.now × IsShallowFrom start.now marks.now }
    ensures fault { IfOk result (λ place. IfSome place
        (λ at. IsFirstFaultFrom start.now marks.now at)) }
{
    let mut wanted = Wanted::these(alloc, start)?;
    let at = wanted.taken(marks)?;
    if at < marks.len() {
        return Ok(Some(at));
    }
    if wanted.is_empty() {
        Ok(None)
    } else {
        Ok(Some(marks.len()))
    }
}

/// The mark at this place, if there is one.
fn mark_at(marks: &[Mark], at: usize) -> Option<Mark>
    ensures { result ≡ slice_get marks.now at }
{
    marks.get(at).copied()
}
