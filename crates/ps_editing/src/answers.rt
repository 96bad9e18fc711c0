//! What an editor answers to a line.
ghost use Rattle.std.specs.Prelude.{◌≡◌};
ghost use Rattle.ps_editing.specs.Lines.{is_refused};

use ps_machine::{Query, Refusal};
use ps_world::{Edit, Seq};

/// Why an editor refuses a line.
#[derive(Clone, Copy, PartialEq, Eq)]
pub enum Why {
    /// A session refuses the line for this too.
    Known(Refusal),
    /// A plan, a tree or a run is asked for.
    NotHere,
    /// No edit is left that can be undone.
    NothingToUndo,
    /// No edit is left that can be redone.
    NothingToRedo,
}

/// What an editor answers to a line.
#[derive(Drop)]
pub enum Answer {
    /// The edit is made.
    Made(Edit),
    /// This edit is taken back.
    Undone(Edit),
    /// This edit is made again.
    Redone(Edit),
    /// The query is answered.
    Asked(Query),
    /// These edits make what is known.
    Saved(Seq<Edit>),
    /// Nothing more is read.
    Ended,
    Refused(Why),
}

/// Whether a line is refused.
pub fn is_refused(answer: &Answer) -> bool
    ensures { result ≡ is_refused answer.now }
{
    matches!(answer, Answer::Refused(_))
}
