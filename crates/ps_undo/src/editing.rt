//! What an editor holds, and why it refuses.
use ps_world::{Edit, Knowledge, Seq};

/// What an editor holds. No code makes one: contracts see an `Undo` as it.
#[derive(Drop)]
pub struct Editing {
    /// What is known.
    pub now: Knowledge,
    /// What was known before each edit that can be undone, and that edit, the newest first.
    pub past: Seq<(Knowledge, Edit)>,
    /// What was known before each undo that can be redone, and the edit that was undone, the newest first.
    pub future: Seq<(Knowledge, Edit)>,
}

/// Why nothing was undone or redone.
#[derive(Clone, Copy, PartialEq, Eq, Debug)]
pub enum UndoRefusal {
    /// No edit is left that can be undone.
    NothingToUndo,
    /// No edit is left that can be redone.
    NothingToRedo,
}
