//! The text of entries with their replies.
ghost use Rattle.std.specs.Prelude.{◌≡◌, ℕ, ◌<◌, ◌≤◌, ◌++◌, [], drop, length, IfOk, OnOk, Some};
ghost use Rattle.ps_rules.specs.Heads.{head_text, settings_of};
ghost use Rattle.ps_rules.specs.History.{IsHistory};
ghost use Rattle.ps_session.specs.Answers.{AskAtEnd};
ghost use Rattle.ps_session.specs.Lines.{AsksFor, AsksLast, PutsWork, text_at, text_from};

use ps_action::Act;
use ps_board::Board;
use ps_journal::push_head;
use ps_machine::{Entry, Input};
use ps_replies::push_entry;
use ps_text::{Names, Sink, SinkRefusal, put};
use std::alloc::{AllocError, Global};

/// Adds the text of the entry at a place. If it asks, it is the last, and this is the plan that it may ask for.
fn push_at(
    alloc: Global,
    names: &Names,
    board: &Board,
    plan: &[Act],
    k: usize,
    text: &mut Vec<u8>,
) -> Result<(), AllocError>
    requires there { k < length board.now.entries }
    requires asks { AsksLast board.now.entries k }
    requires told { AsksFor board.now.input board.now.entries plan.now k }
    ensures { OnOk result (text.new.items
        ≡ text.old.items ++ text_at names.now board.now.input board.now.entries k) }
{
    let entry: &Entry = &board.entries()[k];
    push_entry(
        alloc,
        names,
        board.expert(),
        board.problem(),
        plan,
        board.tree(),
        entry,
        text,
    )
}

/// Writes the lines that the journal of a session of this input begins with, by one `put`.
pub fn write_head<O: Sink>(alloc: Global, input: &Input, out: &mut O) -> Result<(), SinkRefusal>
    ensures { PutsWork (head_text (Some (settings_of input.now))) (O.shown out.old)
        (O.shown out.new) result }
{
    let mut head = Vec::new(alloc);
    push_head(Some((input.budget, input.replans)), &mut head)?;
    put(out, &head)
}

/// An empty text with room for that of so many entries, which most don't pass.
fn with_room(alloc: Global, entries: usize) -> Result<Vec<u8>, AllocError>
    ensures { IfOk result (λ text. text.items ≡ []) }
{
    Vec::with_capacity(alloc, entries.saturating_mul(24).saturating_add(64))
}

/// Writes the text of the entries from a place on by one `put`. None but the last asks, and this is the plan that it may ask for.
pub fn write_entries<O: Sink>(
    alloc: Global,
    names: &Names,
    board: &Board,
    plan: &[Act],
    from: usize,
    out: &mut O,
) -> Result<(), SinkRefusal>
    requires there { from ≤ length board.now.entries }
    requires asks { AskAtEnd (drop from board.now.entries) }
    requires told { (k : ℕ) → from ≤ k → AsksFor board.now.input board.now.entries plan.now k }
    ensures text { PutsWork (text_from names.now board.now.input board.now.entries from)
        (O.shown out.old) (O.shown out.new) result }
    ensures history { IsHistory board.now.input board.now.entries }
{
    let mut text = with_room(alloc, board.entries().len().saturating_sub(from))?;
    for k in from..board.entries().len() {
        push_at(alloc, names, board, plan, k, &mut text)?;
    }
    put(out, &text)
}
