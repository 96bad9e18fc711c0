//! The texts of answers, with their replies.
ghost use Rattle.std.specs.Prelude.{◌≡◌, ◌++◌, IfOk, OnOk};
ghost use Rattle.ps_rules.specs.Journal.{reply_text};
ghost use Rattle.ps_editing.specs.Texts.{answer_text, line_text, replies, why_text};

use super::answers::{Answer, Why};
use ps_domain::Expert;
use ps_journal::{Printed, push_after, push_known, push_number, push_replies};
use ps_problem::Problem;
use ps_text::Names;
use std::alloc::{AllocError, Global};

impl Printed for Why {
    ghost text = { why_text };

    fn print(&self, names: &Names, out: &mut Vec<u8>) -> Result<(), AllocError> {
        match self {
            Why::Known(why) => why.print(names, out),
            Why::NotHere => out.extend_from_slice(b"NotHere"),
            Why::NothingToUndo => out.extend_from_slice(b"NothingToUndo"),
            Why::NothingToRedo => out.extend_from_slice(b"NothingToRedo"),
        }
    }
}

impl Printed for Answer {
    ghost text = { answer_text };

    fn print(&self, names: &Names, out: &mut Vec<u8>) -> Result<(), AllocError> {
        match self {
            Answer::Made(edit) => push_after(b"ok ", edit, names, out),
            Answer::Undone(edit) => push_after(b"undo ", edit, names, out),
            Answer::Redone(edit) => push_after(b"redo ", edit, names, out),
            Answer::Asked(query) => push_after(b"ask ", query, names, out),
            Answer::Saved(_) => out.extend_from_slice(b"save"),
            Answer::Ended => out.extend_from_slice(b"quit"),
            Answer::Refused(why) => push_after(b"refused ", why, names, out),
        }
    }
}

/// Adds the reply lines of an answer.
fn push_answer_replies(
    alloc: Global,
    names: &Names,
    expert: &Expert,
    problem: &Problem,
    answer: &Answer,
    out: &mut Vec<u8>,
) -> Result<(), AllocError>
    ensures { OnOk result (out.new.items ≡ out.old.items
        ++ reply_text (replies names.now expert.now problem.now answer.now)) }
{
    match answer {
        Answer::Asked(query) => push_known(alloc, names, expert, problem, query, out),
        Answer::Saved(edits) => push_replies(edits.as_slice(), names, out),
        _ => Ok(()),
    }
}

/// The text of the answer to the line with this number.
pub fn line_text(
    alloc: Global,
    names: &Names,
    expert: &Expert,
    problem: &Problem,
    n: usize,
    answer: &Answer,
) -> Result<Vec<u8>, AllocError>
    ensures { IfOk result (λ text. text.items
        ≡ line_text names.now expert.now n answer.now problem.now) }
{
    let mut text = Vec::new(alloc);
    push_number(n as u64, &mut text)?;
    push_after(b" ", answer, names, &mut text)?;
    text.push(b'\n')?;
    push_answer_replies(alloc, names, expert, problem, answer, &mut text)?;
    Ok(text)
}
