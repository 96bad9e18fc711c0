//! What an editor makes of a line.
ghost use Rattle.std.specs.Prelude.{◌≡◌, IfOk};
ghost use Rattle.ps_undo.specs.Editing.{AreWellKnown};
ghost use Rattle.ps_editing.specs.Lines.{Answers, AnswersEdit, AnswersLine, AnswersRedo, AnswersUndo, asked, with_more};

use super::answers::{Answer, Why};
use ps_domain::Expert;
use ps_edit_words::EditWord;
use ps_machine::{Command, Line, LineCause, Query, Refusal};
use ps_text::Names;
use ps_undo::{Undo, save};
use ps_world::{Duplicate, Edit, Failure, Seq};
use std::alloc::{AllocError, Global};

/// Makes an edit, unless it is refused.
fn make(alloc: Global, expert: &Expert, undo: &mut Undo, edit: &Edit) -> Result<Answer, AllocError>
    requires { AreWellKnown expert.now undo.old }
    ensures { IfOk result (λ a. AnswersEdit expert.now edit.now undo.old a undo.new) }
{
    let made = edit.copy(alloc)?;
    match undo.edit(expert, edit) {
        Ok(_) => Ok(Answer::Made(made)),
        Err(Failure::Refused(why)) => Ok(Answer::Refused(Why::Known(Refusal::Edit(why)))),
        Err(Failure::OutOfMemory) => Err(AllocError),
    }
}

/// Takes back the newest edit that can be undone.
fn take_back(expert: &Expert, undo: &mut Undo) -> Result<Answer, AllocError>
    requires { AreWellKnown expert.now undo.old }
    ensures { IfOk result (λ a. AnswersUndo undo.old a undo.new) }
{
    match undo.undo(expert) {
        Ok(edit) => Ok(Answer::Undone(edit)),
        Err(Failure::Refused(_)) => Ok(Answer::Refused(Why::NothingToUndo)),
        Err(Failure::OutOfMemory) => Err(AllocError),
    }
}

/// Makes the edit again that was undone last.
fn make_again(expert: &Expert, undo: &mut Undo) -> Result<Answer, AllocError>
    requires { AreWellKnown expert.now undo.old }
    ensures { IfOk result (λ a. AnswersRedo undo.old a undo.new) }
{
    match undo.redo(expert) {
        Ok(edit) => Ok(Answer::Redone(edit)),
        Err(Failure::Refused(_)) => Ok(Answer::Refused(Why::NothingToRedo)),
        Err(Failure::OutOfMemory) => Err(AllocError),
    }
}

/// What is answered to a query.
fn asked(expert: &Expert, query: Query) -> Answer
    ensures { result ≡ asked expert.now query }
{
    match query {
        Query::ModelPredicate(name) => {
            if expert.predicate(name).is_none() {
                Answer::Refused(Why::Known(Refusal::NoPredicate))
            } else {
                Answer::Asked(query)
            }
        }
        Query::ModelAction(name) => {
            if expert.action(name).is_none() {
                Answer::Refused(Why::Known(Refusal::NoAction))
            } else {
                Answer::Asked(query)
            }
        }
        Query::Plan | Query::Tree => Answer::Refused(Why::NotHere),
        _ => Answer::Asked(query),
    }
}

/// Does a line that a session knows.
fn answer_line(
    alloc: Global,
    expert: &Expert,
    undo: &mut Undo,
    line: &Line,
) -> Result<Answer, AllocError>
    requires { AreWellKnown expert.now undo.old }
    ensures { IfOk result (λ a. AnswersLine expert.now line.now undo.old a undo.new) }
{
    match line {
        Line::Good(Command::Edit(edit)) => make(alloc, expert, undo, edit),
        Line::Good(Command::Ask(query)) => Ok(asked(expert, *query)),
        Line::Good(Command::Quit) => Ok(Answer::Ended),
        Line::Good(_) => Ok(Answer::Refused(Why::NotHere)),
        Line::Bad(cause) => Ok(Answer::Refused(Why::Known(Refusal::Line(*cause)))),
    }
}

/// Does a line that begins with a word of an editor and has more at this byte.
fn answer_more(
    alloc: Global,
    expert: &Expert,
    undo: &mut Undo,
    line: &Line,
    at: usize,
) -> Result<Answer, AllocError>
    requires { AreWellKnown expert.now undo.old }
    ensures { IfOk result
        (λ a. AnswersLine expert.now (with_more at line.now) undo.old a undo.new) }
{
    match line {
        Line::Bad(LineCause::Command) => Ok(Answer::Refused(Why::Known(Refusal::Line(
            LineCause::Shape { at },
        )))),
        other => answer_line(alloc, expert, undo, other),
    }
}

/// Does a line, by what it says to an editor alone, if it begins with a word that no session knows, or else by what it says to a session.
pub fn answer(
    alloc: Global,
    names: &Names,
    expert: &Expert,
    undo: &mut Undo,
    line: &Line,
    word: Option<EditWord>,
) -> Result<Answer, AllocError>
    requires { AreWellKnown expert.now undo.old }
    ensures { IfOk result
        (λ a. Answers names.now expert.now (line.now, word) undo.old a undo.new) }
{
    match word {
        Some(EditWord::Undo) => take_back(expert, undo),
        Some(EditWord::Redo) => make_again(expert, undo),
        Some(EditWord::Save) => Ok(Answer::Saved(Seq::of(save(
            alloc,
            names,
            undo.problem(),
            expert,
        )?))),
        Some(EditWord::More { at }) => answer_more(alloc, expert, undo, line, at),
        None => answer_line(alloc, expert, undo, line),
    }
}
