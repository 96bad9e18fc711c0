//! Edits that can be undone or redone, each with the change that does so.
ghost use Rattle.std.specs.Prelude.{◌≡◌, [], ◌∷◌, ◌<◌, if◌then◌else◌, take, IfOk};
ghost use Rattle.std.specs.VecDeque.{deque_len, deque_capacity};
ghost use Rattle.ps_undo.specs.Changes.{change_of, leading_back};
ghost use Rattle.ps_undo.specs.Editing.{Goes, Taken, answer_of, has_changed, most_kept};

use crate::changes::{change_of, leading_back};
use crate::editing::UndoRefusal;
use ps_problem::{Change, Problem};
use ps_world::{Duplicate, Edit, EditRefusal, Failure};
use std::alloc::AllocError;
use std::collections::VecDeque;

/// The most edits that can be undone.
const MOST_KEPT: usize = 64;

/// An edit that can be undone or redone.
#[derive(Drop)]
pub struct Step {
    /// The edit.
    pub edit: Edit,
    /// What leads from what is known now, once all steps before it are taken, to what is known after this one.
    pub change: Change,
}

/// The step that undoes an edit which isn't made yet.
pub fn step_of(problem: &Problem, edit: &Edit) -> Result<Step, AllocError>
    ensures { IfOk result (λ step. step ≡ record {
      edit = edit.now;
      change = leading_back problem.now (change_of problem.now edit.now);
    }) }
{
    step_with(problem, edit, &change_of(problem, edit)?)
}

/// The step that leads back from a change.
fn step_with(problem: &Problem, edit: &Edit, change: &Change) -> Result<Step, AllocError>
    ensures { IfOk result (λ step. step ≡ record {
      edit = edit.now;
      change = leading_back problem.now change.now;
    }) }
{
    let edit = edit.copy(problem.allocator())?;
    let change = leading_back(problem, change)?;
    Ok(Step { edit, change })
}

/// Whether an edit changed what is known.
pub fn has_changed(made: &Result<bool, Failure<EditRefusal>>) -> bool
    ensures { result ≡ has_changed made.now }
{
    match made {
        Ok(changed) => *changed,
        Err(_) => false,
    }
}

/// Where something changed, puts a step before those that undo, for which there is room, drops the last of too many, and drops all that redo.
pub fn keep(changed: bool, step: Step, past: &mut VecDeque<Step>, future: &mut VecDeque<Step>)
    requires { deque_len past.old < deque_capacity past.old }
    ensures past { past.new.items
        ≡ (if changed then take most_kept (step ∷ past.old.items) else past.old.items) }
    ensures future { future.new.items ≡ (if changed then [] else future.old.items) }
{
    if changed {
        past.push_front_reserved(step);
        past.truncate(MOST_KEPT);
        future.clear();
    } else {
        let_go(step);
    }
}

/// Lets go of a step.
fn let_go(_step: Step) {}

/// Takes the first step out, and gives its edit. None where there is none.
fn take_first(steps: &mut VecDeque<Step>) -> Option<Edit>
    ensures { Taken steps.old.items result steps.new.items }
{
    match steps.pop_front() {
        None => None,
        Some(Step { edit, change: _ }) => Some(edit),
    }
}

/// Takes the first of some steps, and puts the one that leads back before others. None where there is none. Where memory runs out nothing
/// has changed.
pub fn go(
    problem: &mut Problem,
    from: &mut VecDeque<Step>,
    to: &mut VecDeque<Step>,
) -> Result<Option<Edit>, AllocError>
    ensures { Goes problem.old from.old.items to.old.items result
        problem.new from.new.items to.new.items }
{
    let Some(step) = from.front() else {
        return Ok(None);
    };
    let back = step_with(&*problem, &step.edit, &step.change)?;
    to.reserve(1)?;
    let _changed = problem.patch(&step.change)?;
    to.push_front_reserved(back);
    Ok(take_first(from))
}

/// What is answered where a step was taken, or there was none, or memory ran out.
pub fn answer(
    taken: Result<Option<Edit>, AllocError>,
    why: UndoRefusal,
) -> Result<Edit, Failure<UndoRefusal>>
    ensures { result ≡ answer_of taken why }
{
    match taken {
        Ok(Some(edit)) => Ok(edit),
        Ok(None) => Err(Failure::Refused(why)),
        Err(AllocError) => Err(Failure::OutOfMemory),
    }
}
