//! An editor with undo and redo.
ghost use Rattle.std.specs.Prelude.{◌≡◌};
ghost use Rattle.ps_undo.specs.Editing.{AreWellKnown, EditMakes, Takes, begun, redone, undone};
ghost use Rattle.ps_undo.specs.declared.editing.UndoRefusal.TheVariants.{NothingToUndo, NothingToRedo};

use crate::editing::{Editing, UndoRefusal};
use crate::steps::{Step, answer, go, has_changed, keep, step_of};
use ps_domain::Expert;
use ps_problem::Problem;
use ps_world::{Edit, EditRefusal, Failure};
use std::collections::VecDeque;
use std::marker::Model;

/// An editor of a problem, whose last 64 edits can be undone. Contracts see it as an `Editing`; it keeps the changes that lead back and forth,
/// and one problem.
#[derive(Drop)]
pub struct Undo {
    problem: Problem,
    past: VecDeque<Step>,
    future: VecDeque<Step>,
}

impl Model for Undo {
    ghost use Rattle.ps_undo.specs.declared.editing.Editing.{Editing};
    ghost use Rattle.ps_undo.specs.contracts.editing.Editing.{the_row};

    ghost Value = { Editing };

    ghost coded = { the_row.coded };

    ghost use Rattle.ps_undo.specs.Editing.{led_by};

    ghost view = { λ u. record {
      now = u.problem;
      past = led_by u.problem u.past.items;
      future = led_by u.problem u.future.items;
    } };
}

impl Undo {
    /// An editor that begins with this problem. It takes no memory.
    pub fn new(problem: Problem) -> Undo
        ensures { result ≡ begun problem }
    {
        let alloc = problem.allocator();
        Undo {
            problem,
            past: VecDeque::new(alloc),
            future: VecDeque::new(alloc),
        }
    }

    /// What is known.
    pub fn problem(&self) -> &Problem
        ensures { result.now ≡ self.now.now }
    {
        &self.problem
    }

    /// Makes an edit, and answers whether what is known changed. Where it did, the edit can be undone, and nothing can be redone any more;
    /// of more than 64 edits the oldest is forgotten. Else nothing changes, nor where it fails.
    ///
    /// It refuses what `Problem::edit` refuses, in the same order.
    pub fn edit(&mut self, expert: &Expert, edit: &Edit) -> Result<bool, Failure<EditRefusal>>
        requires { AreWellKnown expert.now self.old }
        ensures { EditMakes expert.now edit.now self.old result self.new }
    {
        self.past.reserve(1)?;
        let step = step_of(&self.problem, edit)?;
        let made = self.problem.edit(expert, edit);
        keep(has_changed(&made), step, &mut self.past, &mut self.future);
        made
    }

    /// Undoes the newest edit that can be undone, and answers it. What is known is the same as before that edit. `NothingToUndo` exactly where
    /// there is none; then nothing changes, nor where memory runs out.
    pub fn undo(&mut self, expert: &Expert) -> Result<Edit, Failure<UndoRefusal>>
        requires { AreWellKnown expert.now self.old }
        ensures { Takes (undone self.old) NothingToUndo self.old result self.new }
    {
        let taken = go(&mut self.problem, &mut self.past, &mut self.future);
        answer(taken, UndoRefusal::NothingToUndo)
    }

    /// Redoes the edit that was undone last, and answers it. What is known is the same as before that undo. `NothingToRedo` exactly where
    /// there is none; then nothing changes, nor where memory runs out.
    pub fn redo(&mut self, expert: &Expert) -> Result<Edit, Failure<UndoRefusal>>
        requires { AreWellKnown expert.now self.old }
        ensures { Takes (redone self.old) NothingToRedo self.old result self.new }
    {
        let taken = go(&mut self.problem, &mut self.future, &mut self.past);
        answer(taken, UndoRefusal::NothingToRedo)
    }
}
