//! The turns of the terminal and of members.
ghost use Rattle.std.specs.Prelude.{◌≡◌, ◌≤◌, ◌&&◌, nat_le, true, false, List, IsTrue, is_none, is_some, IfOk, IfSome, IsOk, OnOk, OnErr, Some};
ghost use Rattle.ps_machine.specs.declared.inputs.Input.{Input as InputView};
ghost use Rattle.ps_machine.specs.declared.journal.Entry.{Entry as EntryView};
ghost use Rattle.ps_rules.specs.Choices.{Says};
ghost use Rattle.ps_rules.specs.Lines.{next_line};
ghost use Rattle.ps_rules.specs.Runs.{is_running};
ghost use Rattle.ps_board.specs.Board.{answer_to, is_end, IsStep};
ghost use Rattle.ps_board.specs.Commands.{asks_plan};
ghost use Rattle.ps_board.specs.Parts.{BoardStands, Covers, Gains, GainsNothing, line_answer, MayCome, observed_by};

use super::commands::Next;
use super::whole::Parts;
use ps_action::Act;
use ps_machine::{By, Event, Query};
use ps_plan::Solver;
use ps_world::{Duplicate, Name, Seq};
use std::alloc::{AllocError, Global};

/// What came of a line of the terminal.
#[derive(Drop)]
pub enum Step {
    /// The block of what answers it was appended, which opens no run and isn't the query for a plan.
    Said,
    /// The query for a plan was appended, which is this.
    Planned(Seq<Act>),
    /// A run was opened.
    Opened,
    /// No line was left, and nothing was appended.
    End,
}

/// The answer to a line that this event answers, which isn't the query for a plan.
fn step_of(event: &Event) -> Step
    requires { asks_plan event.now ≡ false }
    ensures { (says : Says) (i : InputView) (es : List EntryView)
        → answer_to says i es ≡ Some event.now → IsStep says i es result }
{
    match event {
        Event::Run { kind: _, acts: _ } => Step::Opened,
        _ => Step::Said,
    }
}

impl Parts {
    /// Appends the block of what answers the next line, if one is left. The only error is that memory ran out, and then no entry is
    /// appended.
    pub fn command<S: Solver>(&mut self, alloc: Global, solver: &S) -> Result<Step, AllocError>
        requires stands { BoardStands self.now }
        requires closed { is_running self.now.entries.items ≡ false }
        ensures stands { BoardStands self.new }
        ensures answer { IfOk result
            (IsStep (S.says solver.now) self.old.input self.old.entries.items) }
        ensures end { IfOk result
            (λ s. is_end s ≡ is_none (next_line self.old.input self.old.entries.items)) }
        ensures did { OnOk result
            (Gains 0 (line_answer (S.says solver.now) self.old) self.old self.new) }
        ensures legal { OnOk result
            (IfSome (line_answer (S.says solver.now) self.old) (MayCome self.old)) }
        ensures err { OnErr result (GainsNothing self.old self.new) }
        ensures reserved { Covers self.old 0 (line_answer (S.says solver.now) self.old)
            → IsOk result }
    {
        match self.next(alloc, solver)? {
            Next::End => Ok(Step::End),
            Next::Edit(by, edit) => {
                self.record(0, by, edit)?;
                Ok(Step::Said)
            }
            Next::Event(event) => {
                let step = step_of(&event);
                self.put(alloc, 0, event)?;
                Ok(step)
            }
            Next::Plan(acts) => {
                self.put(alloc, 0, Event::Ask(Query::Plan))?;
                Ok(Step::Planned(acts))
            }
        }
    }

    /// Makes and records the next edit of the observer of this name, where it may be made now. Answers whether it did. The only
    /// error is that memory ran out, and then no entry is appended.
    pub fn observe(&mut self, alloc: Global, hand: u8, name: Name) -> Result<bool, AllocError>
        requires stands { BoardStands self.now }
        requires running { is_running self.now.entries.items ≡ true }
        requires hand { IsTrue (nat_le 1 hand && nat_le hand 16) }
        ensures stands { BoardStands self.new }
        ensures answer { IfOk result (λ did. did ≡ is_some (observed_by self.old name)) }
        ensures did { OnOk result (Gains hand (observed_by self.old name) self.old self.new) }
        ensures err { OnErr result (GainsNothing self.old self.new) }
    {
        let next = match self.state.next_seen(&self.input, name) {
            Some(edit) => edit.copy(alloc)?,
            None => return Ok(false),
        };
        self.record(hand, By::Observer(name), next)?;
        Ok(true)
    }
}
