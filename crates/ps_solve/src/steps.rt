//! Steps from a state to the next.
ghost use Rattle.std.specs.Prelude.{◌≡◌, Some, None, if◌then◌else◌, option_and_then, length, IfOk, OnOk};
ghost use Rattle.ps_action.specs.Effects.{first_clash, flat};
ghost use Rattle.ps_ground.specs.Atoms.{AddAtoms};
ghost use Rattle.ps_ground.specs.Prepared.{IsSound, IsSoundChange, landed, passes, successor, turned};
ghost use Rattle.ps_ground.specs.States.{State, at, changed, changed_flat};
ghost use Rattle.ps_solve.specs.Rows.{plain_state};

use super::rows::{Row, are_known};
use super::task::Task;
use ps_action::{Known, all_true, fault_of_flat_with, first_clash, unfold, values_of_flat};
use ps_ground::{Atoms, Change, Prepared, Test};
use ps_problem::Problem;
use ps_world::{Effect, Fact, Name, Num, Spread};
use std::alloc::AllocError;

/// What is known in a state. The instances, which no step changes, are those of what was known at first.
#[derive(Drop)]
pub struct At<'a> {
    pub given: &'a Problem,
    pub atoms: &'a Atoms,
    pub row: &'a Row,
}

impl<'a> Known for At<'a> {
    ghost use Rattle.ps_ground.specs.States.{at};
    ghost use Rattle.ps_solve.specs.Rows.{plain_state};

    ghost known = { λ a. at a.given.now (plain_state a.atoms.now a.row.now) };

    fn has(&self, fact: &Fact) -> bool {
        match self.atoms.place_of(fact) {
            Some(place) => self.row.flags.get(place),
            None => false,
        }
    }

    fn value(&self, term: &Fact) -> Option<Num> {
        self.row.values.get(term)
    }

    fn kind_of(&self, name: Name) -> Option<Name> {
        self.given.kind_of(name)
    }

    fn instances(&self) -> &[(Name, Name)] {
        Known::instances(self.given)
    }
}

impl<'a> Task<'a> {
    /// What is known in a row's state.
    pub fn at<'b>(&'b self, row: &'b Row) -> At<'b>
        ensures given { result.given.now ≡ self.now.problem.now }
        ensures atoms { result.atoms.now ≡ self.now.grounds.atoms }
        ensures row { result.row.now ≡ row.now }
    {
        At {
            given: self.problem,
            atoms: &self.grounds.atoms,
            row,
        }
    }

    /// Whether a test holds in a row.
    pub fn passes(&self, row: &Row, test: &Test) -> bool
        ensures { result ≡ passes self.now.expert.now self.now.problem.now
            self.now.grounds.atoms test.now (plain_state self.now.grounds.atoms row.now) }
    {
        are_known(&self.grounds.atoms, row, &test.wanted)
            && all_true(&self.at(row), self.expert, &test.others)
    }

    /// Makes flat effects in a state, where this is the place of their first clash, and answers whether it could: false where one has a
    /// fault. Where memory runs out the row may have changed.
    fn change(
        &self,
        row: &mut Row,
        effects: &[Effect],
        clash: Option<usize>,
    ) -> Result<bool, AllocError>
        requires wide { length row.old.flags ≡ length self.now.grounds.atoms }
        requires atoms { AddAtoms self.now.grounds.atoms effects.now }
        requires clash { clash ≡ first_clash effects.now }
        ensures state { IfOk result (λ made.
            (if made then Some (plain_state self.now.grounds.atoms row.new) else None)
            ≡ changed_flat self.now.problem.now
            (plain_state self.now.grounds.atoms row.old) effects.now) }
        ensures wide { OnOk result (length row.new.flags ≡ length row.old.flags) }
    {
        let here = At {
            given: self.problem,
            atoms: &self.grounds.atoms,
            row: &*row,
        };
        if fault_of_flat_with(&here, effects, clash).is_some() {
            return Ok(false);
        }
        let ready = values_of_flat(self.alloc, &here, effects)?;
        row.put(self.alloc, &self.grounds.atoms, effects, &ready)?;
        Ok(true)
    }

    /// Makes the effects for which a list stands in a state, and answers whether it could: false where one has a fault. Where memory runs
    /// out the row may have changed.
    fn change_spread(&self, row: &mut Row, effects: &[Spread]) -> Result<bool, AllocError>
        requires wide { length row.old.flags ≡ length self.now.grounds.atoms }
        requires atoms { (s : State) → AddAtoms self.now.grounds.atoms
            (flat self.now.expert.now (at self.now.problem.now s) effects.now) }
        ensures state { IfOk result (λ made.
            (if made then Some (plain_state self.now.grounds.atoms row.new) else None)
            ≡ changed self.now.expert.now self.now.problem.now
            (plain_state self.now.grounds.atoms row.old) effects.now) }
        ensures wide { OnOk result (length row.new.flags ≡ length row.old.flags) }
    {
        let here = At {
            given: self.problem,
            atoms: &self.grounds.atoms,
            row: &*row,
        };
        let flat = unfold(self.alloc, &here, self.expert, effects)?;
        let clash = first_clash(&flat);
        self.change(row, &flat, clash)
    }

    /// Makes a prepared change in a row, and answers whether it could: false where an effect has a fault. Where memory runs out the row
    /// may have changed.
    fn turn(&self, row: &mut Row, by: &Change) -> Result<bool, AllocError>
        requires wide { length row.old.flags ≡ length self.now.grounds.atoms }
        requires sound { IsSoundChange self.now.expert.now self.now.problem.now
            self.now.grounds.atoms by.now }
        ensures state { IfOk result (λ made.
            (if made then Some (plain_state self.now.grounds.atoms row.new) else None)
            ≡ turned self.now.expert.now self.now.problem.now self.now.grounds.atoms by.now
            (plain_state self.now.grounds.atoms row.old)) }
        ensures wide { OnOk result (length row.new.flags ≡ length row.old.flags) }
    {
        match by {
            Change::Flags { cleared, set } => {
                row.clear_all(&self.grounds.atoms, cleared);
                row.set_all(&self.grounds.atoms, set);
                Ok(true)
            }
            Change::Effects { effects, clash } => self.change(row, effects.as_slice(), *clash),
            Change::Spreads { effects } => self.change_spread(row, effects.as_slice()),
        }
    }

    /// Makes the end of a prepared ground action in the row after its start, and answers whether it could. Where memory runs out the row
    /// may have changed.
    fn end(&self, row: &mut Row, action: &Prepared) -> Result<bool, AllocError>
        requires wide { length row.old.flags ≡ length self.now.grounds.atoms }
        requires sound { IsSound self.now.expert.now self.now.problem.now
            self.now.grounds.atoms action.now }
        ensures state { IfOk result (λ made.
            (if made then Some (plain_state self.now.grounds.atoms row.new) else None)
            ≡ landed self.now.expert.now self.now.problem.now self.now.grounds.atoms action.now
            (plain_state self.now.grounds.atoms row.old)) }
        ensures wide { OnOk result (length row.new.flags ≡ length row.old.flags) }
    {
        if !self.passes(row, &action.over) || !self.passes(row, &action.end) {
            return Ok(false);
        }
        self.turn(row, &action.at_end)
    }

    /// Makes a step of a prepared ground action in a row where it may start, and answers whether it could. Where memory runs out the
    /// row may have changed.
    fn go_on(&self, row: &mut Row, action: &Prepared) -> Result<bool, AllocError>
        requires wide { length row.old.flags ≡ length self.now.grounds.atoms }
        requires sound { IsSound self.now.expert.now self.now.problem.now
            self.now.grounds.atoms action.now }
        ensures state { IfOk result (λ made.
            (if made then Some (plain_state self.now.grounds.atoms row.new) else None)
            ≡ option_and_then
            (landed self.now.expert.now self.now.problem.now self.now.grounds.atoms action.now)
            (turned self.now.expert.now self.now.problem.now self.now.grounds.atoms
            action.now.at_start (plain_state self.now.grounds.atoms row.old))) }
        ensures wide { OnOk result (length row.new.flags ≡ length row.old.flags) }
    {
        if self.turn(row, &action.at_start)? {
            self.end(row, action)
        } else {
            Ok(false)
        }
    }

    /// Makes `next` the row after a step of a prepared ground action, and answers whether it leads there: false exactly where a part of
    /// the step fails, which are the start condition, a start effect, the over-all or the end condition after the start effects, and
    /// an end effect.
    pub fn step(&self, row: &Row, action: &Prepared, next: &mut Row) -> Result<bool, AllocError>
        requires wide { length row.now.flags ≡ length self.now.grounds.atoms }
        requires next { length next.old.flags ≡ length self.now.grounds.atoms }
        requires sound { IsSound self.now.expert.now self.now.problem.now
            self.now.grounds.atoms action.now }
        ensures state { IfOk result (λ made.
            (if made then Some (plain_state self.now.grounds.atoms next.new) else None)
            ≡ successor self.now.expert.now self.now.problem.now self.now.grounds.atoms
            (plain_state self.now.grounds.atoms row.now) action.now) }
        ensures wide { OnOk result (length next.new.flags ≡ length next.old.flags) }
    {
        if !self.passes(row, &action.start) {
            return Ok(false);
        }
        next.set_to(self.alloc, row)?;
        self.go_on(next, action)
    }
}
