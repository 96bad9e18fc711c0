//! The turns of performers, and their work.
ghost use Rattle.std.specs.Prelude.{◌≡◌, ◌≤◌, ◌&&◌, nat_le, true, IsOk, IsTrue, IfOk, IfSome, OnOk, OnErr, Some};
ghost use Rattle.std.specs.Option.{option_copied};
ghost use Rattle.ps_machine.specs.declared.members.Unit.TheVariants.{Finish, Work};
ghost use Rattle.ps_rules.specs.Auctions.{is_for_active, is_working};
ghost use Rattle.ps_rules.specs.Choices.{performed, unit_event};
ghost use Rattle.ps_rules.specs.Legal.{is_legal};
ghost use Rattle.ps_rules.specs.Runs.{is_running};
ghost use Rattle.ps_progress_laws.specs.Working.{recorded, unit_due};
ghost use Rattle.ps_actors.specs.Heard.{HasHeard};
ghost use Rattle.ps_actors.specs.Turns.{is_choice_of};
ghost use Rattle.ps_board.specs.Parts.{BoardStands, Covers, Gains, GainsNothing};
ghost use Rattle.ps_board.specs.Grants.{grant_for, is_bare, performed_answer};

use super::whole::Parts;
use ps_actors::{performed, work_of};
use ps_boxes::Boxed;
use ps_machine::{By, Event, Unit};
use ps_state::performer_of;
use ps_world::{Duplicate, Name};
use std::alloc::{AllocError, Global};

/// A unit of work that a performer does outside of the board. It is handed in once it is done.
#[derive(Drop)]
pub struct Grant {
    /// The request that the performer works on.
    pub r: u64,
    pub by: Name,
    pub unit: Boxed<Unit>,
}

/// What came of a member's turn.
#[derive(Drop)]
pub enum Turn {
    /// The block of one event was appended.
    Did,
    /// Nothing was to be done, and nothing was appended.
    Nothing,
    /// This unit is to be done, and nothing was appended. An observer's turn never answers so.
    Work(Grant),
}

/// A copy of a unit. Only where it has a text or an edit it takes memory.
fn copy_of(alloc: Global, unit: &Unit) -> Result<Unit, AllocError>
    ensures copy { IfOk result (λ u. u ≡ unit.now) }
    ensures reserved { is_bare unit.now ≡ true → IsOk result }
{
    match unit {
        Unit::Work => Ok(Unit::Work),
        Unit::Finish(ok) => Ok(Unit::Finish(*ok)),
        Unit::Feedback(_, _) => unit.copy(alloc),
        Unit::Edit(_) => unit.copy(alloc),
    }
}

impl Parts {
    /// The unit that stands next in the job of a performer, if it works on this request.
    pub fn unit_due(&self, r: u64, by: Name) -> Option<&Unit>
        requires { BoardStands self.now }
        ensures { option_copied result ≡ unit_due self.now.input r by self.now.entries.items }
    {
        match performer_of(&self.input, by) {
            Some(performer) => self.state.unit_of(performer, r, by),
            None => None,
        }
    }

    /// A copy of the next unit of one who works on a request.
    fn copy_due(&self, alloc: Global, r: u64, by: Name) -> Result<Unit, AllocError>
        requires stands { BoardStands self.now }
        requires works { is_working r by self.now.entries.items ≡ true }
        ensures next { IfOk result
            (λ u. unit_due self.now.input r by self.now.entries.items ≡ Some u) }
        ensures reserved { IfSome (unit_due self.now.input r by self.now.entries.items)
            (λ u. is_bare u ≡ true) → IsOk result }
    {
        match self.unit_due(r, by) {
            Some(unit) => copy_of(alloc, unit),
            None => unreachable!(),
        }
    }

    /// Appends the block of what records this unit, the next one of a performer on a request for an active act. The only error is
    /// that memory ran out, and then no entry is appended.
    fn record_unit(
        &mut self,
        alloc: Global,
        hand: u8,
        r: u64,
        by: Name,
        unit: Unit,
    ) -> Result<(), AllocError>
        requires stands { BoardStands self.now }
        requires works { is_working r by self.now.entries.items ≡ true }
        requires active { is_for_active r self.now.entries.items ≡ true }
        requires next { unit_due self.now.input r by self.now.entries.items ≡ Some unit }
        requires hand { IsTrue (nat_le 1 hand && nat_le hand 16) }
        ensures stands { BoardStands self.new }
        ensures did { OnOk result (Gains hand
            (Some (unit_event self.old.input self.old.entries.items r by unit)) self.old self.new) }
        ensures err { OnErr result (GainsNothing self.old self.new) }
        ensures reserved { Covers self.old hand
            (Some (unit_event self.old.input self.old.entries.items r by unit)) → IsOk result }
    {
        match unit {
            Unit::Work => self.put(alloc, hand, Event::UnitWork { r, by }),
            Unit::Feedback(percent, text) => self.put(
                alloc,
                hand,
                Event::Feedback {
                    r,
                    by,
                    percent,
                    text,
                },
            ),
            Unit::Edit(edit) => self.record(hand, By::Performer(r, by), edit),
            Unit::Finish(ok) => self.put(alloc, hand, Event::Finish { r, by, ok }),
        }
    }

    /// Appends the block of what one who works on a request records next: its unit, or, where the act was cancelled, that it
    /// stopped. The only error is that memory ran out, and then no entry is appended.
    pub fn record_work(
        &mut self,
        alloc: Global,
        hand: u8,
        r: u64,
        by: Name,
    ) -> Result<(), AllocError>
        requires stands { BoardStands self.now }
        requires works { is_working r by self.now.entries.items ≡ true }
        requires hand { IsTrue (nat_le 1 hand && nat_le hand 16) }
        ensures stands { BoardStands self.new }
        ensures did { OnOk result (Gains hand
            (recorded self.old.input self.old.entries.items r by) self.old self.new) }
        ensures err { OnErr result (GainsNothing self.old self.new) }
        ensures reserved { Covers self.old hand
            (recorded self.old.input self.old.entries.items r by) → IsOk result }
    {
        if self.state.ledger.is_for_active(r) {
            let unit = self.copy_due(alloc, r, by)?;
            self.record_unit(alloc, hand, r, by, unit)
        } else {
            self.put(alloc, hand, Event::Stopped { r, by })
        }
    }

    /// The grant of a unit to a performer that works on this request.
    fn grant_of(alloc: Global, r: u64, by: Name, unit: &Unit) -> Result<Grant, AllocError>
        ensures { IfOk result (λ g. g ≡ record { r = r; by = by; unit = unit.now }) }
    {
        let unit = Boxed::new(alloc, unit.copy(alloc)?)?;
        Ok(Grant { r, by, unit })
    }

    /// The grant of the work that a performer has to do now, if it has some.
    fn grant_for(&self, alloc: Global, name: Name) -> Result<Option<Grant>, AllocError>
        requires stands { BoardStands self.now }
        requires live { is_running self.now.entries.items ≡ true }
        ensures { IfOk result
            (λ g. g ≡ grant_for self.now.input self.now.entries.items name) }
    {
        match work_of(&self.state, &self.input, name) {
            Some((r, unit)) => Ok(Some(Parts::grant_of(alloc, r, name, unit)?)),
            None => Ok(None),
        }
    }

    /// Does the turn of a performer of which no grant is out, and which has answered all requests of the run below this number. The
    /// only error is that memory ran out, and then no entry is appended.
    pub fn perform(
        &mut self,
        alloc: Global,
        hand: u8,
        name: Name,
        upto: u64,
    ) -> Result<Turn, AllocError>
        requires stands { BoardStands self.now }
        requires live { is_running self.now.entries.items ≡ true }
        requires heard { HasHeard name upto self.now.entries.items }
        requires hand { IsTrue (nat_le 1 hand && nat_le hand 16) }
        ensures stands { BoardStands self.new }
        ensures answer { IfOk result
            (λ t. t ≡ performed_answer self.old.input self.old.entries.items name) }
        ensures did { OnOk result (Gains hand
            (performed self.old.input name self.old.entries.items) self.old self.new) }
        ensures err { OnErr result (GainsNothing self.old self.new) }
        ensures reserved { Covers self.old hand
            (performed self.old.input name self.old.entries.items) → IsOk result }
        ensures its { IfSome (performed self.old.input name self.old.entries.items)
            (λ e. is_choice_of name e ≡ true) }
    {
        match performed(&self.state, &self.input, name, upto) {
            Some(choice) => {
                self.choose(alloc, hand, &choice)?;
                Ok(Turn::Did)
            }
            None => match self.grant_for(alloc, name)? {
                Some(grant) => Ok(Turn::Work(grant)),
                None => Ok(Turn::Nothing),
            },
        }
    }
}
