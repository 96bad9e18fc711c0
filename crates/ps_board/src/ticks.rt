//! The turn of the ticker.
ghost use Rattle.std.specs.Prelude.{◌≡◌, ◌&&◌, nat_le, true, IfOk, IfSome, IsOk, IsTrue, OnErr, OnOk};
ghost use Rattle.ps_rules.specs.Runs.{is_running};
ghost use Rattle.ps_actors.specs.Ticks.{IsTickers};
ghost use Rattle.ps_board.specs.Parts.{BoardStands, Covers, Gains, GainsNothing};
ghost use Rattle.ps_board.specs.Ticks.{answer_of, closed_answer, done_answer, idle_answer, snapshot_of, tick_of};

use super::whole::Parts;
use ps_actors::{ticked, wants_plan};
use ps_boxes::Boxed;
use ps_machine::Outcome;
use ps_problem::Problem;
use std::alloc::{AllocError, Global};

/// What was known when the solver was asked.
#[derive(Drop)]
pub struct Snapshot {
    /// The number of entries then.
    pub at: u64,
    pub problem: Boxed<Problem>,
}

/// What came of a tick.
#[derive(Drop)]
pub enum Ticked {
    /// The block of one event was appended.
    Did,
    /// Nothing was to be done, and nothing was appended.
    Nothing,
    /// The solver is asked for a plan for what is known, and nothing was appended.
    WantsPlan(Snapshot),
    /// The run has ended so, now or before.
    Over(Outcome),
    /// The open run was halted, and nothing was appended.
    Halted,
}

/// The answer of a tick that ended the run so, if it ended it.
fn done_answer(how: Option<Outcome>) -> Ticked
    ensures { result ≡ done_answer how }
{
    match how {
        Some(how) => Ticked::Over(how),
        None => Ticked::Did,
    }
}

/// The answer of a tick where no run is open and the last one ended so.
pub fn closed_answer(last: Option<Outcome>) -> Ticked
    ensures { result ≡ closed_answer last }
{
    match last {
        Some(how) => Ticked::Over(how),
        None => Ticked::Nothing,
    }
}

impl Parts {
    /// The answer of a tick that does nothing. The only error is that memory ran out.
    fn idle(&self) -> Result<Ticked, AllocError>
        requires stands { BoardStands self.now }
        requires live { is_running self.now.entries.items ≡ true }
        ensures { IfOk result
            (λ t. t ≡ idle_answer (snapshot_of self.now.input self.now.entries.items)) }
    {
        if wants_plan(&self.state, &self.input) {
            let at = self.entries.len() as u64;
            let problem = self.state.problem.copy()?;
            let problem = Boxed::new(problem.allocator(), problem)?;
            Ok(Ticked::WantsPlan(Snapshot { at, problem }))
        } else {
            Ok(Ticked::Nothing)
        }
    }

    /// Appends the block of what the ticker does in an open run, if it does something. The only error is that memory ran out, and
    /// then no entry is appended.
    pub fn tick(&mut self, alloc: Global, hand: u8) -> Result<Ticked, AllocError>
        requires stands { BoardStands self.now }
        requires live { is_running self.now.entries.items ≡ true }
        requires hand { IsTrue (nat_le 1 hand && nat_le hand 16) }
        ensures stands { BoardStands self.new }
        ensures answer { IfOk result (λ t. t ≡ answer_of self.old) }
        ensures did { OnOk result (Gains hand (tick_of self.old) self.old self.new) }
        ensures its { IfSome (tick_of self.old) IsTickers }
        ensures err { OnErr result (GainsNothing self.old self.new) }
        ensures reserved { Covers self.old hand (tick_of self.old) → IsOk result }
    {
        match ticked(&self.state, &self.input) {
            Some(choice) => {
                let how = choice.outcome();
                self.choose(alloc, hand, &choice)?;
                Ok(done_answer(how))
            }
            None => self.idle(),
        }
    }
}
