//! How far a worker is.
ghost use Rattle.std.specs.Prelude.{◌≡◌, true, OnErr, OnOk};
ghost use Rattle.ps_pool.specs.declared.round_place.Stand.TheVariants.{Failed, Going, Over};

use ps_board::{Grant, Snapshot};
use std::alloc::AllocError;

/// What a worker does between turns and without the lead.
#[derive(Drop)]
pub(crate) enum OutsideWork {
    /// A unit of work.
    Unit(Grant),
    /// The search for a plan.
    Search(Snapshot),
}

/// What one step of a round came to.
#[derive(Clone, Copy)]
pub(crate) enum Step {
    /// Something was done, or is to be done aside.
    Did,
    /// Nothing was done.
    Nothing,
    /// The round is at its end.
    Ended,
    /// The run was seen to be over or halted.
    Left,
}

/// How it stands with a worker.
#[derive(Clone, Copy)]
pub(crate) enum Stand {
    /// It goes on with its rounds.
    Going,
    /// Memory ran out in a turn that it took.
    Failed,
    /// It has seen that the run is halted.
    Halted,
    /// It has seen that the run is over.
    Over,
}

/// How far a worker is in its round: a turn of each own member, one of the ticker, and one of each
/// other member.
#[derive(Clone, Copy)]
pub(crate) struct RoundPlace {
    pub(crate) stand: Stand,
    /// The turns up to the ticker's are still to be taken.
    pub(crate) own_members: bool,
    /// The place of the next member. Where there is none, the ticker is next, or the round is at its end.
    pub(crate) place: usize,
}

impl RoundPlace {
    /// The first round's beginning.
    pub(crate) fn first() -> RoundPlace
        ensures { result.stand ≡ Going }
    {
        RoundPlace {
            stand: Stand::Going,
            own_members: true,
            place: 0,
        }
    }

    /// Whether the worker has seen that the run is over.
    pub(crate) fn is_over(&self) -> bool
        ensures { result ≡ true → self.now.stand ≡ Over }
    {
        match self.stand {
            Stand::Over => true,
            Stand::Going | Stand::Failed | Stand::Halted => false,
        }
    }
}

/// Hands on what a turn came to. Where memory ran out, the worker may do nothing but halt the run.
pub(crate) fn noted(
    round_place: &mut RoundPlace,
    done: Result<(), AllocError>,
) -> Result<(), AllocError>
    ensures failed { OnErr result (round_place.new.stand ≡ Failed) }
    ensures ok { OnOk result (round_place.new.stand ≡ round_place.old.stand) }
{
    if done.is_err() {
        round_place.stand = Stand::Failed;
    }
    done
}
