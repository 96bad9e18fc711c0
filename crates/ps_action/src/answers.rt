//! What a solver answers.
use super::acts::Act;
use ps_world::{Duplicate, Seq};
use std::alloc::{AllocError, Global};

/// What a solver answers.
#[derive(PartialEq, Eq, Drop)]
pub enum Answer {
    /// A good plan.
    Plan(Seq<Act>),
    /// No plan is good.
    NoPlan,
    /// No plan of at most this many acts is good, and the budget of states or the longest plan is met.
    Spent { depth: u32 },
    /// There are more than 50,000 ground actions.
    TooMany,
}

impl Duplicate for Answer {
    fn copy(&self, alloc: Global) -> Result<Self, AllocError> {
        Ok(match self {
            Answer::Plan(acts) => Answer::Plan(acts.copy(alloc)?),
            Answer::NoPlan => Answer::NoPlan,
            Answer::Spent { depth } => Answer::Spent { depth: *depth },
            Answer::TooMany => Answer::TooMany,
        })
    }
}
