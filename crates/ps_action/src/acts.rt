//! Acts, ground actions and the steps of plans.
use ps_world::{Args, Conditions, Duplicate, Effects, Expr, Name, Num};
use std::alloc::{AllocError, Global};

/// An action and its arguments.
#[derive(Clone, Copy, PartialEq, Eq, PartialOrd, Ord)]
pub struct Act {
    pub action: Name,
    pub args: Args,
}

impl Duplicate for Act {
    fn copy(&self, _alloc: Global) -> Result<Self, AllocError> {
        Ok(*self)
    }
}

/// An action with arguments in place of its variables. Each list of conditions begins with one for each parameter, that the
/// argument is an instance that fits.
#[derive(PartialEq, Eq, Drop)]
pub struct GroundAction {
    pub act: Act,
    pub duration: Expr,
    pub conditions: Conditions,
    pub effects: Effects,
}

impl Duplicate for GroundAction {
    fn copy(&self, alloc: Global) -> Result<Self, AllocError> {
        Ok(GroundAction {
            act: self.act,
            duration: self.duration.copy(alloc)?,
            conditions: self.conditions.copy(alloc)?,
            effects: self.effects.copy(alloc)?,
        })
    }
}

/// A step of a plan: an act, when it starts and how long it lasts.
#[derive(Clone, Copy, PartialEq, Eq)]
pub struct PlanStep {
    pub time: Num,
    pub act: Act,
    pub duration: Num,
}

impl Duplicate for PlanStep {
    fn copy(&self, _alloc: Global) -> Result<Self, AllocError> {
        Ok(*self)
    }
}
