//! Actions and their effects.
use super::conditions::{Cond, Conds};
use super::domains::Params;
use super::expressions::Expr;
use super::lists::{Duplicate, Seq};
use super::names::Name;
use super::schemas::Lifted;
use std::alloc::{AllocError, Global};

/// How the value of a function changes.
#[derive(Clone, Copy, PartialEq, Eq)]
pub enum NumOp {
    Assign,
    Increase,
    Decrease,
    ScaleUp,
    ScaleDown,
}

/// An effect on one fact or one value.
#[derive(PartialEq, Eq, Drop)]
pub enum Effect {
    Add(Lifted),
    Delete(Lifted),
    /// The value of the function at these terms changes by the expression.
    Number(NumOp, Lifted, Expr),
}

impl Duplicate for Effect {
    fn copy(&self, alloc: Global) -> Result<Self, AllocError> {
        match self {
            Effect::Add(lifted) => Ok(Effect::Add(*lifted)),
            Effect::Delete(lifted) => Ok(Effect::Delete(*lifted)),
            Effect::Number(how, lifted, by) => Ok(Effect::Number(*how, *lifted, by.copy(alloc)?)),
        }
    }
}

/// An effect, or effects that are made where a condition holds.
#[derive(PartialEq, Eq, Drop)]
pub enum Guarded {
    Plain(Effect),
    /// These, where the condition holds in what is known before.
    When(Cond, Seq<Effect>),
}

impl Duplicate for Guarded {
    fn copy(&self, alloc: Global) -> Result<Self, AllocError> {
        match self {
            Guarded::Plain(effect) => Ok(Guarded::Plain(effect.copy(alloc)?)),
            Guarded::When(cond, effects) => {
                let cond = cond.copy(alloc)?;
                Ok(Guarded::When(cond, effects.copy(alloc)?))
            }
        }
    }
}

/// What stands in a list of effects: once, or once for each choice of instances.
#[derive(PartialEq, Eq, Drop)]
pub enum Spread {
    Once(Guarded),
    /// These, for each choice of instances that fit these variables. In them they are numbered after the variables outside.
    ForAll(Params, Seq<Guarded>),
}

impl Duplicate for Spread {
    fn copy(&self, alloc: Global) -> Result<Self, AllocError> {
        match self {
            Spread::Once(part) => Ok(Spread::Once(part.copy(alloc)?)),
            Spread::ForAll(params, parts) => {
                let params = params.copy(alloc)?;
                Ok(Spread::ForAll(params, parts.copy(alloc)?))
            }
        }
    }
}

/// The conditions of an action. Each list of conditions stands for all of its conditions.
#[derive(PartialEq, Eq, Drop)]
pub struct Conditions {
    /// What has to hold when it starts.
    pub at_start: Conds,
    /// What has to hold while it runs.
    pub over_all: Conds,
    /// What has to hold when it ends.
    pub at_end: Conds,
}

impl Duplicate for Conditions {
    fn copy(&self, alloc: Global) -> Result<Self, AllocError> {
        Ok(Conditions {
            at_start: self.at_start.copy(alloc)?,
            over_all: self.over_all.copy(alloc)?,
            at_end: self.at_end.copy(alloc)?,
        })
    }
}

/// The effects of an action.
#[derive(PartialEq, Eq, Drop)]
pub struct Effects {
    pub at_start: Seq<Spread>,
    pub at_end: Seq<Spread>,
}

impl Duplicate for Effects {
    fn copy(&self, alloc: Global) -> Result<Self, AllocError> {
        Ok(Effects {
            at_start: self.at_start.copy(alloc)?,
            at_end: self.at_end.copy(alloc)?,
        })
    }
}

/// A declared action.
#[derive(PartialEq, Eq, Drop)]
pub struct ActionDef {
    pub name: Name,
    pub params: Params,
    pub duration: Expr,
    pub conditions: Conditions,
    pub effects: Effects,
}

impl Duplicate for ActionDef {
    fn copy(&self, alloc: Global) -> Result<Self, AllocError> {
        Ok(ActionDef {
            name: self.name,
            params: self.params.copy(alloc)?,
            duration: self.duration.copy(alloc)?,
            conditions: self.conditions.copy(alloc)?,
            effects: self.effects.copy(alloc)?,
        })
    }
}
