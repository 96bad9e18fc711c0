//! What is known in a session.
ghost use Rattle.std.specs.Prelude.{◌≡◌, IfOk};

use super::conditions::Cond;
use super::facts::Fact;
use super::lists::{Duplicate, Seq};
use super::names::Name;
use super::numbers::Num;
use std::alloc::{AllocError, Global};

/// The most instances of a session.
pub const MOST_INSTANCES: usize = 1000;

/// What is known: the instances with their types, the facts, the values of functions, and a goal or none. Each list rises and has
/// each item once.
#[derive(PartialEq, Eq, Drop)]
pub struct Knowledge {
    pub instances: Seq<(Name, Name)>,
    pub facts: Seq<Fact>,
    pub values: Seq<(Fact, Num)>,
    pub goal: Option<Cond>,
}

impl Duplicate for (Name, Name) {
    fn copy(&self, _alloc: Global) -> Result<Self, AllocError> {
        Ok(*self)
    }
}

impl Duplicate for (Fact, Num) {
    fn copy(&self, _alloc: Global) -> Result<Self, AllocError> {
        Ok(*self)
    }
}

fn copy_goal(alloc: Global, goal: &Option<Cond>) -> Result<Option<Cond>, AllocError>
    ensures { IfOk result (λ copied. copied ≡ goal.now) }
{
    match goal {
        None => Ok(None),
        Some(goal) => Ok(Some(goal.copy(alloc)?)),
    }
}

impl Duplicate for Knowledge {
    fn copy(&self, alloc: Global) -> Result<Self, AllocError> {
        Ok(Knowledge {
            instances: self.instances.copy(alloc)?,
            facts: self.facts.copy(alloc)?,
            values: self.values.copy(alloc)?,
            goal: copy_goal(alloc, &self.goal)?,
        })
    }
}
