//! Edits of what is known.

use super::conditions::Cond;
use super::facts::Fact;
use super::goals::Goal;
use super::lists::Duplicate;
use super::names::Name;
use super::numbers::Num;
use std::alloc::{AllocError, Global};

/// A change of what is known. No variable stands in it, and no condition that an instance has a type.
#[derive(PartialEq, Eq, Drop)]
pub enum Edit {
    /// An instance and its type.
    AddInstance(Name, Name),
    /// No such instance, and no fact, value or goal that names it.
    RemoveInstance(Name),
    AddFact(Fact),
    RemoveFact(Fact),
    /// A function at its arguments, and its value.
    SetValue(Fact, Num),
    RemoveValue(Fact),
    SetGoal(Goal),
    RemoveGoal,
}

impl Duplicate for Edit {
    fn copy(&self, alloc: Global) -> Result<Self, AllocError> {
        Ok(match self {
            Edit::AddInstance(name, kind) => Edit::AddInstance(*name, *kind),
            Edit::RemoveInstance(name) => Edit::RemoveInstance(*name),
            Edit::AddFact(fact) => Edit::AddFact(*fact),
            Edit::RemoveFact(fact) => Edit::RemoveFact(*fact),
            Edit::SetValue(fact, number) => Edit::SetValue(*fact, *number),
            Edit::RemoveValue(fact) => Edit::RemoveValue(*fact),
            Edit::SetGoal(goal) => Edit::SetGoal(goal.copy(alloc)?),
            Edit::RemoveGoal => Edit::RemoveGoal,
        })
    }
}

impl Duplicate for (Option<Cond>, Edit) {
    fn copy(&self, alloc: Global) -> Result<Self, AllocError> {
        let edit = self.1.copy(alloc)?;
        match &self.0 {
            None => Ok((None, edit)),
            Some(cond) => Ok((Some(cond.copy(alloc)?), edit)),
        }
    }
}

/// Why an edit is refused. Arguments are counted from 0.
#[derive(Clone, Copy, PartialEq, Eq, Debug)]
pub enum EditRefusal {
    /// The type isn't declared.
    NoType,
    /// The instance is there with another type.
    InstanceThere,
    /// 1,000 instances are there.
    Full,
    /// The name is no instance.
    NoInstance(Name),
    /// The instance is a constant of the domain.
    Constant,
    /// The predicate isn't declared.
    NoPredicate,
    /// The number of arguments isn't that of the parameters.
    Arity { want: usize, got: usize },
    /// The type of the argument isn't the parameter's or below it.
    WrongType { at: usize },
    /// The fact isn't known.
    NoFact,
    /// The function isn't declared.
    NoFunction,
    /// The function has no value there.
    NoValue,
    /// There is no goal.
    NoGoal,
}
