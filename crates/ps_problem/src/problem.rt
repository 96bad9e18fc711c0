//! The problem expert.
ghost use Rattle.std.specs.Prelude.{◌≡◌, IfOk};
ghost use Rattle.ps_world.specs.Knowledge.{opening};
ghost use Rattle.ps_world.specs.Edits.{Edits};

mod edits;
mod facts;
mod instances;
mod known;
mod namings;
mod patches;
mod puts;
mod removal;
mod values;

use self::facts::Facts;
use self::instances::Instances;
use self::values::Values;
use ps_domain::Expert;
use ps_world::{Duplicate, Edit, EditRefusal, Failure, Goal, Name};
use std::alloc::{AllocError, Global};
use std::marker::Model;

/// The problem expert, which holds what a session knows. Contracts see it as that knowledge.
#[derive(Drop)]
pub struct Problem {
    alloc: Global,
    instances: Instances,
    facts: Facts,
    values: Values,
    goal: Option<Goal>,
}

impl Model for Problem {
    ghost use Rattle.ps_world.specs.declared.known.Knowledge.{Knowledge};
    ghost use Rattle.ps_world.specs.contracts.known.Knowledge.{the_row};

    ghost Value = { Knowledge };

    ghost coded = { the_row.coded };

    ghost view = { λ p. record {
      instances = p.instances;
      facts = p.facts;
      values = p.values;
      goal = p.goal;
    } };
}

impl Problem {
    /// What a session opens with: the domain's constants as its instances, and nothing else.
    pub fn new(alloc: Global, expert: &Expert) -> Result<Problem, AllocError>
        ensures { IfOk result (λ p. p ≡ opening expert.now) }
    {
        let mut instances = Instances::new(alloc);
        for constant in expert.domain().constants.as_slice() {
            instances.insert(constant.name, constant.kind)?;
        }
        Ok(Problem {
            alloc,
            instances,
            facts: Facts::new(alloc),
            values: Values::new(alloc),
            goal: None,
        })
    }

    /// The allocator that it takes memory from.
    pub fn allocator(&self) -> Global {
        self.alloc
    }

    /// An equal problem.
    pub fn copy(&self) -> Result<Problem, AllocError>
        ensures { IfOk result (λ p. p ≡ self.now) }
    {
        Ok(Problem {
            alloc: self.alloc,
            instances: self.instances.copy()?,
            facts: self.facts.copy()?,
            values: self.values.copy()?,
            goal: self.copied_goal()?,
        })
    }

    /// The goal, held once more. None exactly where there is none.
    pub fn copied_goal(&self) -> Result<Option<Goal>, AllocError>
        ensures { IfOk result (λ goal. goal ≡ self.now.goal) }
    {
        match &self.goal {
            None => Ok(None),
            Some(goal) => Ok(Some(goal.copy(self.alloc)?)),
        }
    }

    /// Makes an edit, and answers whether anything changed. Where it fails nothing has changed.
    ///
    /// The first refusal in the order of the rules of that edit:
    ///
    /// - set instance: `NoType`, `InstanceThere` where it is there with another type, `Full` where it isn't there and 1,000 are;
    /// - remove instance: `NoInstance`, `Constant`;
    /// - set predicate: `NoPredicate`, `Arity`, and then for each argument `NoInstance`, `WrongType`; remove predicate: the
    ///   same, and then `NoFact`;
    /// - set function: `NoFunction`, `Arity`, and then the arguments in the same way; remove function: the same, and then `NoValue`;
    /// - set goal: in the order of its text, for each fact and function the same, and for each side of a `(= a b)` `NoInstance`;
    ///   remove goal: `NoGoal`.
    ///
    /// Memory runs out only where nothing refuses the edit.
    pub fn edit(&mut self, expert: &Expert, edit: &Edit) -> Result<bool, Failure<EditRefusal>>
        ensures { Edits expert.now edit.now self.old result self.new }
    {
        match edit {
            Edit::AddInstance(name, kind) => self.add_instance(expert, *name, *kind),
            Edit::RemoveInstance(name) => self.remove_instance(expert, *name),
            Edit::AddFact(fact) => self.add_fact(expert, *fact),
            Edit::RemoveFact(fact) => self.remove_fact(expert, *fact),
            Edit::SetValue(fact, number) => self.set_value(expert, *fact, *number),
            Edit::RemoveValue(fact) => self.remove_value(expert, *fact),
            Edit::SetGoal(goal) => self.set_goal(expert, goal),
            Edit::RemoveGoal => self.remove_goal(expert),
        }
    }
}
