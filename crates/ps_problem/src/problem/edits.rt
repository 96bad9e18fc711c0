//! The eight edits, each with the contract of `edit`.
ghost use Rattle.std.specs.Prelude.{◌≡◌, ◌↔◌, Some, IsTrue};
ghost use Rattle.ps_world.specs.Edits.{Edits};
ghost use Rattle.ps_world.specs.declared.edits.Edit.TheVariants.{AddInstance, RemoveInstance, AddFact, RemoveFact, SetValue, RemoveValue, SetGoal, RemoveGoal};

use super::Problem;
use ps_action::{cond_fault, fact_fault, value_fault};
use ps_domain::Expert;
use ps_world::{Duplicate, EditRefusal, Fact, Failure, Goal, MOST_INSTANCES, Name, Num};

impl Problem {
    pub(crate) fn add_instance(
        &mut self,
        expert: &Expert,
        name: Name,
        kind: Name,
    ) -> Result<bool, Failure<EditRefusal>>
        ensures { Edits expert.now (AddInstance name kind) self.old result self.new }
    {
        if !expert.is_type(kind) {
            return Err(Failure::Refused(EditRefusal::NoType));
        }
        match self.kind_of(name) {
            Some(there) if there == kind => Ok(false),
            Some(_) => Err(Failure::Refused(EditRefusal::InstanceThere)),
            None if self.instances.len() >= MOST_INSTANCES => Err(Failure::Refused(
                EditRefusal::Full,
            )),
            None => {
                self.instances.insert(name, kind)?;
                Ok(true)
            }
        }
    }

    pub(crate) fn remove_instance(
        &mut self,
        expert: &Expert,
        name: Name,
    ) -> Result<bool, Failure<EditRefusal>>
        ensures { Edits expert.now (RemoveInstance name) self.old result self.new }
    {
        if self.kind_of(name).is_none() {
            return Err(Failure::Refused(EditRefusal::NoInstance(name)));
        }
        if expert.domain().constant(name).is_some() {
            return Err(Failure::Refused(EditRefusal::Constant));
        }
        self.leave_out(name);
        Ok(true)
    }

    pub(crate) fn add_fact(
        &mut self,
        expert: &Expert,
        fact: Fact,
    ) -> Result<bool, Failure<EditRefusal>>
        ensures { Edits expert.now (AddFact fact) self.old result self.new }
    {
        if let Some(fault) = fact_fault(&*self, expert, &fact) {
            return Err(Failure::Refused(fault));
        }
        let added = self.facts.insert(fact)?;
        Ok(added)
    }

    pub(crate) fn remove_fact(
        &mut self,
        expert: &Expert,
        fact: Fact,
    ) -> Result<bool, Failure<EditRefusal>>
        ensures { Edits expert.now (RemoveFact fact) self.old result self.new }
    {
        if let Some(fault) = fact_fault(&*self, expert, &fact) {
            return Err(Failure::Refused(fault));
        }
        if !self.facts.remove(&fact) {
            return Err(Failure::Refused(EditRefusal::NoFact));
        }
        Ok(true)
    }

    pub(crate) fn set_value(
        &mut self,
        expert: &Expert,
        fact: Fact,
        number: Num,
    ) -> Result<bool, Failure<EditRefusal>>
        ensures { Edits expert.now (SetValue fact number) self.old result self.new }
    {
        if let Some(fault) = value_fault(&*self, expert, &fact) {
            return Err(Failure::Refused(fault));
        }
        let held = self.values.insert(fact, number)?;
        Ok(!is_held(held, number))
    }

    pub(crate) fn remove_value(
        &mut self,
        expert: &Expert,
        fact: Fact,
    ) -> Result<bool, Failure<EditRefusal>>
        ensures { Edits expert.now (RemoveValue fact) self.old result self.new }
    {
        if let Some(fault) = value_fault(&*self, expert, &fact) {
            return Err(Failure::Refused(fault));
        }
        if !self.values.remove(&fact) {
            return Err(Failure::Refused(EditRefusal::NoValue));
        }
        Ok(true)
    }

    pub(crate) fn set_goal(
        &mut self,
        expert: &Expert,
        goal: &Goal,
    ) -> Result<bool, Failure<EditRefusal>>
        ensures { Edits expert.now (SetGoal goal.now) self.old result self.new }
    {
        if let Some(fault) = cond_fault(&*self, expert, goal.get()) {
            return Err(Failure::Refused(fault));
        }
        if self.has_goal(goal) {
            return Ok(false);
        }
        self.goal = Some(goal.copy(self.alloc)?);
        Ok(true)
    }

    pub(crate) fn remove_goal(&mut self, expert: &Expert) -> Result<bool, Failure<EditRefusal>>
        ensures { Edits expert.now RemoveGoal self.old result self.new }
    {
        if self.goal.is_none() {
            return Err(Failure::Refused(EditRefusal::NoGoal));
        }
        self.goal = None;
        Ok(true)
    }

    /// Whether this is the goal.
    fn has_goal(&self, goal: &Goal) -> bool
        ensures { IsTrue result ↔ (self.now.goal ≡ Some goal.now) }
    {
        match &self.goal {
            None => false,
            Some(there) => there == goal,
        }
    }
}

/// Whether the value that a function had is this number.
fn is_held(held: Option<Num>, number: Num) -> bool
    ensures { IsTrue result ↔ (held ≡ Some number) }
{
    match held {
        Some(there) => there == number,
        None => false,
    }
}
