//! Changes of what is known, all of it or nothing.
ghost use Rattle.std.specs.Prelude.{◌≡◌, ◌≢◌, ◌↔◌, unwrap_or, IfOk, OnOk, OnErr, IsTrue};
ghost use Rattle.ps_problem.specs.Patches.{changed, instances_after};

use super::Problem;
use super::instances::Instances;
use crate::change::Change;
use ps_world::{Duplicate, Goal};
use std::alloc::{AllocError, Global};

impl Problem {
    /// Makes a change: takes out what goes, then puts in what comes, and sets the goal or removes it, if the change says so. Of what comes
    /// twice the last counts. Answers whether anything changed. Where memory runs out nothing has changed.
    pub fn patch(&mut self, change: &Change) -> Result<bool, AllocError>
        ensures ok { OnOk result (self.new ≡ changed self.old change.now) }
        ensures changed { IfOk result (λ changed. IsTrue changed ↔ (self.new ≢ self.old)) }
        ensures err { OnErr result (self.new ≡ self.old) }
    {
        let instances = self.patched_instances(change)?;
        let goal = copied(self.alloc, &change.goal)?;
        let known = self.put_known(
            change.adds.as_slice(),
            change.deletes.as_slice(),
            change.values.as_slice(),
            change.gone.as_slice(),
        )?;
        let other = self.take_instances(instances);
        let another = self.take_goal(goal);
        Ok(known | other | another)
    }

    /// The instances after a change. None where it changes none.
    fn patched_instances(&self, change: &Change) -> Result<Option<Instances>, AllocError>
        ensures { IfOk result (λ next. unwrap_or next self.now.instances
            ≡ instances_after self.now.instances change.now.instances_out change.now.instances_in) }
    {
        self.instances.patched(
            change.instances_out.as_slice(),
            change.instances_in.as_slice(),
        )
    }

    /// Takes these instances in place of its own, if there are some, and answers whether they are others.
    fn take_instances(&mut self, next: Option<Instances>) -> bool
        ensures new { self.new ≡ record self.old { instances = unwrap_or next self.old.instances } }
        ensures changed { IsTrue result ↔ (self.new ≢ self.old) }
    {
        match next {
            None => false,
            Some(next) => {
                let differs = !self.instances.is_same(&next);
                self.instances = next;
                differs
            }
        }
    }

    /// Takes this goal in place of its own, if it is told one or that there is none, and answers whether it is another.
    fn take_goal(&mut self, next: Option<Option<Goal>>) -> bool
        ensures new { self.new ≡ record self.old { goal = unwrap_or next self.old.goal } }
        ensures changed { IsTrue result ↔ (self.new ≢ self.old) }
    {
        match next {
            None => false,
            Some(next) => {
                let differs = !is_same(&self.goal, &next);
                self.goal = next;
                differs
            }
        }
    }
}

/// An equal goal.
fn copied(alloc: Global, goal: &Option<Option<Goal>>) -> Result<Option<Option<Goal>>, AllocError>
    ensures { IfOk result (λ copy. copy ≡ goal.now) }
{
    match goal {
        None => Ok(None),
        Some(None) => Ok(Some(None)),
        Some(Some(goal)) => Ok(Some(Some(goal.copy(alloc)?))),
    }
}

/// Whether two goals are the same.
fn is_same(one: &Option<Goal>, other: &Option<Goal>) -> bool
    ensures { IsTrue result ↔ (one.now ≡ other.now) }
{
    match (one, other) {
        (None, None) => true,
        (Some(one), Some(other)) => one == other,
        _ => false,
    }
}
