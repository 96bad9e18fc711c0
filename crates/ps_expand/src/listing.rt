//! The ground actions of a problem, each tried on what is known.
ghost use Rattle.std.specs.Prelude.{◌≡◌, Some, filter_map, option_map, map, IfOk, IsSome};
ghost use Rattle.std.specs.List.Sorted.{IsStrictlySortedBy};
ghost use Rattle.std.specs.Result.{result_ok};
ghost use Rattle.ps_world.specs.Facts.{fact_cmp};
ghost use Rattle.ps_world.specs.Failures.{Gives};
ghost use Rattle.ps_action.specs.Grounding.{all_ground, ground_act};
ghost use Rattle.ps_action.specs.Plans.{step_of};
ghost use Rattle.ps_domain.specs.Grounding.{listed};
ghost use Rattle.ps_problem.specs.Patches.{changed};
ghost use Rattle.ps_expand.specs.Children.{child_of, success};
ghost use Rattle.ps_expand.specs.Attempts.{finished};
ghost use Rattle.ps_expand.specs.Listing.{AreListed, listed_prop};

use crate::during::During;
use crate::expanding::Child;
use crate::joining::joined;
use ps_action::{Act, GroundAction, all_true, fault_of_flat, unfold, values_of_flat};
use ps_domain::{Expert, GroundAllRefusal};
use ps_problem::{Change, Problem};
use ps_world::{Cond, Duplicate, Effect, Fact, Failure, Name, Num};
use std::alloc::{AllocError, Global};

/// All ground actions among some instances, and a goal.
#[derive(Drop)]
pub struct Listing<'a> {
    pub expert: &'a Expert,
    pub instances: Vec<(Name, Name)>,
    pub goal: Cond,
    pub actions: Vec<GroundAction>,
    ghost listed: { AreListed expert.now instances.items actions.items } by { listed_prop },
}

/// The ground action of an act, if it can be grounded.
fn grounded(
    expert: &Expert,
    instances: &[(Name, Name)],
    act: &Act,
) -> Result<Option<GroundAction>, AllocError>
    ensures { IfOk result (λ made. made
        ≡ result_ok (ground_act expert.now instances.now act.now)) }
{
    match expert.ground(instances, act) {
        Ok(ground) => Ok(Some(ground)),
        Err(Failure::Refused(_)) => Ok(None),
        Err(Failure::OutOfMemory) => Err(AllocError),
    }
}

/// The ground actions of the acts of these, as far as they can be grounded: an act says its action by its name alone, so that of two
/// actions with one name it means the first.
fn grounded_again(
    alloc: Global,
    expert: &Expert,
    instances: &[(Name, Name)],
    all: &[GroundAction],
) -> Result<Vec<GroundAction>, AllocError>
    ensures { IfOk result (λ v. v.items ≡ filter_map
        (λ act. result_ok (ground_act expert.now instances.now act)) (map (λ g. g.act) all.now)) }
{
    let mut actions = Vec::with_capacity(alloc, all.len())?;
    for action in all {
        if let Some(ground) = grounded(expert, instances, &action.act)? {
            actions.push(ground)?;
        }
    }
    Ok(actions)
}

/// All ground actions among some instances. `TooMany` where there are more than 50,000.
fn actions_among(
    alloc: Global,
    expert: &Expert,
    instances: &[(Name, Name)],
) -> Result<Vec<GroundAction>, Failure<GroundAllRefusal>>
    ensures gives { Gives (λ _. all_ground expert.now instances.now) result
        (listed expert.now instances.now) }
    ensures listed { IfOk result (λ v. AreListed expert.now instances.now v.items) }
{
    let all = expert.ground_all(instances)?;
    Ok(grounded_again(alloc, expert, instances, &all)?)
}

impl<'a> Listing<'a> {
    /// Those of a problem with its goal. `TooMany` where there are more than 50,000.
    pub fn of(
        expert: &'a Expert,
        problem: &Problem,
    ) -> Result<Listing<'a>, Failure<GroundAllRefusal>>
        requires { IsSome problem.now.goal }
        ensures gives { Gives (λ _. all_ground expert.now problem.now.instances) result
            (listed expert.now problem.now.instances) }
        ensures domain { IfOk result (λ l. l.expert.now ≡ expert.now) }
        ensures instances { IfOk result (λ l. l.instances.items ≡ problem.now.instances) }
        ensures goal { IfOk result (λ l. problem.now.goal ≡ Some l.goal) }
    {
        let Some(goal) = problem.goal() else {
            unreachable!()
        };
        let alloc = problem.allocator();
        let instances = problem.instances()?;
        let actions = actions_among(alloc, expert, &instances)?;
        Ok(Listing {
            expert,
            instances,
            goal: goal.copy(alloc)?,
            actions,
        })
    }

    /// The change that the end of a ground action makes after its start, which made these effects with these values, unless a part of it
    /// fails.
    fn finish(
        &self,
        problem: &Problem,
        action: &GroundAction,
        starts: &[Effect],
        ready: &[(Fact, Num)],
    ) -> Result<Option<Change>, AllocError>
        ensures { IfOk result (λ change. change
            ≡ finished self.now.expert.now problem.now action.now starts.now ready.now) }
    {
        let alloc = problem.allocator();
        let during = During {
            before: problem,
            effects: starts,
            ready,
        };
        if !all_true(&during, self.expert, &action.conditions.over_all) {
            return Ok(None);
        }
        if !all_true(&during, self.expert, &action.conditions.at_end) {
            return Ok(None);
        }
        let ends = unfold(
            alloc,
            &during,
            self.expert,
            action.effects.at_end.as_slice(),
        )?;
        if fault_of_flat(&during, &ends).is_some() {
            return Ok(None);
        }
        let last = values_of_flat(alloc, &during, &ends)?;
        let change = joined(alloc, starts, ready, &ends, &last)?;
        Ok(Some(change))
    }

    /// The change that a step of a ground action makes, unless a part of it fails.
    fn attempt(
        &self,
        problem: &Problem,
        action: &GroundAction,
    ) -> Result<Option<Change>, AllocError>
        requires { IsStrictlySortedBy fact_cmp problem.now.facts }
        ensures { IfOk result (λ change. option_map (changed problem.now) change
            ≡ result_ok (step_of self.now.expert.now problem.now 0 action.now)) }
    {
        let alloc = problem.allocator();
        if !all_true(problem, self.expert, &action.conditions.at_start) {
            return Ok(None);
        }
        let starts = unfold(
            alloc,
            problem,
            self.expert,
            action.effects.at_start.as_slice(),
        )?;
        if fault_of_flat(problem, &starts).is_some() {
            return Ok(None);
        }
        let ready = values_of_flat(alloc, problem, &starts)?;
        self.finish(problem, action, &starts, &ready)
    }

    /// The child of a ground action, unless a part of its step fails.
    fn child(&self, problem: &Problem, action: &GroundAction) -> Result<Option<Child>, AllocError>
        requires { IsStrictlySortedBy fact_cmp problem.now.facts }
        ensures { IfOk result (λ child. option_map (child_of problem.now) child
            ≡ success self.now.expert.now problem.now action.now) }
    {
        match self.attempt(problem, action)? {
            Some(change) => Ok(Some(Child {
                act: action.act,
                change,
            })),
            None => Ok(None),
        }
    }

    /// One child for each ground action whose step succeeds, in their order.
    pub fn children(&self, problem: &Problem) -> Result<Vec<Child>, AllocError>
        ensures { IfOk result (λ cs. map (child_of problem.now) cs.items
            ≡ filter_map (success self.now.expert.now problem.now) self.now.actions.items) }
    {
        // The facts say with their list that they rise.
        let _facts = problem.facts()?;
        let mut children = Vec::new(problem.allocator());
        for action in &self.actions {
            if let Some(child) = self.child(problem, action)? {
                children.push(child)?;
            }
        }
        Ok(children)
    }
}
