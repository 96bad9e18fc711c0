//! The ground actions of a problem.
ghost use Rattle.std.specs.Prelude.{◌≡◌, ◌++◌, ◌<◌, flat_map, length, IfOk, MatchOption};
ghost use Rattle.std.specs.List.{list_any};
ghost use Rattle.ps_world.specs.Knowledge.{same_fact};
ghost use Rattle.ps_world.specs.declared.facts.Fact.{Fact as FactView};
ghost use Rattle.ps_action.specs.Grounding.{all_ground, most_ground};
ghost use Rattle.ps_ground.specs.Atoms.{adds};
ghost use Rattle.ps_ground.specs.Fitting.{AreFit, grounds_of};
ghost use Rattle.ps_ground.specs.Grounded.{AreGrounded, AreUseful};

use super::atoms::{Atoms, facts_added};
use super::prepared::{Prepared, prepare_all};
use super::useful::useful_acts;
use ps_action::Act;
use ps_domain::Expert;
use ps_problem::Problem;
use ps_world::Name;
use std::alloc::{AllocError, Global};

/// The ground actions of a problem, prepared, without those that lead nowhere, and the atoms that they are over.
#[derive(Drop)]
pub struct Grounds {
    pub atoms: Atoms,
    /// In the order of the acts. A ground action is told by its place.
    pub actions: Vec<Prepared>,
}

/// The atoms of a search by these acts from what is known: the facts that are known at first, and those that an act may add.
fn atoms_of(
    alloc: Global,
    expert: &Expert,
    problem: &Problem,
    acts: &[Act],
) -> Result<Atoms, AllocError>
    requires { AreFit expert.now problem.now acts.now }
    ensures { IfOk result (λ atoms. (f : FactView) → list_any (same_fact f) atoms
        ≡ list_any (same_fact f)
        (problem.now.facts ++ flat_map (adds expert.now problem.now) (grounds_of expert.now problem.now acts.now))) }
{
    let facts = problem.facts()?;
    let added = facts_added(alloc, expert, problem, acts)?;
    Atoms::of(alloc, &facts, &added)
}

impl Grounds {
    /// Those of these acts.
    fn of_acts(
        alloc: Global,
        expert: &Expert,
        problem: &Problem,
        instances: &[(Name, Name)],
        acts: &[Act],
    ) -> Result<Grounds, AllocError>
        requires instances { instances.now ≡ problem.now.instances }
        requires acts { AreUseful expert.now problem.now acts.now }
        ensures { IfOk result (λ made. AreGrounded expert.now problem.now made.atoms made.actions.items) }
    {
        let atoms = atoms_of(alloc, expert, problem, acts)?;
        let actions = prepare_all(alloc, expert, problem, &atoms, instances, acts)?;
        Ok(Grounds { atoms, actions })
    }

    /// Those of these instances, as `of`.
    fn of_instances(
        alloc: Global,
        expert: &Expert,
        problem: &Problem,
        instances: &[(Name, Name)],
    ) -> Result<Option<Grounds>, AllocError>
        requires { instances.now ≡ problem.now.instances }
        ensures { IfOk result (λ grounds. MatchOption grounds
            (most_ground < length (all_ground expert.now problem.now.instances))
            (λ made. AreGrounded expert.now problem.now made.atoms made.actions.items)) }
    {
        match useful_acts(alloc, expert, problem, instances)? {
            Some(acts) => Ok(Some(Grounds::of_acts(
                alloc,
                expert,
                problem,
                instances,
                acts.as_slice(),
            )?)),
            None => Ok(None),
        }
    }

    /// The ground actions that lead somewhere. None exactly where there are more than 50,000 with those that lead nowhere.
    pub fn of(
        alloc: Global,
        expert: &Expert,
        problem: &Problem,
    ) -> Result<Option<Grounds>, AllocError>
        ensures { IfOk result (λ grounds. MatchOption grounds
            (most_ground < length (all_ground expert.now problem.now.instances))
            (λ made. AreGrounded expert.now problem.now made.atoms made.actions.items)) }
    {
        let instances = problem.instances()?;
        Grounds::of_instances(alloc, expert, problem, &instances)
    }
}
