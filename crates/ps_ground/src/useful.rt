//! The acts that are worth a try.
ghost use Rattle.std.specs.Prelude.{◌≡◌, ◌+◌, ◌++◌, ◌<◌, ◌≤◌, false, flat_map, length, option_to_list, IfOk, MatchOption, OnOk};
ghost use Rattle.std.specs.List.{list_any};
ghost use Rattle.std.specs.Result.{result_ok};
ghost use Rattle.ps_world.specs.Knowledge.{same_fact};
ghost use Rattle.ps_world.specs.declared.facts.Fact.{Fact as FactView};
ghost use Rattle.ps_action.specs.Grounding.{all_ground, ground_act, most_ground};
ghost use Rattle.ps_ground.specs.Atoms.{AreAtoms, adds};
ghost use Rattle.ps_ground.specs.Fitting.{AreFit, grounds_of};
ghost use Rattle.ps_ground.specs.Fixed.{AreFixed, possible_facts};
ghost use Rattle.ps_ground.specs.Grounded.{AreUseful};
ghost use Rattle.ps_ground.specs.Moves.{Node, moves};

use super::acts::all_acts;
use super::fits::{is_fit, stand_once};
use super::fixed::Fixed;
use ps_action::Act;
use ps_domain::Expert;
use ps_problem::Problem;
use ps_world::Name;
use std::alloc::{AllocError, Global};

/// Puts an act at the end, unless it can't be grounded.
fn push_useful(
    expert: &Expert,
    problem: &Problem,
    act: &Act,
    useful: &mut Vec<Act>,
) -> Result<(), AllocError>
    requires { AreFit expert.now problem.now useful.old.items }
    ensures moves { OnOk result ((n : Node)
        → moves expert.now problem.now (grounds_of expert.now problem.now useful.new.items) n
        ≡ moves expert.now problem.now (grounds_of expert.now problem.now useful.old.items) n
        ++ moves expert.now problem.now
        (option_to_list (result_ok (ground_act expert.now problem.now.instances act.now))) n) }
    ensures adds { OnOk result ((f : FactView)
        → list_any (same_fact f)
        (flat_map (adds expert.now problem.now) (grounds_of expert.now problem.now useful.old.items)) ≡ false
        → list_any (same_fact f) (flat_map (adds expert.now problem.now)
        (option_to_list (result_ok (ground_act expert.now problem.now.instances act.now))))
        ≡ false
        → list_any (same_fact f)
        (flat_map (adds expert.now problem.now) (grounds_of expert.now problem.now useful.new.items)) ≡ false) }
    ensures fit { OnOk result (AreFit expert.now problem.now useful.new.items) }
    ensures count { OnOk result (length useful.new.items ≤ length useful.old.items + 1) }
{
    if !is_fit(expert, problem, act) {
        return Ok(());
    }
    useful.push(*act)?;
    Ok(())
}

/// Acts whose ground actions lead to the same nodes as those of these acts, without those that can't be grounded: an act says its
/// action by its name alone, so that of two actions with one name it means the first.
fn useful_of(
    alloc: Global,
    expert: &Expert,
    problem: &Problem,
    acts: &[Act],
) -> Result<Vec<Act>, AllocError>
    ensures moves { IfOk result (λ v. (n : Node)
        → moves expert.now problem.now (grounds_of expert.now problem.now v.items) n
        ≡ moves expert.now problem.now (grounds_of expert.now problem.now acts.now) n) }
    ensures adds { IfOk result (λ v. AreAtoms
        (flat_map (adds expert.now problem.now) (grounds_of expert.now problem.now acts.now))
        (flat_map (adds expert.now problem.now) (grounds_of expert.now problem.now v.items))) }
    ensures fit { IfOk result (λ v. AreFit expert.now problem.now v.items) }
    ensures count { IfOk result (λ v. length v.items ≤ length acts.now) }
{
    let mut useful = Vec::with_capacity(alloc, acts.len())?;
    for act in acts {
        push_useful(expert, problem, act, &mut useful)?;
    }
    Ok(useful)
}

/// As `useful_acts`, by these fixed facts.
fn useful_by(
    alloc: Global,
    expert: &Expert,
    problem: &Problem,
    instances: &[(Name, Name)],
    fixed: &Fixed,
) -> Result<Option<Vec<Act>>, AllocError>
    requires instances { instances.now ≡ problem.now.instances }
    requires fixed { AreFixed fixed.now.heads.keys fixed.now.facts
        (possible_facts expert.now problem.now) }
    ensures { IfOk result (λ acts. MatchOption acts
        (most_ground < length (all_ground expert.now problem.now.instances))
        (λ v. AreUseful expert.now problem.now v.items)) }
{
    let Some(acts) = all_acts(alloc, expert, fixed, instances)? else {
        return Ok(None);
    };
    // Then their arguments fit, since they were chosen so.
    if stand_once(expert, instances) {
        return Ok(Some(acts));
    }
    let useful = useful_of(alloc, expert, problem, acts.as_slice())?;
    Ok(Some(useful))
}

/// The acts that may lead somewhere from a state that may be reached, in the order of the domain's text and of their arguments. None
/// exactly where there are more than 50,000 ground actions.
pub fn useful_acts(
    alloc: Global,
    expert: &Expert,
    problem: &Problem,
    instances: &[(Name, Name)],
) -> Result<Option<Vec<Act>>, AllocError>
    requires { instances.now ≡ problem.now.instances }
    ensures { IfOk result (λ acts. MatchOption acts
        (most_ground < length (all_ground expert.now problem.now.instances))
        (λ v. AreUseful expert.now problem.now v.items)) }
{
    let fixed = Fixed::of(alloc, expert, problem)?;
    useful_by(alloc, expert, problem, instances, &fixed)
}
