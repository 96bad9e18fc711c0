//! Which atoms of the goal are out of reach.
ghost use Rattle.std.specs.Prelude.{◌≡◌, Bool, None, filter, map, true, IfOk};
ghost use Rattle.ps_world.specs.Knowledge.{is_known};
ghost use Rattle.ps_closing.specs.Closing.{AreClosed};
ghost use Rattle.ps_world.specs.declared.facts.Fact.{Fact as FactView};
ghost use Rattle.ps_action.specs.Grounding.{all_ground};
ghost use Rattle.ps_marks.specs.Closures.{closure, is_in};
ghost use Rattle.ps_marks.specs.Landmarks.{goal_atoms, out_of_reach};
ghost use Rattle.ps_marks.specs.Marking.{GivesUnreached, IsUnset};
ghost use Rattle.ps_marks.specs.Rules.{AllIn, AreRules, Mirror};

use super::asked::{all_asked, goal_atoms};
use super::places::Places;
use super::rules::{place_in, rules_of};
use ps_action::{GroundAction, Known};
use ps_closing::{Rule, Rules, all_set};
use ps_domain::{Expert, GroundAllRefusal};
use ps_problem::Problem;
use ps_world::{Fact, Failure};
use std::alloc::{AllocError, Global};

/// Whether the place of a fact isn't set.
fn is_unset(places: &Places, flags: &[bool], fact: &Fact) -> bool
    requires { is_in places.now fact.now ≡ true }
    ensures { IsUnset places.now flags.now fact.now result }
{
    let at = place_in(places, fact);
    !all_set(flags, &[at])
}

/// Those of these facts whose places aren't set.
fn unset_of(
    alloc: Global,
    places: &Places,
    flags: &[bool],
    facts: &[Fact],
) -> Result<Vec<Fact>, AllocError>
    requires { AllIn places.now facts.now }
    ensures { IfOk result (λ unset. (p : FactView → Bool)
        → ((f : FactView) (b : Bool) → IsUnset places.now flags.now f b → p f ≡ b)
        → unset.items ≡ filter p facts.now) }
{
    let mut unset = Vec::new(alloc);
    for fact in facts {
        let missing = is_unset(places, flags, fact);
        if missing {
            unset.push(*fact)?;
        }
    }
    Ok(unset)
}

/// The atoms of the goal whose places aren't set by the flags of the closure with nothing left out.
fn unreached_with(
    expert: &Expert,
    problem: &Problem,
    places: &Places,
    flags: &[bool],
) -> Result<Vec<Fact>, AllocError>
    requires goal { AllIn places.now (goal_atoms problem.now.goal) }
    requires flags { Mirror places.now flags.now (closure expert.now problem.now None) }
    ensures { IfOk result (λ facts. facts.items ≡ out_of_reach expert.now problem.now) }
{
    let _domain = expert.domain();
    let alloc = problem.allocator();
    let asked = goal_atoms(alloc, problem.goal())?;
    let facts = unset_of(alloc, places, flags, asked.as_slice())?;
    Ok(facts)
}

/// The same, by what the rules of all ground actions make of the flags of what is known.
fn unreached_after(
    expert: &Expert,
    problem: &Problem,
    places: &Places,
    actions: &[GroundAction],
    start: &[bool],
    rules: Rules,
    flags: &[bool],
) -> Result<Vec<Fact>, AllocError>
    requires actions { actions.now ≡ all_ground expert.now problem.now.instances }
    requires goal { AllIn places.now (goal_atoms problem.now.goal) }
    requires rules { AreRules expert.now problem.now places.now actions.now rules }
    requires start { start.now ≡ map (is_known problem.now) places.now }
    requires closed { AreClosed None rules start.now flags.now }
    ensures { IfOk result (λ facts. facts.items ≡ out_of_reach expert.now problem.now) }
{
    let _facts = places.as_slice();
    unreached_with(expert, problem, places, flags)
}

/// The same, by the rules of all ground actions over the places of all atoms.
fn unreached_by(
    expert: &Expert,
    problem: &Problem,
    places: &Places,
    actions: &[GroundAction],
    rules: Vec<Rule>,
) -> Result<Vec<Fact>, AllocError>
    requires actions { actions.now ≡ all_ground expert.now problem.now.instances }
    requires goal { AllIn places.now (goal_atoms problem.now.goal) }
    requires rules { AreRules expert.now problem.now places.now actions.now rules.items }
    ensures { IfOk result (λ facts. facts.items ≡ out_of_reach expert.now problem.now) }
{
    let alloc = problem.allocator();
    let start = places.flags(alloc, problem)?;
    let rules = Rules::of(alloc, rules, start.len())?;
    let flags = rules.close(alloc, None, &start)?;
    unreached_after(expert, problem, places, actions, &start, rules, &flags)
}

/// The same, by these ground actions, which are all.
fn unreached_among(
    expert: &Expert,
    problem: &Problem,
    actions: &[GroundAction],
) -> Result<Vec<Fact>, AllocError>
    requires { actions.now ≡ all_ground expert.now problem.now.instances }
    ensures { IfOk result (λ facts. facts.items ≡ out_of_reach expert.now problem.now) }
{
    let alloc = problem.allocator();
    let asked = all_asked(alloc, actions, problem.goal())?;
    let places = Places::of(alloc, &asked)?;
    let rules = rules_of(alloc, expert, problem, &places, actions)?;
    unreached_by(expert, problem, &places, actions, rules)
}

/// The atoms of the goal that no acts could ever make true, even if nothing were deleted and nothing but atoms were asked for, in the order of its
/// text. There are none where there is no goal.
///
/// `TooMany` where there are more than 50,000 ground actions, which is found before any is made.
pub fn out_of_reach(
    expert: &Expert,
    problem: &Problem,
) -> Result<Vec<Fact>, Failure<GroundAllRefusal>>
    ensures { GivesUnreached expert.now problem.now result }
{
    let actions = expert.ground_all(Known::instances(problem))?;
    Ok(unreached_among(expert, problem, &actions)?)
}
