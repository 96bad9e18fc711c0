//! Landmarks.
ghost use Rattle.std.specs.Prelude.{◌≡◌, Bool, None, true, filter, length, map, All, IfOk};
ghost use Rattle.ps_world.specs.Knowledge.{is_known};
ghost use Rattle.ps_world.specs.declared.facts.Fact.{Fact as FactView};
ghost use Rattle.ps_action.specs.Grounding.{all_ground};
ghost use Rattle.ps_closing.specs.Closing.{AreClosed, FitsIn, is_ready};
ghost use Rattle.ps_marks.specs.Candidates.{unknown};
ghost use Rattle.ps_marks.specs.Closures.{is_in};
ghost use Rattle.ps_marks.specs.Landmarks.{candidates, goal_atoms, goal_marks, landmarks};
ghost use Rattle.ps_marks.specs.Marking.{CloseWithout, GivesLandmarks, IsMissed};
ghost use Rattle.ps_marks.specs.Rules.{AllIn, AreRules};

use super::asked::{all_asked, goal_atoms};
use super::candidates::candidates;
use super::places::Places;
use super::rules::{places_of, rules_of};
use ps_action::{GroundAction, Known};
use ps_closing::{Rule, Rules, all_set, is_used};
use ps_domain::{Expert, GroundAllRefusal};
use ps_problem::Problem;
use ps_world::{Fact, Failure};
use std::alloc::{AllocError, Global};

/// Whether a place of the goal isn't set by these rules where a fact is left out.
fn is_missed(
    alloc: Global,
    places: &Places,
    start: &[bool],
    rules: &Rules,
    goal: &[usize],
    fact: &Fact,
) -> Result<bool, AllocError>
    requires rules { All (FitsIn (length start.now)) rules.now }
    ensures { IfOk result (IsMissed places.now start.now rules.now goal.now fact.now) }
{
    let flags = rules.close(alloc, places.place_of(fact), start)?;
    Ok(!all_set(&flags, goal))
}

/// Those of these facts that a place of the goal isn't set without.
fn missed_of(
    alloc: Global,
    places: &Places,
    start: &[bool],
    rules: &Rules,
    goal: &[usize],
    facts: &[Fact],
) -> Result<Vec<Fact>, AllocError>
    requires { All (FitsIn (length start.now)) rules.now }
    ensures { IfOk result (λ missed. (p : FactView → Bool)
        → ((f : FactView) (b : Bool) → is_in facts.now f ≡ true
        → IsMissed places.now start.now rules.now goal.now f b → p f ≡ b)
        → missed.items ≡ filter p facts.now) }
{
    let mut missed = Vec::new(alloc);
    for fact in facts {
        let missing = is_missed(alloc, places, start, rules, goal, fact)?;
        if missing {
            missed.push(*fact)?;
        }
    }
    Ok(missed)
}

/// The landmarks among these candidates, by rules that give the closure without each.
fn landmarks_with(
    alloc: Global,
    expert: &Expert,
    problem: &Problem,
    places: &Places,
    start: &[bool],
    rules: &Rules,
    found: &[Fact],
) -> Result<Vec<Fact>, AllocError>
    requires goal { AllIn places.now (goal_atoms problem.now.goal) }
    requires fits { All (FitsIn (length start.now)) rules.now }
    requires rules { CloseWithout expert.now problem.now places.now start.now rules.now }
    requires candidates { found.now ≡ candidates expert.now problem.now }
    ensures { IfOk result (λ marks. marks.items ≡ landmarks expert.now problem.now) }
{
    let asked = goal_atoms(alloc, problem.goal())?;
    let at = places_of(alloc, places, asked.as_slice())?;
    let marks = missed_of(alloc, places, start, rules, at.as_slice(), found)?;
    Ok(marks)
}

/// Leaves rules out that aren't ready where nothing is left out. They aren't ready without a fact either.
fn keep_used(rules: &mut Vec<Rule>, flags: &[bool])
    ensures { rules.new.items ≡ filter (is_ready None flags.now) rules.old.items }
{
    rules.retain(|rule| is_used(flags, rule));
}

/// The rules that are ready where nothing is left out.
fn used_of(alloc: Global, rules: Rules, flags: &[bool]) -> Result<Rules, AllocError>
    requires { All (FitsIn (length flags.now)) rules }
    ensures { IfOk result (λ used. used ≡ filter (is_ready None flags.now) rules) }
{
    let mut rules = rules.into_vec();
    keep_used(&mut rules, flags);
    Rules::of(alloc, rules, flags.len())
}

/// The landmarks, by the flags of the closure with nothing left out.
fn landmarks_after(
    expert: &Expert,
    problem: &Problem,
    places: &Places,
    actions: &[GroundAction],
    start: &[bool],
    rules: Rules,
    flags: &[bool],
) -> Result<Vec<Fact>, AllocError>
    requires actions { actions.now ≡ all_ground expert.now problem.now.instances }
    requires goal { AllIn places.now (goal_atoms problem.now.goal) }
    requires rules { AreRules expert.now problem.now places.now actions.now rules }
    requires start { start.now ≡ map (is_known problem.now) places.now }
    requires closed { AreClosed None rules start.now flags.now }
    ensures { IfOk result (λ marks. marks.items ≡ landmarks expert.now problem.now) }
{
    let alloc = problem.allocator();
    let _facts = places.as_slice();
    let found = candidates(
        alloc,
        expert,
        problem,
        places,
        actions,
        rules.as_slice(),
        flags,
    )?;
    let used = used_of(alloc, rules, flags)?;
    landmarks_with(alloc, expert, problem, places, start, &used, &found)
}

/// The landmarks, by the rules of all ground actions over the places of all atoms.
fn landmarks_by(
    expert: &Expert,
    problem: &Problem,
    places: &Places,
    actions: &[GroundAction],
    rules: Vec<Rule>,
) -> Result<Vec<Fact>, AllocError>
    requires actions { actions.now ≡ all_ground expert.now problem.now.instances }
    requires goal { AllIn places.now (goal_atoms problem.now.goal) }
    requires rules { AreRules expert.now problem.now places.now actions.now rules.items }
    ensures { IfOk result (λ marks. marks.items ≡ landmarks expert.now problem.now) }
{
    let alloc = problem.allocator();
    let start = places.flags(alloc, problem)?;
    let rules = Rules::of(alloc, rules, start.len())?;
    let flags = rules.close(alloc, None, &start)?;
    landmarks_after(expert, problem, places, actions, &start, rules, &flags)
}

/// The landmarks among these ground actions, which are all.
fn landmarks_among(
    expert: &Expert,
    problem: &Problem,
    actions: &[GroundAction],
) -> Result<Vec<Fact>, AllocError>
    requires { actions.now ≡ all_ground expert.now problem.now.instances }
    ensures { IfOk result (λ marks. marks.items ≡ landmarks expert.now problem.now) }
{
    let alloc = problem.allocator();
    let asked = all_asked(alloc, actions, problem.goal())?;
    let places = Places::of(alloc, &asked)?;
    let rules = rules_of(alloc, expert, problem, &places, actions)?;
    landmarks_by(expert, problem, &places, actions, rules)
}

/// The facts without which the goal is out of reach, among the first 200 that could be known and aren't, in their order. There are none where
/// there is no goal.
///
/// `TooMany` where there are more than 50,000 ground actions, which is found before any is made.
pub fn landmarks(expert: &Expert, problem: &Problem) -> Result<Vec<Fact>, Failure<GroundAllRefusal>>
    ensures { GivesLandmarks expert.now problem.now result }
{
    let actions = expert.ground_all(Known::instances(problem))?;
    Ok(landmarks_among(expert, problem, &actions)?)
}

/// Those of these facts that aren't known.
fn unknown_of(alloc: Global, problem: &Problem, facts: &[Fact]) -> Result<Vec<Fact>, AllocError>
    ensures { IfOk result (λ some. some.items ≡ unknown problem.now facts.now) }
{
    let mut some = Vec::new(alloc);
    for fact in facts {
        if !problem.has(fact) {
            some.push(*fact)?;
        }
    }
    Ok(some)
}

/// The atoms of the goal that aren't known, each once, in the order of its text. There are none where there is no goal.
pub fn goal_marks(problem: &Problem) -> Result<Vec<Fact>, AllocError>
    ensures { IfOk result (λ marks. marks.items ≡ goal_marks problem.now) }
{
    let alloc = problem.allocator();
    let asked = goal_atoms(alloc, problem.goal())?;
    let places = Places::of(alloc, asked.as_slice())?;
    let marks = unknown_of(alloc, problem, places.as_slice())?;
    Ok(marks)
}
