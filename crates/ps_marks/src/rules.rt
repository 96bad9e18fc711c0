//! Rules of ground actions.
ghost use Rattle.std.specs.Prelude.{◌≡◌, ◌++◌, [], ◌∷◌, Some, true, filter, flat_map, length, not, slice_get, All, IfOk, OnOk};
ghost use Rattle.ps_marks.specs.Atoms.{atoms_of};
ghost use Rattle.ps_closing.specs.Closing.{FitsIn};
ghost use Rattle.ps_marks.specs.Closures.{is_in};
ghost use Rattle.ps_marks.specs.Making.{adds_of, facts_made, made_by};
ghost use Rattle.ps_marks.specs.Rules.{AllIn, ArePlaces, AreRules, IsRuleOf, TakesPlaces, asked, later_atoms, needed, own};

use super::asked::{later_atoms, push_all_atoms};
use super::making::{Made, adds_of, can_make, one_can_make};
use super::places::Places;
use ps_action::GroundAction;
use ps_closing::Rule;
use ps_domain::Expert;
use ps_problem::Problem;
use ps_world::Fact;
use std::alloc::{AllocError, Global};

// ---- what a ground action needs

/// The place of a fact that has one.
pub fn place_in(places: &Places, fact: &Fact) -> usize
    requires { is_in places.now fact.now ≡ true }
    ensures { slice_get places.now result ≡ Some fact.now }
{
    let Some(place) = places.place_of(fact) else {
        unreachable!()
    };
    place
}

/// The places of these facts, each of which has one.
pub fn places_of(alloc: Global, places: &Places, facts: &[Fact]) -> Result<Vec<usize>, AllocError>
    requires { AllIn places.now facts.now }
    ensures { IfOk result (λ at. ArePlaces places.now at.items facts.now) }
{
    let mut at = Vec::with_capacity(alloc, facts.len())?;
    for fact in facts {
        at.push(place_in(places, fact))?;
    }
    Ok(at)
}

/// Those of these facts that one of these adds can make.
fn own_of(
    alloc: Global,
    expert: &Expert,
    problem: &Problem,
    adds: &[Made],
    facts: &[Fact],
) -> Result<Vec<Fact>, AllocError>
    ensures { IfOk result (λ own. own.items
        ≡ filter (is_in (made_by expert.now problem.now adds.now)) facts.now) }
{
    let mut own = Vec::new(alloc);
    for fact in facts {
        if one_can_make(expert, problem, adds, fact) {
            own.push(*fact)?;
        }
    }
    Ok(own)
}

/// Puts those of these facts at the end that none of these adds can make.
fn push_others(
    expert: &Expert,
    problem: &Problem,
    adds: &[Made],
    facts: &[Fact],
    others: &mut Vec<Fact>,
) -> Result<(), AllocError>
    ensures { OnOk result (others.new.items ≡ others.old.items
        ++ filter (λ x. not (is_in (made_by expert.now problem.now adds.now) x)) facts.now) }
{
    for fact in facts {
        if !one_can_make(expert, problem, adds, fact) {
            others.push(*fact)?;
        }
    }
    Ok(())
}

/// What a ground action with these adds at its start and these atoms later needs.
fn needed_of(
    alloc: Global,
    expert: &Expert,
    problem: &Problem,
    action: &GroundAction,
    adds: &[Made],
    later: &[Fact],
) -> Result<Vec<Fact>, AllocError>
    ensures { IfOk result (λ needed. needed.items ≡ atoms_of action.now.conditions.at_start
        ++ filter (λ x. not (is_in (made_by expert.now problem.now adds.now) x)) later.now) }
{
    let mut needed = Vec::new(alloc);
    push_all_atoms(&action.conditions.at_start, &mut needed)?;
    push_others(expert, problem, adds, later, &mut needed)?;
    Ok(needed)
}

// ---- what it gives

/// Puts the places of the facts at the end that an add can make, each looked at.
fn give_wide(
    expert: &Expert,
    problem: &Problem,
    places: &Places,
    add: &Made,
    gives: &mut Vec<usize>,
) -> Result<(), AllocError>
    ensures { OnOk result (TakesPlaces places.now (facts_made expert.now problem.now add.now)
        gives.old.items gives.new.items) }
{
    let facts = places.as_slice();
    for place in 0..facts.len() {
        if can_make(expert, problem, add, &facts[place]) {
            gives.push(place)?;
        }
    }
    Ok(())
}

/// Puts the place of a fact at the end, if it has one.
fn give_own(places: &Places, fact: &Fact, gives: &mut Vec<usize>) -> Result<(), AllocError>
    ensures { OnOk result (TakesPlaces places.now (fact.now ∷ []) gives.old.items gives.new.items) }
{
    let _facts = places.as_slice();
    if let Some(place) = places.place_of(fact) {
        gives.push(place)?;
    }
    Ok(())
}

/// Puts the places of the facts at the end that an add can make.
fn give(
    expert: &Expert,
    problem: &Problem,
    places: &Places,
    add: &Made,
    gives: &mut Vec<usize>,
) -> Result<(), AllocError>
    ensures { OnOk result (TakesPlaces places.now (facts_made expert.now problem.now add.now)
        gives.old.items gives.new.items) }
{
    match add {
        Made::Own(fact) => give_own(places, fact, gives),
        Made::Wide(_) => give_wide(expert, problem, places, add, gives),
    }
}

/// Puts the places of the facts at the end that these adds can make.
fn give_all(
    expert: &Expert,
    problem: &Problem,
    places: &Places,
    adds: &[Made],
    gives: &mut Vec<usize>,
) -> Result<(), AllocError>
    ensures { OnOk result (TakesPlaces places.now (made_by expert.now problem.now adds.now)
        gives.old.items gives.new.items) }
{
    for add in adds {
        give(expert, problem, places, add, gives)?;
    }
    Ok(())
}

/// The places of the facts that these adds can make.
fn gives_of(
    alloc: Global,
    expert: &Expert,
    problem: &Problem,
    places: &Places,
    begins: &[Made],
    ends: &[Made],
) -> Result<Vec<usize>, AllocError>
    ensures { IfOk result (λ gives. TakesPlaces places.now
        (made_by expert.now problem.now begins.now ++ made_by expert.now problem.now ends.now)
        [] gives.items) }
{
    let mut gives = Vec::new(alloc);
    give_all(expert, problem, places, begins, &mut gives)?;
    give_all(expert, problem, places, ends, &mut gives)?;
    Ok(gives)
}

// ---- rules

/// The rule of a ground action with these adds and these atoms later.
fn rule_with(
    expert: &Expert,
    problem: &Problem,
    places: &Places,
    action: &GroundAction,
    begins: &[Made],
    ends: &[Made],
    later: &[Fact],
) -> Result<Rule, AllocError>
    requires all { AllIn places.now (asked action.now) }
    requires begins { begins.now ≡ adds_of action.now.effects.at_start }
    requires ends { ends.now ≡ adds_of action.now.effects.at_end }
    requires later { later.now ≡ later_atoms action.now }
    ensures { IfOk result (IsRuleOf expert.now problem.now places.now action.now) }
{
    let alloc = problem.allocator();
    let needed = needed_of(alloc, expert, problem, action, begins, later)?;
    let own = own_of(alloc, expert, problem, begins, later)?;
    let needs = places_of(alloc, places, needed.as_slice())?;
    let mine = places_of(alloc, places, own.as_slice())?;
    let gives = gives_of(alloc, expert, problem, places, begins, ends)?;
    Ok(Rule {
        needs,
        own: mine,
        gives,
    })
}

/// The rule of a ground action, whose atoms have places.
fn rule_of(
    alloc: Global,
    expert: &Expert,
    problem: &Problem,
    places: &Places,
    action: &GroundAction,
) -> Result<Rule, AllocError>
    requires { AllIn places.now (asked action.now) }
    ensures { IfOk result (IsRuleOf expert.now problem.now places.now action.now) }
{
    let begins = adds_of(alloc, action.effects.at_start.as_slice())?;
    let ends = adds_of(alloc, action.effects.at_end.as_slice())?;
    let later = later_atoms(alloc, action)?;
    rule_with(expert, problem, places, action, &begins, &ends, &later)
}

/// The rules of these ground actions, whose atoms have places.
pub fn rules_of(
    alloc: Global,
    expert: &Expert,
    problem: &Problem,
    places: &Places,
    actions: &[GroundAction],
) -> Result<Vec<Rule>, AllocError>
    requires { AllIn places.now (flat_map asked actions.now) }
    ensures { IfOk result (λ rules.
        AreRules expert.now problem.now places.now actions.now rules.items) }
{
    let mut rules = Vec::with_capacity(alloc, actions.len())?;
    for action in actions {
        let rule = rule_of(alloc, expert, problem, places, action)?;
        rules.push(rule)?;
    }
    Ok(rules)
}
