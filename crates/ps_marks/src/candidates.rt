//! Candidates: the first facts that could be known and aren't. Those of a place are listed in order, and no more of them than may be needed.
ghost use Rattle.std.specs.Prelude.{◌≡◌, ◌==◌, ◌+◌, ◌++◌, ◌≤◌, [], ◌∷◌, None, fold, if◌then◌else◌, length, take, IfOk, OnOk};
ghost use Rattle.std.specs.BTreeSet.{insert_key};
ghost use Rattle.std.specs.List.{list_any};
ghost use Rattle.std.specs.List.Sorted.{IsStrictlySortedBy};
ghost use Rattle.ps_world.specs.Facts.{fact_cmp};
ghost use Rattle.ps_action.specs.Grounding.{all_ground, picks};
ghost use Rattle.ps_marks.specs.Atoms.{can_make, facts_at, makes};
ghost use Rattle.ps_marks.specs.Candidates.{Collects, IsFirst, all_choices, choices_at, facts_from, first_with, is_choice, made_in, unknown};
ghost use Rattle.ps_marks.specs.Closures.{closure};
ghost use Rattle.ps_marks.specs.Landmarks.{candidates};
ghost use Rattle.ps_marks.specs.Making.{facts_made, made_by};
ghost use Rattle.ps_marks.specs.Rules.{AreRules, Mirror};

use super::making::{Made, adds_of};
use super::places::Places;
use ps_action::{GroundAction, Known, Place};
use ps_closing::{Rule, is_used};
use ps_domain::Expert;
use ps_problem::Problem;
use ps_world::{Args, Fact, Lifted, MOST_ARGUMENTS, Name, Param, Seq, Spread};
use std::alloc::{AllocError, Global};
use std::collections::BTreeSet;

/// The most candidates.
pub const MOST_CANDIDATES: usize = 200;

/// Whether a name may stand for a parameter where that is at a place.
fn is_choice(
    expert: &Expert,
    problem: &Problem,
    param: &Param,
    hole: Option<Name>,
    name: Name,
) -> bool
    ensures { result ≡ is_choice expert.now problem.now param.now hole name }
{
    if let Some(only) = hole
        && only != name
    {
        return false;
    }
    match problem.kind_of(name) {
        Some(kind) => expert.is_subtype(kind, param.kind),
        None => false,
    }
}

/// The instances that may stand for a parameter at a place, put in one after another.
fn put_choices(
    alloc: Global,
    expert: &Expert,
    problem: &Problem,
    param: &Param,
    hole: Option<Name>,
) -> Result<BTreeSet<Name>, AllocError>
    ensures { IfOk result (λ names. names.keys ≡ choices_at expert.now problem.now param.now hole) }
{
    let mut names = BTreeSet::new(alloc);
    for (name, _) in Known::instances(problem) {
        if is_choice(expert, problem, param, hole, *name) {
            names.insert(*name)?;
        }
    }
    Ok(names)
}

/// The instances that may stand for a parameter at a place, rising.
fn choices_at(
    alloc: Global,
    expert: &Expert,
    problem: &Problem,
    param: &Param,
    hole: Option<Name>,
) -> Result<Seq<Name>, AllocError>
    ensures { IfOk result (λ names. names ≡ choices_at expert.now problem.now param.now hole) }
{
    let names = put_choices(alloc, expert, problem, param, hole)?;
    Ok(Seq::of(names.iter().copied().collect(alloc)?))
}

/// The same for each parameter.
fn all_choices(
    alloc: Global,
    expert: &Expert,
    problem: &Problem,
    params: &[Param],
    holes: &[Option<Name>],
) -> Result<Vec<Seq<Name>>, AllocError>
    requires { length params.now ≡ length holes.now }
    ensures { IfOk result (λ all. all.items
        ≡ all_choices expert.now problem.now params.now holes.now) }
{
    let mut all = Vec::new(alloc);
    for i in 0..params.len() {
        let choices = choices_at(alloc, expert, problem, &params[i], holes[i])?;
        all.push(choices)?;
    }
    Ok(all)
}

/// Puts a fact at the end, unless it is known or there are enough.
fn push_fact(
    problem: &Problem,
    head: Name,
    args: &[Name],
    facts: &mut Vec<Fact>,
) -> Result<(), AllocError>
    requires few { length args.now ≤ MOST_ARGUMENTS }
    requires enough { length facts.old.items ≤ MOST_CANDIDATES }
    ensures { OnOk result (facts.new.items ≡ take MOST_CANDIDATES (facts.old.items
        ++ unknown problem.now (record { head = head; args = args.now } ∷ []))) }
{
    if facts.len() >= MOST_CANDIDATES {
        return Ok(());
    }
    let Some(args) = Args::of(args) else {
        unreachable!()
    };
    let fact = Fact { head, args };
    if !problem.has(&fact) {
        facts.push(fact)?;
    }
    Ok(())
}

/// Puts the unknown facts at the end whose arguments begin with the first ones and go on with one of each choice, until there are enough.
fn push_facts(
    problem: &Problem,
    head: Name,
    first: &mut Vec<Name>,
    choices: &[Seq<Name>],
    facts: &mut Vec<Fact>,
) -> Result<(), AllocError>
    requires few { length first.old.items + length choices.now ≤ MOST_ARGUMENTS }
    requires enough { length facts.old.items ≤ MOST_CANDIDATES }
    ensures first { OnOk result (first.new.items ≡ first.old.items) }
    ensures facts { OnOk result (facts.new.items ≡ take MOST_CANDIDATES (facts.old.items
        ++ unknown problem.now (facts_from head first.old.items (picks choices.now)))) }
{
    let Some((names, rest)) = choices.split_first() else {
        return push_fact(problem, head, first.as_slice(), facts);
    };
    for name in names.as_slice() {
        if facts.len() >= MOST_CANDIDATES {
            return Ok(());
        }
        first.push(*name)?;
        push_facts(problem, head, first, rest, facts)?;
        first.pop();
    }
    Ok(())
}

/// Whether one of the choices is empty.
fn has_empty(choices: &[Seq<Name>]) -> bool
    ensures { result ≡ list_any (λ names. length names == 0) choices.now }
{
    choices.iter().any(|names| names.is_empty())
}

/// The first unknown facts of a head with one of each of these choices as arguments.
fn first_with(
    alloc: Global,
    problem: &Problem,
    head: Name,
    choices: &[Seq<Name>],
) -> Result<Vec<Fact>, AllocError>
    requires { length choices.now ≤ MOST_ARGUMENTS }
    ensures { IfOk result (λ facts. facts.items ≡ first_with problem.now head choices.now) }
{
    let mut facts = Vec::new(alloc);
    // An earlier parameter's choices would be tried in vain.
    if has_empty(choices) {
        return Ok(facts);
    }
    let mut first = Vec::new(alloc);
    push_facts(problem, head, &mut first, choices, &mut facts)?;
    Ok(facts)
}

/// The first unknown facts of declared arguments at a place, or no facts where its head isn't declared with as many arguments.
fn first_at(
    alloc: Global,
    expert: &Expert,
    problem: &Problem,
    lifted: &Lifted,
) -> Result<Vec<Fact>, AllocError>
    ensures { IfOk result (λ facts. IsFirst expert.now problem.now lifted.now facts.items) }
{
    let place = Place::of(lifted);
    let holes = place.args.as_slice();
    let Some(decl) = expert.predicate(lifted.head) else {
        return Ok(Vec::new(alloc));
    };
    let count = lifted.terms.len();
    let params = decl.params.as_slice();
    if count != params.len() {
        return Ok(Vec::new(alloc));
    }
    let choices = all_choices(alloc, expert, problem, params, holes)?;
    let facts = first_with(alloc, problem, lifted.head, choices.as_slice())?;
    Ok(facts)
}

/// Puts facts in.
fn insert_all(facts: &[Fact], found: &mut BTreeSet<Fact>) -> Result<(), AllocError>
    ensures { OnOk result (found.new.keys ≡ fold (insert_key fact_cmp) found.old.keys facts.now) }
{
    for fact in facts {
        found.insert(*fact)?;
    }
    Ok(())
}

/// Puts a fact in, unless it is known.
fn collect_own(problem: &Problem, fact: &Fact, found: &mut BTreeSet<Fact>) -> Result<(), AllocError>
    ensures { OnOk result (Collects problem.now (fact.now ∷ []) found.old.keys found.new.keys) }
{
    if problem.has(fact) {
        return Ok(());
    }
    found.insert(*fact)?;
    Ok(())
}

/// Puts the unknown facts of declared arguments at a place in, as far as they may be candidates.
fn collect_wide(
    alloc: Global,
    expert: &Expert,
    problem: &Problem,
    lifted: &Lifted,
    found: &mut BTreeSet<Fact>,
) -> Result<(), AllocError>
    ensures { OnOk result (Collects problem.now (facts_at expert.now problem.now lifted.now)
        found.old.keys found.new.keys) }
{
    let facts = first_at(alloc, expert, problem, lifted)?;
    insert_all(facts.as_slice(), found)?;
    Ok(())
}

/// Puts the facts in that an add can make and that aren't known, as far as they may be candidates.
fn collect(
    alloc: Global,
    expert: &Expert,
    problem: &Problem,
    add: &Made,
    found: &mut BTreeSet<Fact>,
) -> Result<(), AllocError>
    ensures { OnOk result (Collects problem.now (facts_made expert.now problem.now add.now)
        found.old.keys found.new.keys) }
{
    match add {
        Made::Own(fact) => collect_own(problem, fact, found),
        Made::Wide(lifted) => collect_wide(alloc, expert, problem, lifted, found),
    }
}

/// The same of several adds.
fn collect_all(
    alloc: Global,
    expert: &Expert,
    problem: &Problem,
    adds: &[Made],
    found: &mut BTreeSet<Fact>,
) -> Result<(), AllocError>
    ensures { OnOk result (Collects problem.now (made_by expert.now problem.now adds.now)
        found.old.keys found.new.keys) }
{
    for add in adds {
        collect(alloc, expert, problem, add, found)?;
    }
    Ok(())
}

/// The same of all adds of a list of effects.
fn collect_from(
    alloc: Global,
    expert: &Expert,
    problem: &Problem,
    effects: &[Spread],
    found: &mut BTreeSet<Fact>,
) -> Result<(), AllocError>
    ensures { OnOk result (Collects problem.now (makes expert.now problem.now effects.now)
        found.old.keys found.new.keys) }
{
    let adds = adds_of(alloc, effects)?;
    collect_all(alloc, expert, problem, adds.as_slice(), found)?;
    Ok(())
}

/// The same of all adds of a ground action, if it is used.
fn collect_used(
    alloc: Global,
    expert: &Expert,
    problem: &Problem,
    action: &GroundAction,
    used: bool,
    found: &mut BTreeSet<Fact>,
) -> Result<(), AllocError>
    ensures { OnOk result (Collects problem.now
        (if used then can_make expert.now problem.now action.now else [])
        found.old.keys found.new.keys) }
{
    if !used {
        return Ok(());
    }
    collect_from(
        alloc,
        expert,
        problem,
        action.effects.at_start.as_slice(),
        found,
    )?;
    collect_from(
        alloc,
        expert,
        problem,
        action.effects.at_end.as_slice(),
        found,
    )
}

/// The facts that could be known and aren't, as far as they may be candidates, by the flags of the closure.
fn found_by(
    alloc: Global,
    expert: &Expert,
    problem: &Problem,
    places: &Places,
    actions: &[GroundAction],
    rules: &[Rule],
    flags: &[bool],
) -> Result<BTreeSet<Fact>, AllocError>
    requires rules { AreRules expert.now problem.now places.now actions.now rules.now }
    requires flags { Mirror places.now flags.now (closure expert.now problem.now None) }
    requires many { length actions.now ≡ length rules.now }
    ensures rise { IfOk result (λ found. IsStrictlySortedBy fact_cmp found.keys) }
    ensures all { IfOk result (λ found. Collects problem.now
        (made_in expert.now problem.now actions.now) [] found.keys) }
{
    let mut found = BTreeSet::new(alloc);
    for i in 0..actions.len() {
        let used = is_used(flags, &rules[i]);
        collect_used(alloc, expert, problem, &actions[i], used, &mut found)?;
    }
    Ok(found)
}

/// The first facts of these, as many as there may be candidates.
fn first_of(alloc: Global, found: &BTreeSet<Fact>) -> Result<Vec<Fact>, AllocError>
    ensures { IfOk result (λ facts. facts.items ≡ take MOST_CANDIDATES found.now.keys) }
{
    let mut facts: Vec<Fact> = found.iter().copied().collect(alloc)?;
    facts.truncate(MOST_CANDIDATES);
    Ok(facts)
}

/// The first facts that could be known and aren't, by the flags of the closure over the places of all atoms.
pub fn candidates(
    alloc: Global,
    expert: &Expert,
    problem: &Problem,
    places: &Places,
    actions: &[GroundAction],
    rules: &[Rule],
    flags: &[bool],
) -> Result<Vec<Fact>, AllocError>
    requires actions { actions.now ≡ all_ground expert.now problem.now.instances }
    requires rules { AreRules expert.now problem.now places.now actions.now rules.now }
    requires flags { Mirror places.now flags.now (closure expert.now problem.now None) }
    ensures { IfOk result (λ facts. facts.items ≡ candidates expert.now problem.now) }
{
    // What is known says by its list that its facts rise.
    let _known = problem.facts()?;
    let found = found_by(alloc, expert, problem, places, actions, rules, flags)?;
    first_of(alloc, &found)
}
