//! The atoms of a search: the facts that its states may have.
ghost use Rattle.std.specs.Prelude.{◌≡◌, ◌∷◌, ◌++◌, [], Some, false, true, flat_map, slice_get, IfOk, MatchOption, OnOk};
ghost use Rattle.std.specs.List.{list_any};
ghost use Rattle.std.specs.List.Sorted.{IsStrictlySortedBy};
ghost use Rattle.ps_world.specs.Bound.{ground_in};
ghost use Rattle.ps_world.specs.Facts.{fact_cmp};
ghost use Rattle.ps_world.specs.Knowledge.{same_fact};
ghost use Rattle.ps_world.specs.declared.facts.Fact.{Fact as FactView};
ghost use Rattle.ps_action.specs.Bindings.{bindings, bindings_from};
ghost use Rattle.ps_action.specs.Grounding.{grounded};
ghost use Rattle.ps_ground.specs.Fitting.{AreFit, grounds_of};
ghost use Rattle.ps_ground.specs.Atoms.{added_in, adds, may_add, may_add_part, may_add_spread};

use ps_action::{Act, Known};
use ps_domain::Expert;
use ps_problem::Problem;
use ps_world::{ActionDef, Effect, Env, Fact, Guarded, Lifted, Name, Param, Spread};
use std::alloc::{AllocError, Global};
use std::marker::Model;

/// Facts in their order, each once. Contracts see their list.
#[derive(Drop)]
pub struct Atoms {
    facts: Vec<Fact>,
}

impl Model for Atoms {
    ghost use Rattle.std.specs.Prelude.{List};
    ghost use Rattle.std.specs.List.Sorted.{IsStrictlySortedBy};
    ghost use Rattle.ps_world.specs.Facts.{fact_cmp};
    ghost use Rattle.ps_world.specs.declared.facts.Fact.{Fact};

    ghost Value = { List Fact };

    ghost view = { λ a. a.facts.items };

    ghost invariant = { λ a. IsStrictlySortedBy fact_cmp a.facts.items };
}

impl Atoms {
    /// The atoms of these facts and those. The only error is want of memory.
    pub fn of(alloc: Global, first: &[Fact], more: &[Fact]) -> Result<Atoms, AllocError>
        ensures { IfOk result (λ atoms. (f : FactView) → list_any (same_fact f) atoms
            ≡ list_any (same_fact f) (first.now ++ more.now)) }
    {
        let mut facts = Vec::from_slice(alloc, first)?;
        facts.extend_from_slice(more)?;
        // Mostly both rise already, and then this is one merge.
        facts.sort()?;
        facts.dedup();
        Ok(Atoms { facts })
    }

    /// The atoms in their order.
    pub fn as_slice(&self) -> &[Fact]
        ensures facts { result.now ≡ self.now }
        ensures rise { IsStrictlySortedBy fact_cmp self.now }
    {
        self.facts.as_slice()
    }

    /// Whether a fact is the atom at a place.
    fn is_at(&self, place: usize, fact: &Fact) -> bool
        ensures { result ≡ true → slice_get self.now place ≡ Some fact.now }
    {
        match self.as_slice().get(place) {
            Some(there) => there == fact,
            None => false,
        }
    }

    /// The place of a fact, as `place_of` gives it. It is found fast where it is that place, or a little after or before it.
    pub fn place_near(&self, near: usize, fact: &Fact) -> Option<usize>
        ensures place { MatchOption result (list_any (same_fact fact.now) self.now
            ≡ false) (λ i. slice_get self.now i ≡ Some fact.now) }
        ensures rise { IsStrictlySortedBy fact_cmp self.now }
    {
        let _atoms = self.as_slice();
        for place in near..near.saturating_add(4) {
            if self.is_at(place, fact) {
                return Some(place);
            }
        }
        for place in near.saturating_sub(3)..near {
            if self.is_at(place, fact) {
                return Some(place);
            }
        }
        self.place_of(fact)
    }

    /// The place of a fact, counted from 0. None exactly where it is no atom.
    pub fn place_of(&self, fact: &Fact) -> Option<usize>
        ensures place { MatchOption result (list_any (same_fact fact.now) self.now
            ≡ false) (λ i. slice_get self.now i ≡ Some fact.now) }
        ensures rise { IsStrictlySortedBy fact_cmp self.now }
    {
        match self.as_slice().binary_search(fact) {
            Ok(place) => Some(place),
            Err(_) => None,
        }
    }
}

/// The fact that a head with terms is, where variables stand for these arguments.
pub(crate) fn ground_in(args: &[Name], lifted: &Lifted) -> Fact
    ensures { result ≡ ground_in args.now lifted.now }
{
    lifted.ground_in(&Env::of(args))
}

/// Puts the fact that an effect adds where variables stand for these names at the end, if it adds one.
fn push_added(env: &Env, effect: &Effect, facts: &mut Vec<Fact>) -> Result<(), AllocError>
    ensures { OnOk result (facts.new.items ≡ facts.old.items ++ added_in env.now effect.now) }
{
    if let Effect::Add(lifted) = effect {
        facts.push(lifted.ground_in(env))?;
    }
    Ok(())
}

/// Puts every fact that one of these effects adds at the end.
fn push_all_added(env: &Env, effects: &[Effect], facts: &mut Vec<Fact>) -> Result<(), AllocError>
    ensures { OnOk result (facts.new.items ≡ facts.old.items
        ++ flat_map (added_in env.now) effects.now) }
{
    for effect in effects {
        push_added(env, effect, facts)?;
    }
    Ok(())
}

/// Puts every fact that a part may add at the end.
fn push_part_adds(env: &Env, part: &Guarded, facts: &mut Vec<Fact>) -> Result<(), AllocError>
    ensures { OnOk result (facts.new.items ≡ facts.old.items ++ may_add_part env.now part.now) }
{
    match part {
        Guarded::Plain(effect) => push_added(env, effect, facts),
        Guarded::When(_, effects) => push_all_added(env, effects.as_slice(), facts),
    }
}

/// Puts every fact that one of these parts may add at the end.
fn push_parts_adds(env: &Env, parts: &[Guarded], facts: &mut Vec<Fact>) -> Result<(), AllocError>
    ensures { OnOk result (facts.new.items ≡ facts.old.items
        ++ flat_map (may_add_part env.now) parts.now) }
{
    for part in parts {
        push_part_adds(env, part, facts)?;
    }
    Ok(())
}

/// Puts every fact that one of these parts may add at the end, once for each choice of instances that fit the variables.
#[cycle(bindings)]
#[tactic(auto, using(ps_action::proofs::Spreading::step_on))]
fn push_bound_adds(
    expert: &Expert,
    problem: &Problem,
    env: &Env,
    params: &[Param],
    parts: &[Guarded],
    facts: &mut Vec<Fact>,
) -> Result<(), AllocError>
    ensures { OnOk result (facts.new.items ≡ facts.old.items
        ++ flat_map (λ e. flat_map (may_add_part e) parts.now)
        (bindings expert.now problem.now.instances params.now env.now)) }
{
    let Some((first, rest)) = params.split_first() else {
        return push_parts_adds(&*env, parts, facts);
    };
    if !expert.is_type(first.kind) {
        return Ok(());
    }
    for instance in Known::instances(problem) {
        push_instance_adds(expert, problem, &*env, instance, first, rest, parts, facts)?;
    }
    Ok(())
}

/// The same for each choice in which the first variable stands for this instance, if it fits.
#[cycle(bindings)]
fn push_instance_adds(
    expert: &Expert,
    problem: &Problem,
    env: &Env,
    instance: &(Name, Name),
    first: &Param,
    rest: &[Param],
    parts: &[Guarded],
    facts: &mut Vec<Fact>,
) -> Result<(), AllocError>
    ensures { OnOk result (facts.new.items ≡ facts.old.items
        ++ flat_map (λ e. flat_map (may_add_part e) parts.now)
        (bindings_from expert.now problem.now.instances first.now rest.now env.now
        (instance.now ∷ []))) }
{
    if expert.is_subtype(instance.1, first.kind) {
        let inner = Env::with(&*env, instance.0);
        return push_bound_adds(expert, problem, &inner, rest, parts, facts);
    }
    Ok(())
}

/// Puts every fact that what stands in a list of effects may add at the end.
fn push_spread_adds(
    expert: &Expert,
    problem: &Problem,
    env: &Env,
    spread: &Spread,
    facts: &mut Vec<Fact>,
) -> Result<(), AllocError>
    ensures { OnOk result (facts.new.items ≡ facts.old.items
        ++ may_add_spread expert.now problem.now env.now spread.now) }
{
    match spread {
        Spread::Once(part) => push_part_adds(env, part, facts),
        Spread::ForAll(params, parts) => {
            let params = params.as_slice();
            push_bound_adds(expert, problem, env, params, parts.as_slice(), facts)
        }
    }
}

/// Puts every fact that a list of effects may add at the end.
fn push_list_adds(
    expert: &Expert,
    problem: &Problem,
    env: &Env,
    effects: &[Spread],
    facts: &mut Vec<Fact>,
) -> Result<(), AllocError>
    ensures { OnOk result (facts.new.items ≡ facts.old.items
        ++ may_add expert.now problem.now env.now effects.now) }
{
    for spread in effects {
        push_spread_adds(expert, problem, env, spread, facts)?;
    }
    Ok(())
}

/// Puts every fact that an act of this action may add at the end.
fn push_adds(
    expert: &Expert,
    problem: &Problem,
    action: &ActionDef,
    act: &Act,
    facts: &mut Vec<Fact>,
) -> Result<(), AllocError>
    ensures { OnOk result (facts.new.items ≡ facts.old.items
        ++ adds expert.now problem.now (grounded action.now act.now)) }
{
    let env = Env::of(act.args.as_slice());
    push_list_adds(
        expert,
        problem,
        &env,
        action.effects.at_start.as_slice(),
        facts,
    )?;
    push_list_adds(
        expert,
        problem,
        &env,
        action.effects.at_end.as_slice(),
        facts,
    )
}

/// The facts that the ground actions of these acts may add, in order.
pub fn facts_added(
    alloc: Global,
    expert: &Expert,
    problem: &Problem,
    acts: &[Act],
) -> Result<Vec<Fact>, AllocError>
    requires { AreFit expert.now problem.now acts.now }
    ensures { IfOk result (λ facts. facts.items
        ≡ flat_map (adds expert.now problem.now) (grounds_of expert.now problem.now acts.now)) }
{
    let mut facts = Vec::with_capacity(alloc, acts.len())?;
    for act in acts {
        if let Some(action) = expert.action(act.action) {
            push_adds(expert, problem, action, act, &mut facts)?;
        }
    }
    Ok(facts)
}
