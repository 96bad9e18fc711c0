//! What is known after a change: as after the effects of an act that makes it, and as before where it has nothing.
use super::orders::ROOMS;
use super::worlds::{World, fact_of, ground_of, world_of};
use ps_action::GroundAction;
use ps_eval::apply;
use ps_problem::{Change, Problem};
use ps_text::Names;
use ps_world::{Fact, Seq};
use std::alloc::{AllocError, Global};
use std::process::Abort;
use std::test::Fail;

/// Leia stands at the entrance, with little charge, and is to go to the bedroom.
pub const LEIA: &str = "set instance leia robot
set instance entrance room
set instance kitchen room
set instance bedroom room
set instance chargingroom room
set predicate (robot_at leia entrance)
set predicate (battery_low leia)
set predicate (charging_point_at chargingroom)
set predicate (connected entrance kitchen)
set predicate (connected chargingroom kitchen)
set predicate (connected kitchen bedroom)
set goal (and (robot_at leia bedroom))";

/// A change that adds and deletes these facts alone.
fn change_of(alloc: Global, adds: Seq<Fact>, deletes: Seq<Fact>) -> Change {
    Change {
        instances_in: Seq::new(alloc),
        instances_out: Seq::new(alloc),
        adds,
        deletes,
        values: Seq::new(alloc),
        gone: Seq::new(alloc),
        goal: None,
    }
}

/// Leia is in the room of the charging point, and no longer at the entrance.
fn driven(alloc: Global, names: &mut Names) -> Result<Change, Fail> {
    let there = fact_of(alloc, names, "(robot_at leia chargingroom)")?;
    let here = fact_of(alloc, names, "(robot_at leia entrance)")?;
    let adds = Seq::of(vec![in alloc; there]?);
    let deletes = Seq::of(vec![in alloc; here]?);
    Ok(change_of(alloc, adds, deletes))
}

fn make_effects(problem: &mut Problem, world: &World, act: &GroundAction) -> Result<(), Fail> {
    apply(problem, &world.expert, act.effects.at_start.as_slice())?;
    apply(problem, &world.expert, act.effects.at_end.as_slice())?;
    Ok(())
}

/// Makes the act that brings leia there.
fn bring(alloc: Global, world: &mut World, problem: &mut Problem) -> Result<(), Fail> {
    let act = ground_of(alloc, world, "(askcharge leia entrance chargingroom)")?;
    make_effects(problem, world, &act)
}

/// What is known after the act that brings leia there.
fn after_act(alloc: Global, world: &mut World) -> Result<Box<Problem>, Fail> {
    let mut after = Box::new(alloc, world.problem.copy()?)?;
    bring(alloc, world, &mut after)?;
    Ok(after)
}

/// Whether two problems have the same instances.
fn have_same_instances(one: &Problem, other: &Problem) -> Result<bool, Fail> {
    let instances = one.instances()?;
    Ok(instances == other.instances()?)
}

/// Whether two problems have the same facts.
fn have_same_facts(one: &Problem, other: &Problem) -> Result<bool, Fail> {
    let facts = one.facts()?;
    Ok(facts == other.facts()?)
}

/// Whether two problems have the same values.
fn have_same_values(one: &Problem, other: &Problem) -> Result<bool, Fail> {
    let values = one.values()?;
    Ok(values == other.values()?)
}

/// Whether two problems know the same, but for their goals.
fn know_the_same(one: &Problem, other: &Problem) -> Result<bool, Fail> {
    Ok(
        have_same_instances(one, other)?
            && have_same_facts(one, other)?
            && have_same_values(one, other)?,
    )
}

/// Whether a change of nothing changes a problem.
fn changes(alloc: Global, problem: &mut Problem) -> Result<bool, AllocError> {
    let none = change_of(alloc, Seq::new(alloc), Seq::new(alloc));
    problem.patch(&none)
}

/// That a change makes of what is known what is known after the act, once.
fn leads_there(
    rt: &impl Abort,
    alloc: Global,
    problem: &mut Problem,
    after: &Problem,
    change: &Change,
) -> Result<(), Fail> {
    assert!(rt; !know_the_same(&*problem, after)?);
    assert!(rt; problem.patch(change)?);
    assert!(rt; know_the_same(&*problem, after)?);
    assert!(rt; !changes(alloc, &mut *problem)?);
    assert!(rt; know_the_same(&*problem, after)?);
    Ok(())
}

fn patches_so(rt: &impl Abort, alloc: Global, world: &mut World) -> Result<(), Fail> {
    let after = after_act(alloc, world)?;
    let change = driven(alloc, &mut world.names)?;
    leads_there(rt, alloc, &mut world.problem, &after, &change)
}

#[test]
fn patches_as_an_act_does(rt: HostRuntime) -> Result<(), Fail> {
    let mut world = world_of(rt.alloc(), ROOMS, LEIA)?;
    patches_so(&rt, rt.alloc(), &mut world)
}
