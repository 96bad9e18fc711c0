//! Four carts that are carried over three spots, which a search by levels doesn't get done with a small budget.
use super::worlds::{World, world_of};
use ps_portfolio::{Chosen, Found, Greedy, Levels, Marks, portfolio};
use std::alloc::Global;
use std::process::Abort;
use std::test::Fail;
use std::thread::Threads;

const WAREHOUSE: &str = "(define (domain warehouse) (:types cart spot)
(:predicates (at ?c - cart ?s - spot) (next ?a ?b - spot))
(:durative-action carry :parameters (?c - cart ?a ?b - spot) :duration (= ?duration 2)
 :condition (and (at start (at ?c ?a)) (over all (next ?a ?b)))
 :effect (and (at start (not (at ?c ?a))) (at end (at ?c ?b)))))";

const CARTS: &str = "set instance store spot
set instance aisle spot
set instance dock spot
set instance c1 cart
set instance c2 cart
set instance c3 cart
set instance c4 cart
set predicate (next store aisle)
set predicate (next aisle dock)
set predicate (at c1 store)
set predicate (at c2 store)
set predicate (at c3 store)
set predicate (at c4 store)
set goal (and (at c1 dock) (at c2 dock) (at c3 dock) (at c4 dock))";

fn acts_in(found: &Found) -> usize {
    match found {
        Found::Plan(acts) => acts.len(),
        _ => 0,
    }
}

/// That the second of three answers is the best, and is a plan of eight acts, and the first found none.
fn assert_second(rt: &impl Abort, chosen: &Chosen) {
    assert_eq!(rt; chosen.best, 1);
    let answers = chosen.answers.as_slice();
    assert_eq!(rt; answers.len(), 3);
    assert!(rt; matches!(answers[0], Found::Spent));
    assert_eq!(rt; acts_in(&answers[1]), 8);
}

/// Has the three planners plan with a small budget: the second alone finds a plan of eight acts.
fn assert_found<R: Threads + Sync + Abort>(
    rt: &R,
    alloc: Global,
    world: &World,
) -> Result<(), Fail> {
    let levels = Levels::new();
    let landmarks = Greedy::new(Marks::Landmarks);
    let goals = Greedy::new(Marks::Goals);
    if world.problem.goal().is_none() {
        return Err(Fail::from("no goal"));
    }
    let (expert, problem) = (&world.expert, &world.problem);
    let chosen = portfolio(rt, alloc, &levels, &landmarks, &goals, expert, problem, 30)?;
    assert_second(rt, &chosen);
    Ok(())
}

#[test]
fn landmarks_find_what_levels_dont(rt: HostRuntime) -> Result<(), Fail> {
    let world = world_of(rt.alloc(), WAREHOUSE, CARTS)?;
    assert_found(&rt, rt.alloc(), &world)
}
