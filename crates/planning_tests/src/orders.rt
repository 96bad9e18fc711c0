//! Which ground actions keep their order.
use super::worlds::{World, ground_of, world_of};
use ps_action::{Arcs, GroundAction};
use ps_arcs::arcs_of;
use std::alloc::Global;
use std::process::Abort;
use std::test::Fail;

/// Actions that read or change one thing each.
const DEEDS: &str = "(define (domain deeds)
(:types robot)
(:predicates (parked ?r - robot) (load ?r - robot))
(:functions (load ?r - robot) (total))
(:durative-action need :parameters (?r - robot) :duration (= ?duration 1) :condition (at start (parked ?r)))
(:durative-action keep :parameters (?r - robot) :duration (= ?duration 1) :condition (over all (not (parked ?r))))
(:durative-action want :parameters (?r - robot) :duration (= ?duration 1) :condition (at end (and (parked ?r))))
(:durative-action park :parameters (?r - robot) :duration (= ?duration 1) :effect (at start (parked ?r)))
(:durative-action leave :parameters (?r - robot) :duration (= ?duration 1) :effect (at end (not (parked ?r))))
(:durative-action weigh :parameters (?r - robot) :duration (= ?duration 1) :condition (over all (< (load ?r) 1)))
(:durative-action fill :parameters (?r - robot) :duration (= ?duration 1) :effect (at end (assign (load ?r) 1)))
(:durative-action count :parameters (?r - robot) :duration (= ?duration 1) :effect (at start (assign (total) (- (load ?r)))))
(:durative-action pack :parameters (?r - robot) :duration (= ?duration 1) :effect (at end (load ?r)))
(:durative-action last :parameters (?r - robot) :duration (= ?duration (load ?r))))";

const TWO: &str = "set instance leia robot
set instance r2d2 robot";

/// Acts, and whether they keep their order.
const PAIRS: [(&str, &str, bool); 20] = [
    ("(park leia)", "(need leia)", true),
    ("(need leia)", "(park leia)", true),
    ("(leave leia)", "(need leia)", true),
    ("(park leia)", "(keep leia)", true),
    ("(keep leia)", "(leave leia)", true),
    ("(want leia)", "(leave leia)", true),
    ("(park leia)", "(leave leia)", true),
    ("(park leia)", "(park leia)", true),
    ("(weigh leia)", "(fill leia)", true),
    ("(fill leia)", "(weigh leia)", true),
    ("(fill leia)", "(count leia)", true),
    ("(count leia)", "(fill leia)", true),
    ("(count leia)", "(count r2d2)", true),
    ("(need leia)", "(keep leia)", false),
    ("(weigh leia)", "(count leia)", false),
    ("(park leia)", "(leave r2d2)", false),
    ("(park leia)", "(need r2d2)", false),
    ("(park leia)", "(weigh leia)", false),
    ("(pack leia)", "(weigh leia)", false),
    ("(fill leia)", "(last leia)", false),
];

/// What robots do in rooms.
pub const ROOMS: &str = "(define (domain rooms) (:types robot room)
(:predicates (robot_at ?r - robot ?ro - room) (connected ?a ?b - room) (battery_full ?r - robot) (battery_low ?r - robot)
 (charging_point_at ?ro - room))
(:durative-action move :parameters (?r - robot ?a ?b - room) :duration (= ?duration 5)
 :condition (and (at start (connected ?a ?b)) (at start (robot_at ?r ?a)) (over all (battery_full ?r)))
 :effect (and (at start (not (robot_at ?r ?a))) (at end (robot_at ?r ?b))))
(:durative-action askcharge :parameters (?r - robot ?a ?b - room) :duration (= ?duration 5)
 :condition (and (at start (robot_at ?r ?a)) (at start (charging_point_at ?b)))
 :effect (and (at start (not (robot_at ?r ?a))) (at end (robot_at ?r ?b))))
(:durative-action charge :parameters (?r - robot ?ro - room) :duration (= ?duration 5)
 :condition (and (at start (robot_at ?r ?ro)) (at start (charging_point_at ?ro)))
 :effect (and (at end (not (battery_low ?r))) (at end (battery_full ?r)))))";

const FLAT: &str = "set instance leia robot
set instance r2 robot
set instance entrance room
set instance kitchen room
set instance bedroom room
set instance chargingroom room";

/// Plans, one act a line, and the arcs of each.
const PLANS: [(&str, &str); 2] = [
    (
        "(move leia entrance kitchen)\n(move r2 entrance kitchen)",
        "",
    ),
    (
        "(askcharge leia entrance chargingroom)\n(charge leia chargingroom)\n(move leia chargingroom kitchen)\n(move leia kitchen bedroom)",
        "0-1\n0-2\n1-2\n1-3\n2-3\n",
    ),
];

/// The arcs of a plan, one a line.
fn arcs_told(alloc: Global, arcs: &Arcs) -> Result<String, Fail> {
    let mut told = String::new(alloc);
    for j in 0..arcs.acts() {
        for i in 0..j {
            if arcs.has(i, j) {
                write!(told, "{i}-{j}\n")?;
            }
        }
    }
    Ok(told)
}

/// Adds the ground actions of a plan's acts.
fn push_grounds(
    alloc: Global,
    world: &mut World,
    plan: &str,
    grounds: &mut Vec<GroundAction>,
) -> Result<(), Fail> {
    for act in plan.lines() {
        let ground = ground_of(alloc, world, act)?;
        grounds.push(ground)?;
    }
    Ok(())
}

/// The arcs of ground actions, of which a plan has 256 at most.
fn arcs_among(alloc: Global, grounds: &[GroundAction]) -> Result<Arcs, Fail> {
    if grounds.len() > 256 {
        return Err(Fail::from("no plan"));
    }
    Ok(arcs_of(alloc, grounds)?)
}

fn plan_arcs(alloc: Global, world: &mut World, plan: &str) -> Result<Arcs, Fail> {
    let mut grounds = Vec::new(alloc);
    push_grounds(alloc, world, plan, &mut grounds)?;
    arcs_among(alloc, &grounds)
}

/// That arcs are told so, and are as many as they have lines.
fn are_told(rt: &impl Abort, alloc: Global, arcs: &Arcs, want: &str) -> Result<(), Fail> {
    let told = arcs_told(alloc, arcs)?;
    assert_eq!(rt; told.as_str(), want);
    assert_eq!(rt; arcs.count() as usize, want.lines().count());
    Ok(())
}

/// That a plan has these arcs.
fn keeps_these(
    rt: &impl Abort,
    alloc: Global,
    world: &mut World,
    plan: &str,
    want: &str,
) -> Result<(), Fail> {
    let arcs = plan_arcs(alloc, world, plan)?;
    are_told(rt, alloc, &arcs, want)
}

fn keeps_so(rt: &impl Abort, alloc: Global, world: &mut World) -> Result<(), Fail> {
    for (plan, want) in &PLANS {
        keeps_these(rt, alloc, world, plan, want)?;
    }
    Ok(())
}

#[test]
fn plans_keep_these_orders(rt: HostRuntime) -> Result<(), Fail> {
    let mut world = world_of(rt.alloc(), ROOMS, FLAT)?;
    keeps_so(&rt, rt.alloc(), &mut world)
}

/// The arcs of two acts.
fn arcs_between(alloc: Global, world: &mut World, one: &str, other: &str) -> Result<Arcs, Fail> {
    let mut grounds = Vec::new(alloc);
    push_grounds(alloc, world, one, &mut grounds)?;
    push_grounds(alloc, world, other, &mut grounds)?;
    arcs_among(alloc, &grounds)
}

/// Whether two acts keep their order, and whether they keep the other one.
fn order_of(
    alloc: Global,
    world: &mut World,
    one: &str,
    other: &str,
) -> Result<(bool, bool), Fail> {
    let arcs = arcs_between(alloc, world, one, other)?;
    Ok((arcs.has(0, 1), arcs.has(1, 0)))
}

fn ties_so(rt: &impl Abort, alloc: Global, world: &mut World) -> Result<(), Fail> {
    for (one, other, want) in &PAIRS {
        let (is_kept, is_turned) = order_of(alloc, world, one, other)?;
        assert_eq!(rt; is_kept, *want, "{one} {other}");
        assert!(rt; !is_turned, "{one} {other}");
    }
    Ok(())
}

#[test]
fn ties_what_touches_one_thing(rt: HostRuntime) -> Result<(), Fail> {
    let mut world = world_of(rt.alloc(), DEEDS, TWO)?;
    ties_so(&rt, rt.alloc(), &mut world)
}

#[test]
fn keeps_what_is_added(rt: HostRuntime) -> Result<(), Fail> {
    let mut arcs = Arcs::new(rt.alloc(), 256)?;
    arcs.add(0, 255)?;
    arcs.add(1, 2)?;
    assert_eq!(rt; arcs.count(), 2);
    assert_eq!(rt; arcs.acts(), 256);
    assert!(rt; arcs.has(0, 255) && arcs.has(1, 2));
    assert!(rt; !arcs.has(0, 2) && !arcs.has(255, 0) && !arcs.has(0, 256));
    Ok(())
}
