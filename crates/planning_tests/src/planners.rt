//! Three planners run at the same time.
use super::orders::ROOMS;
use super::worlds::{World, world_of};
use ps_domain::Expert;
use ps_portfolio::{Chosen, Found, Levels, Planner, portfolio};
use ps_problem::Problem;
use std::alloc::{AllocError, Global};
use std::process::Abort;
use std::sync::atomic::AtomicBool;
use std::sync::atomic::Ordering::SeqCst;
use std::test::Fail;
use std::thread::Threads;

/// How often a planner looks whether the others have come.
const TURNS: u32 = 400_000_000;

/// Three flags.
#[derive(Drop)]
struct Flags {
    first: AtomicBool,
    second: AtomicBool,
    third: AtomicBool,
}

impl Flags {
    fn new() -> Flags {
        Flags {
            first: AtomicBool::new(false),
            second: AtomicBool::new(false),
            third: AtomicBool::new(false),
        }
    }

    /// The flag of a planner, by its place.
    fn at(&self, place: u32) -> &AtomicBool {
        match place {
            0 => &self.first,
            1 => &self.second,
            _ => &self.third,
        }
    }

    fn are_all_set(&self) -> bool {
        self.first.load(SeqCst) && self.second.load(SeqCst) && self.third.load(SeqCst)
    }
}

/// Answers as `Levels`, once the two others have come, or after so many turns.
#[derive(Drop)]
struct Waiting<'a> {
    place: u32,
    came: &'a Flags,
    saw: &'a Flags,
}

impl<'a> Waiting<'a> {
    fn meet(&self) {
        self.came.at(self.place).store(true, SeqCst);
        for _ in 0..TURNS {
            if self.came.are_all_set() {
                self.saw.at(self.place).store(true, SeqCst);
                return;
            }
        }
    }
}

impl<'a> Planner for Waiting<'a> {
    ghost use Rattle.ps_action.specs.Search.{answer};
    ghost use Rattle.ps_portfolio.specs.Choosing.{found_of};

    ghost says = { λ _ d k budget. found_of (answer d k budget) };

    fn plan(
        &self,
        alloc: Global,
        expert: &Expert,
        problem: &Problem,
        budget: u32,
    ) -> Result<Found, AllocError> {
        self.meet();
        Levels::new().plan(alloc, expert, problem, budget)
    }
}

/// Without a charging point.
const LOW: &str = "set instance leia robot
set instance entrance room
set instance kitchen room
set instance chargingroom room
set predicate (robot_at leia entrance)
set predicate (connected entrance kitchen)
set predicate (battery_low leia)
set goal (and (robot_at leia kitchen))";

/// Whether a planner's answer says that there is no plan.
fn is_no_plan(found: &Found) -> bool {
    matches!(found, Found::NoPlan)
}

/// That the first of three answers is the best, and each says that there is no plan.
fn assert_no_plan(rt: &impl Abort, chosen: &Chosen) {
    assert_eq!(rt; chosen.best, 0);
    assert_eq!(rt; chosen.answers.len(), 3);
    assert!(rt; chosen.answers.as_slice().iter().all(is_no_plan));
}

/// Has three planners that wait for each other by these flags plan at once.
fn assert_none_found<R: Threads + Sync + Abort>(
    rt: &R,
    alloc: Global,
    world: &World,
    came: &Flags,
    saw: &Flags,
) -> Result<(), Fail> {
    if world.problem.goal().is_none() {
        return Err(Fail::from("no goal"));
    }
    let a = Waiting {
        place: 0,
        came,
        saw,
    };
    let b = Waiting {
        place: 1,
        came,
        saw,
    };
    let c = Waiting {
        place: 2,
        came,
        saw,
    };
    let chosen = portfolio(rt, alloc, &a, &b, &c, &world.expert, &world.problem, 20_000)?;
    assert_no_plan(rt, &chosen);
    Ok(())
}

/// Has three planners that wait for each other plan at once.
fn assert_meet<R: Threads + Sync + Abort>(
    rt: &R,
    alloc: Global,
    world: &World,
) -> Result<(), Fail> {
    let came = Flags::new();
    let saw = Flags::new();
    assert_none_found(rt, alloc, world, &came, &saw)?;
    assert!(rt; saw.are_all_set());
    Ok(())
}

#[test]
fn three_planners_run_at_the_same_time(rt: HostRuntime) -> Result<(), Fail> {
    let world = world_of(rt.alloc(), ROOMS, LOW)?;
    assert_meet(&rt, rt.alloc(), &world)
}
