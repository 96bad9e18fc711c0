//! A search over what expands a problem: what it answers, and how often it expands.
ghost use Rattle.std.specs.Prelude.{◌≤◌};
ghost use Rattle.ps_expand.specs.Trees.{MaySearch};

use super::orders::ROOMS;
use super::patching::LEIA;
use super::worlds::{World, act_of, take_line, world_of};
use ps_action::{Act, Answer};
use ps_expand::{Expand, Expander};
use ps_problem::Problem;
use ps_search::Search;
use ps_solve::Forward;
use ps_text::Names;
use std::alloc::Global;
use std::process::Abort;
use std::test::Fail;

/// The least of the shortest plans that bring leia to the bedroom.
const PLAN: &str = "(askcharge leia entrance chargingroom)
(charge leia chargingroom)
(move leia chargingroom kitchen)
(move leia kitchen bedroom)";

/// Another goal, which nothing meets: who goes has been charged.
const TIRED: &str = "set goal (and (robot_at leia bedroom) (battery_low leia))";

/// Budgets, each with what is answered and how often it is expanded: one state is reached at each depth down to the plan's.
const PLANNED: [(u32, &str, u64); 6] = [
    (1, "spent 0", 0),
    (2, "spent 1", 1),
    (3, "spent 2", 2),
    (4, "spent 3", 3),
    (5, "the plan", 4),
    (20000, "the plan", 4),
];

/// The same for the other goal: one more state is reached, and nothing from there on.
const UNPLANNED: [(u32, &str, u64); 3] = [(4, "spent 3", 3), (5, "spent 4", 4), (6, "no plan", 5)];

fn acts_of(alloc: Global, names: &mut Names, plan: &str) -> Result<Vec<Act>, Fail> {
    let mut acts = Vec::new(alloc);
    for line in plan.lines() {
        acts.push(act_of(alloc, names, line)?)?;
    }
    Ok(acts)
}

/// What is told of an answer.
fn told(alloc: Global, answer: &Answer, plan: &[Act]) -> Result<String, Fail> {
    let text = match answer {
        Answer::Plan(acts) if acts.as_slice() == plan => format!(in alloc; "the plan")?,
        Answer::Plan(acts) => format!(in alloc; "{} acts", acts.len())?,
        Answer::NoPlan => format!(in alloc; "no plan")?,
        Answer::Spent { depth } => format!(in alloc; "spent {depth}")?,
        Answer::TooMany => format!(in alloc; "too many")?,
    };
    Ok(text)
}

/// What is told of a search with a budget over what expands.
fn answered<X: Expand>(
    expander: &mut X,
    problem: &Problem,
    budget: u32,
    plan: &[Act],
) -> Result<String, Fail>
    requires { MaySearch (X.instances expander.old) (X.goal expander.old) (X.count expander.old)
        problem.now budget }
{
    let answer = Forward::new().search(expander, problem, budget)?;
    told(problem.allocator(), &answer, plan)
}

/// What is told of a search, with how often it expanded.
fn with_count(text: Result<String, Fail>, count: u64) -> Result<(String, u64), Fail> {
    Ok((text?, count))
}

/// What is told of a search with a budget, and how often it expands.
fn searched(world: &World, budget: u32, plan: &[Act]) -> Result<(String, u64), Fail>
    requires { 1 ≤ budget }
{
    if world.problem.goal().is_none() {
        return Err(Fail::from("no goal"));
    }
    let mut expander = Expander::new(&world.expert, &world.problem)?;
    let text = answered(&mut expander, &world.problem, budget, plan);
    with_count(text, expander.count())
}

/// That a search with a budget is told so, and expands so often.
fn answers_this(
    rt: &impl Abort,
    world: &World,
    plan: &[Act],
    budget: u32,
    want: &str,
    expanded: u64,
) -> Result<(), Fail>
    requires { 1 ≤ budget }
{
    let (text, count) = searched(world, budget, plan)?;
    assert_eq!(rt; text.as_str(), want);
    assert_eq!(rt; count, expanded);
    Ok(())
}

fn answers_so(
    rt: &impl Abort,
    world: &World,
    plan: &[Act],
    rows: &[(u32, &str, u64)],
) -> Result<(), Fail> {
    for (budget, want, expanded) in rows {
        if *budget == 0 {
            return Err(Fail::from("no budget"));
        }
        answers_this(rt, world, plan, *budget, want, *expanded)?;
    }
    Ok(())
}

fn searches_so(rt: &impl Abort, alloc: Global, world: &mut World) -> Result<(), Fail> {
    let plan = acts_of(alloc, &mut world.names, PLAN)?;
    answers_so(rt, world, &plan, &PLANNED)?;
    take_line(alloc, world, TIRED)?;
    answers_so(rt, world, &plan, &UNPLANNED)
}

#[test]
fn searches_by_levels(rt: HostRuntime) -> Result<(), Fail> {
    let mut world = world_of(rt.alloc(), ROOMS, LEIA)?;
    searches_so(&rt, rt.alloc(), &mut world)
}
