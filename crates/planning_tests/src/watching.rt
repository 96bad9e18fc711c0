//! A monitor of a hundred acts: which of them a change breaks, and how many conditions are judged.
ghost use Rattle.std.specs.Prelude.{◌≡◌, ◌<◌, ◌&&◌, IsTrue, false, not, slice_index_or};
ghost use Rattle.ps_monitor.specs.Hits.{HeldBefore, is_hit};
ghost use Rattle.ps_monitor.specs.Watched.{watched};

use super::worlds::{World, cond_of, fact_of, take_line, world_of};
use ps_action::Touched;
use ps_domain::Expert;
use ps_monitor::{Acts, Judging, Monitor};
use ps_problem::Problem;
use ps_text::Names;
use ps_world::Conds;
use std::alloc::Global;
use std::process::Abort;
use std::test::Fail;

const WATCHED: &str = "(define (domain watched)
(:types thing)
(:predicates (ready ?c - thing)))";

/// How many acts are watched.
const MANY: u32 = 100;

/// The lines of an instance that nobody reads of, and of one for each act, which is ready.
fn lines(alloc: Global) -> Result<String, Fail> {
    let mut text = String::new(alloc);
    text.push_str("set instance d thing")?;
    for act in 0..MANY {
        push_line(alloc, act, &mut text)?;
    }
    Ok(text)
}

fn push_line(alloc: Global, act: u32, text: &mut String) -> Result<(), Fail> {
    let line = format!(in alloc; "\nset instance c{act} thing\nset predicate (ready c{act})")?;
    text.push_str(line.as_str())?;
    Ok(())
}

fn hundred(alloc: Global) -> Result<World, Fail> {
    let lines = lines(alloc)?;
    world_of(alloc, WATCHED, lines.as_str())
}

fn condition_of(alloc: Global, names: &mut Names, act: u32) -> Result<Conds, Fail> {
    let text = format!(in alloc; "(ready c{act})")?;
    let cond = cond_of(alloc, names, text.as_str())?;
    Ok(Conds::of(vec![in alloc; cond]?))
}

/// Watches an act with these conditions.
fn watch_over(monitor: &mut Monitor, act: u32, over: &Conds) -> Result<(), Fail>
    requires { act < 256 }
{
    monitor.watch(act, over)?;
    Ok(())
}

fn watch_one(alloc: Global, names: &mut Names, act: u32, monitor: &mut Monitor) -> Result<(), Fail>
    requires { act < 256 }
{
    let over = condition_of(alloc, names, act)?;
    watch_over(monitor, act, &over)
}

fn watch_all(alloc: Global, names: &mut Names, monitor: &mut Monitor) -> Result<(), Fail> {
    for act in 0..MANY {
        watch_one(alloc, names, act, monitor)?;
    }
    Ok(())
}

/// Whether no act is broken but those that something in a list hits.
fn held_before(monitor: &Monitor, problem: &Problem, expert: &Expert, changed: &[Touched]) -> bool
    ensures { IsTrue result → HeldBefore expert.now problem.now (watched monitor.now) changed.now }
{
    let broken = monitor.broken(problem, expert, changed);
    for act in 0..256 {
        if is_amiss(monitor, &broken, changed, act) {
            return false;
        }
    }
    true
}

/// Whether an act is broken that nothing in a list hits.
fn is_amiss(monitor: &Monitor, broken: &Acts, changed: &[Touched], act: u32) -> bool
    requires { act < 256 }
    ensures { result ≡ (slice_index_or broken.now.marks act false
        && not (is_hit changed.now (watched monitor.now act))) }
{
    broken.has(act) && !monitor.is_hit(changed, act)
}

fn told_acts(alloc: Global, acts: &Acts) -> Result<String, Fail> {
    let mut text = String::new(alloc);
    for act in 0..256 {
        push_act(alloc, acts, act, &mut text)?;
    }
    Ok(text)
}

fn push_act(alloc: Global, acts: &Acts, act: u32, text: &mut String) -> Result<(), Fail>
    requires { act < 256 }
{
    if acts.has(act) {
        let told = format!(in alloc; " {act}")?;
        text.push_str(told.as_str())?;
    }
    Ok(())
}

fn is_told(rt: &impl Abort, alloc: Global, acts: &Acts, want: &str) -> Result<(), Fail> {
    let told = told_acts(alloc, acts)?;
    assert_eq!(rt; told.as_str(), want);
    Ok(())
}

/// Which acts are broken after a change of this, and how many conditions are judged.
fn breaks_so(
    rt: &impl Abort,
    alloc: Global,
    monitor: &Monitor,
    world: &World,
    changed: &[Touched],
    want: (&str, u64),
) -> Result<(), Fail> {
    if !held_before(monitor, &world.problem, &world.expert, changed) {
        return Err(Fail::from("an act was broken before"));
    }
    let mut judge = Judging::new(&world.problem, &world.expert);
    let broken = monitor.broken_by(&mut judge, changed);
    assert_eq!(rt; judge.count, want.1);
    is_told(rt, alloc, &broken, want.0)
}

fn ready(alloc: Global, world: &mut World, text: &str) -> Result<[Touched; 1], Fail> {
    Ok([Touched::Fact(fact_of(alloc, &mut world.names, text)?)])
}

fn judges_so(
    rt: &impl Abort,
    alloc: Global,
    world: &mut World,
    monitor: &mut Monitor,
) -> Result<(), Fail> {
    watch_all(alloc, &mut world.names, monitor)?;
    let unread = ready(alloc, world, "(ready d)")?;
    breaks_so(rt, alloc, monitor, world, &unread, ("", 0))?;
    take_line(alloc, world, "remove predicate (ready c7)")?;
    let read = ready(alloc, world, "(ready c7)")?;
    breaks_so(rt, alloc, monitor, world, &read, (" 7", 1))
}

fn watches_so(rt: &impl Abort, alloc: Global, world: &mut World) -> Result<(), Fail> {
    let mut monitor = Monitor::new(alloc);
    judges_so(rt, alloc, world, &mut monitor)
}

#[test]
fn judges_what_changed_alone(rt: HostRuntime) -> Result<(), Fail> {
    let mut world = hundred(rt.alloc())?;
    watches_so(&rt, rt.alloc(), &mut world)
}
