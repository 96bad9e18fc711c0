//! How an event changes what is watched.
ghost use Rattle.std.specs.Prelude.{◌≡◌, ℕ, ◌<◌, ◌≤◌, false, true, length, slice_index_or, IsOk, OnOk, OnErr};
ghost use Rattle.ps_monitor.specs.Hits.{but_for, HeldBefore};
ghost use Rattle.ps_monitor.specs.Watched.{broken, is_false, marked, watched};
ghost use Rattle.ps_board.specs.Parts.{takes_only_room};
ghost use Rattle.ps_board.specs.Watching.{IsWatchedAs, StartsWithin, watched_after, watched_from, watched_without};

use ps_action::{GroundAction, Touched};
use ps_domain::Expert;
use ps_machine::Event;
use ps_monitor::{Acts, Judging, Monitor};
use ps_problem::Problem;
use std::alloc::AllocError;

/// Watches the act that an event starts, if it starts one. The only error is that memory ran out, and then nothing changes; other
/// events take none.
pub fn watch_started(
    monitor: &mut Monitor,
    grounds: &[GroundAction],
    what: &Event,
) -> Result<(), AllocError>
    requires few { length grounds.now ≤ 256 }
    requires there { StartsWithin (length grounds.now) what.now }
    ensures ok { OnOk result
        (IsWatchedAs monitor.new (watched_from what.now grounds.now monitor.old)) }
    ensures err { OnErr result (IsWatchedAs monitor.new (watched monitor.old)) }
    ensures reserved { takes_only_room what.now ≡ true → IsOk result }
{
    match what {
        Event::Start(act) => {
            let ground = &grounds[*act as usize];
            monitor.watch(*act, &ground.conditions.over_all)
        }
        _ => Ok(()),
    }
}

/// Watches the act that an event starts no longer, if it starts one.
pub fn unwatch_started(monitor: &mut Monitor, what: &Event)
    ensures { IsWatchedAs monitor.new (watched_without what.now monitor.old) }
{
    match what {
        Event::Start(act) => monitor.unwatch(*act),
        _ => {}
    }
}

/// Watches the act that an event ends no longer, if it ends one, and none where it makes a new plan.
pub fn unwatch_ended(monitor: &mut Monitor, what: &Event)
    ensures { IsWatchedAs monitor.new (watched_after what.now monitor.old) }
{
    match what {
        Event::Run { kind: _, acts: _ } => monitor.clear(),
        Event::Replan(_) => monitor.clear(),
        Event::End(act) => monitor.unwatch(*act),
        Event::Fail { act, why: _ } => monitor.unwatch(*act),
        Event::Cancel { act, why: _ } => monitor.unwatch(*act),
        _ => {}
    }
}

/// The watched acts whose condition is false after an event that changed these things and that started this act, if it started one.
/// Before it no act that was watched was broken, so that only those are judged that it may have broken.
pub fn broken_since(
    monitor: &Monitor,
    problem: &Problem,
    expert: &Expert,
    changed: &[Touched],
    started: Option<u32>,
) -> Acts
    requires { HeldBefore expert.now problem.now (but_for started (watched monitor.now)) changed.now }
    ensures list { (n : ℕ) → n ≤ 256
        → marked result n ≡ broken expert.now problem.now monitor.now n }
    ensures each { (act : ℕ) → act < 256 → slice_index_or result.marks act false
        ≡ is_false expert.now problem.now (watched monitor.now act) }
{
    let mut judge = Judging::new(problem, expert);
    monitor.broken_since(&mut judge, changed, started)
}
