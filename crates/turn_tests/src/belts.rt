//! Reports over a belt, with threads.
ghost use Rattle.std.specs.Prelude.{◌≡◌, length, OnOk};
ghost use Rattle.std.specs.List.{All};

use ps_hub::{Belt, Desk, Report, Sent, Tray};
use ps_machine::Unit;
use std::alloc::{AllocError, Global};
use std::process::Abort;
use std::sync::Wait;
use std::test::Fail;
use std::thread;
use std::thread::Threads;

/// Sends a report of this unit on this request, where it may.
fn send_one<R: Wait>(rt: &R, belt: &Belt, desk: &mut Desk, r: u64, unit: &Unit) -> Option<Sent>
    requires { desk.old.belt ≡ belt.now }
    ensures { desk.new.belt ≡ desk.old.belt }
{
    if !desk.may_send(r) {
        return None;
    }
    Some(desk.send(rt, belt, r, unit))
}

/// Sends a report of work on this request, where it may.
fn send_work<R: Wait>(rt: &R, belt: &Belt, desk: &mut Desk, r: u64) -> Option<Sent>
    requires { desk.old.belt ≡ belt.now }
    ensures { desk.new.belt ≡ desk.old.belt }
{
    send_one(rt, belt, desk, r, &Unit::Work)
}

/// Sends a report of a job's end on this request, where it may.
fn send_finish<R: Wait>(rt: &R, belt: &Belt, desk: &mut Desk, r: u64) -> Option<Sent>
    requires { desk.old.belt ≡ belt.now }
    ensures { desk.new.belt ≡ desk.old.belt }
{
    send_one(rt, belt, desk, r, &Unit::Finish(true))
}

/// Drains a belt.
fn drain<R: Wait>(rt: &R, belt: &Belt, tray: &mut Tray) -> Result<u32, AllocError>
    requires { tray.old.belt ≡ belt.now }
    ensures { tray.new.belt ≡ tray.old.belt }
{
    tray.drain(rt, belt)
}

/// Sends two reports over a belt with room for one: the second once the first is drained.
fn send_two<R: Wait + Abort>(
    rt: &R,
    belt: &Belt,
    desk: &mut Desk,
    tray: &mut Tray,
) -> Result<(), AllocError>
    requires desk { desk.old.belt ≡ belt.now }
    requires tray { tray.old.belt ≡ belt.now }
    ensures desk { desk.new.belt ≡ desk.old.belt }
    ensures tray { tray.new.belt ≡ tray.old.belt }
{
    assert!(rt; send_work(rt, belt, desk, 0) == Some(Sent::Put));
    assert!(rt; send_finish(rt, belt, desk, 0) == Some(Sent::Full));
    assert_eq!(rt; drain(rt, belt, tray)?, 1);
    assert!(rt; send_finish(rt, belt, desk, 0) == Some(Sent::Put));
    Ok(())
}

/// Sends two reports, as `send_two` does, from the last of some desks.
fn send_from_last<R: Wait + Abort>(
    rt: &R,
    belt: &Belt,
    desks: &mut Vec<Desk>,
    tray: &mut Tray,
) -> Result<(), Fail>
    requires desks { All (λ d. d.belt ≡ belt.now) desks.old.items }
    requires tray { tray.old.belt ≡ belt.now }
    ensures many { OnOk result (length desks.new.items ≡ length desks.old.items) }
    ensures desks { OnOk result (All (λ d. d.belt ≡ belt.now) desks.new.items) }
    ensures tray { tray.new.belt ≡ tray.old.belt }
{
    let mut desk = desks.pop().ok_or("no desk")?;
    send_two(rt, belt, &mut desk, tray)?;
    desks.push(desk)?;
    Ok(())
}

/// The reports of a belt with one desk and room for one report, over which two are sent.
fn fill_and_drain<R: Wait + Abort>(rt: &R, alloc: Global) -> Result<Vec<Report>, Fail> {
    let (belt, mut desks, mut tray) = Belt::open(alloc, 1, 1)?;
    send_from_last(rt, &belt, &mut desks, &mut tray)?;
    Ok(belt.close(rt, desks, tray)?)
}

/// Asserts that these are the first performer's reports of work and of its end on request 0. They are matched as they are: a report is dear to let go
/// of.
fn assert_both(rt: &impl Abort, reports: &[Report]) {
    let [first, second] = reports else {
        panic!(rt; "not two reports")
    };
    assert!(rt; (first.by, first.r, first.n) == (0, 0, 0));
    assert!(rt; matches!(first.unit, Unit::Work));
    assert!(rt; (second.by, second.r, second.n) == (0, 0, 1));
    assert!(rt; matches!(second.unit, Unit::Finish(true)));
}

#[test]
fn a_full_belt_is_drained_and_closed(rt: HostRuntime) -> Result<(), Fail> {
    let reports = fill_and_drain(&rt, rt.alloc())?;
    assert_both(&rt, &reports);
    Ok(())
}

/// Sends a report on a request, and then none on an earlier one.
fn send_back<R: Wait + Abort>(
    rt: &R,
    belt: &Belt,
    desk: &mut Desk,
    tray: &mut Tray,
) -> Result<(), Fail>
    requires desk { desk.old.belt ≡ belt.now }
    requires tray { tray.old.belt ≡ belt.now }
{
    assert!(rt; send_work(rt, belt, desk, 3) == Some(Sent::Put));
    assert!(rt; send_work(rt, belt, desk, 2).is_none());
    assert_eq!(rt; drain(rt, belt, tray)?, 1);
    assert_eq!(rt; drain(rt, belt, tray)?, 0);
    Ok(())
}

/// After a report on a request none may be sent on an earlier one.
fn go_back<R: Wait + Abort>(rt: &R, alloc: Global) -> Result<(), Fail> {
    let (belt, mut desks, mut tray) = Belt::open(alloc, 1, 1)?;
    let mut desk = desks.pop().ok_or("no desk")?;
    send_back(rt, &belt, &mut desk, &mut tray)
}

#[test]
fn no_report_is_sent_on_an_earlier_request(rt: HostRuntime) -> Result<(), Fail> {
    go_back(&rt, rt.alloc())
}

/// Sends so many reports on each of ten requests.
fn send_all<R: Wait>(rt: &R, belt: &Belt, desk: &mut Desk, times: u32)
    requires { desk.old.belt ≡ belt.now }
    ensures { desk.new.belt ≡ desk.old.belt }
{
    for r in 0..10 {
        for _time in 0..times {
            let _ = send_work(rt, belt, desk, r);
        }
    }
}

/// Each desk sends from a thread of its own.
fn send_from_all<R: Threads + Wait + Sync>(rt: &R, belt: &Belt, desks: &mut [Desk], times: u32)
    requires { All (λ d. d.belt ≡ belt.now) desks.old }
    ensures { All (λ d. d.belt ≡ belt.now) desks.new }
{
    thread::for_each_mut(
        rt,
        desks,
        16,
        &|_, desk: &mut Desk|
            requires { desk.now.belt ≡ belt.now }
            ensures { desk.exit.now.belt ≡ desk.entry.now.belt }
        { send_all(rt, belt, desk, times) },
    );
}

/// Counts what each of eight desks sent, so many reports on each of ten requests, and looks whether they come in order.
fn assert_whole(rt: &impl Abort, reports: &[Report], times: usize) {
    for by in 0..8u32 {
        for r in 0..10u64 {
            let mut n = 0usize;
            for report in reports {
                if report.by == by && report.r == r {
                    assert_eq!(rt; report.n as usize, n);
                    n = n.saturating_add(1);
                }
            }
            assert_eq!(rt; n, times);
        }
    }
}

fn send_and_close<R: Threads + Wait + Sync + Abort>(rt: &R, alloc: Global) -> Result<(), Fail> {
    let (belt, mut desks, tray) = Belt::open(alloc, 8, 1024)?;
    send_from_all(rt, &belt, desks.as_mut_slice(), 12);
    let reports = belt.close(rt, desks, tray)?;
    assert_eq!(rt; reports.len(), 960);
    assert_whole(rt, &reports, 12);
    Ok(())
}

#[test]
fn eight_desks_send_and_the_belt_is_closed(rt: HostRuntime) -> Result<(), Fail> {
    send_and_close(&rt, rt.alloc())
}
