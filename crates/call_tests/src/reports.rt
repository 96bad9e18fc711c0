//! Reports of sessions by workers, held against their journals.
use super::calls::{Answer, replay, session_with_reports};
use super::drained::drained;
use super::random_members::random_texts;
use ps_hub::Report;
use ps_inputs::Session;
use ps_machine::{Input, Member};
use ps_pool::NoGate;
use ps_report_lines::{report_lines, reporters};
use ps_reports::audit;
use ps_session::{Turns, run_to_board};
use ps_solve::Forward;
use ps_text::MemSink;
use ps_world::Duplicate;
use std::alloc::{AllocError, Global};
use std::process::Abort;
use std::str;
use std::sync::Wait;
use std::test::Fail;
use std::thread::Threads;

// ---- sessions

/// The first word of a text, and what comes after it.
fn first_word(text: &str) -> (&str, &str) {
    text.split_once(' ').unwrap_or((text, ""))
}

/// A unit as a journal's line records it: its request, its performer, the word for it, and what follows.
#[derive(Clone, Copy)]
struct Recorded<'a> {
    r: &'a str,
    by: &'a str,
    what: &'a str,
    rest: &'a str,
}

/// The unit that a journal's line records, if it records one.
fn unit_of(line: &str) -> Option<Recorded<'_>> {
    let (_, text) = first_word(line);
    let (what, text) = first_word(text);
    let text = match what {
        "edit" | "refused" => text.strip_prefix("performer ")?,
        "unitwork" | "feedback" | "finish" => text,
        _ => return None,
    };
    let (r, text) = first_word(text);
    let (by, rest) = first_word(text);
    Some(Recorded { r, by, what, rest })
}

/// Whether a journal's line records a unit on this request.
fn is_on(line: &str, r: &str) -> bool {
    match unit_of(line) {
        Some(unit) => unit.r == r,
        None => false,
    }
}

/// The beginning of the line that reports a unit, which is the n-th on its request: all of it but of an edit that was
/// refused.
fn report_of(alloc: Global, unit: &Recorded<'_>, n: usize) -> Result<String, AllocError> {
    let Recorded { r, by, what, rest } = unit;
    match *what {
        "unitwork" => format!(in alloc; "report {by} {r} {n} work\n"),
        "refused" => format!(in alloc; "report {by} {r} {n} "),
        "edit" => format!(in alloc; "report {by} {r} {n} {rest}\n"),
        _ => format!(in alloc; "report {by} {r} {n} {what} {rest}\n"),
    }
}

/// How many lines of a text begin like this.
fn count_lines(text: &str, front: &str) -> usize {
    text.split('\n')
        .filter(|line| line.starts_with(front))
        .count()
}

/// Asserts that each unit of a journal is reported, and that no other is but those that came too late.
fn assert_reported(
    rt: &impl Abort,
    alloc: Global,
    journal: &str,
    reports: &str,
) -> Result<(), Fail> {
    let mut count = 0usize;
    for (k, line) in journal.split('\n').enumerate() {
        if let Some(unit) = unit_of(line) {
            let before = journal.split('\n').take(k);
            let n = before.filter(|line| is_on(line, unit.r)).count();
            let wanted = report_of(alloc, &unit, n)?;
            assert!(rt;
                reports.contains(wanted.as_str()),
                "{wanted} of {journal} in {reports}"
            );
            count = count.saturating_add(1);
        }
    }
    let late = count_lines(reports, "late ");
    assert_eq!(rt; count_lines(reports, "report "), count);
    let kept = count.saturating_add(late);
    let last = format!(in alloc; "reports {kept} late {late} missing 0\n")?;
    assert!(rt;
        reports.ends_with(last.as_str()),
        "{last} of {journal} in {reports}"
    );
    Ok(())
}

/// Does a session of random members by so many workers, and holds its reports against its journal.
fn assert_session<R: Threads + Wait + Sync + Abort>(
    rt: &R,
    alloc: Global,
    seed: u64,
    workers: u32,
) -> Result<(), Fail> {
    let texts = random_texts(alloc, seed)?;
    let Answer { out, err, .. } = session_with_reports(rt, alloc, &texts, workers, &NoGate)?;
    let judged = replay(rt, alloc, &texts, out.as_str())?;
    assert_eq!(rt; judged.out.as_str(), "legal\n", "{seed}: {out}");
    assert_reported(rt, alloc, out.as_str(), err.as_str())
}

#[test]
fn two_workers_report(rt: HostRuntime) -> Result<(), Fail> {
    for seed in 1..31 {
        assert_session(&rt, rt.alloc(), seed * 7919, 2)?;
    }
    Ok(())
}

#[test]
fn sixteen_workers_report(rt: HostRuntime) -> Result<(), Fail> {
    for seed in 1..31 {
        assert_session(&rt, rt.alloc(), seed * 7919, 16)?;
    }
    Ok(())
}

// ---- audits

/// A report of each unit of the third member's first job, on request 0.
fn reports_of_weak(alloc: Global, input: &Input) -> Result<Vec<Report>, Fail> {
    let Some(Member::Performer(weak)) = input.members.as_slice().get(2) else {
        return Err(Fail::from("no third performer"));
    };
    let job = weak.jobs.as_slice().first().ok_or("no job")?;
    let mut reports = Vec::new(alloc);
    let mut n = 0u32;
    for unit in job.as_slice() {
        reports.push(Report {
            by: 2,
            r: 0,
            n,
            unit: unit.copy(alloc)?,
        })?;
        n = n.saturating_add(1);
    }
    Ok(reports)
}

/// The lines of no reports, and of those of the third member, against the journal of the session in order.
fn lines_of_drained<R: Threads + Wait + Sync>(
    rt: &R,
    alloc: Global,
) -> Result<(String, String), Fail> {
    let Session { names, input, .. } = drained(alloc)?;
    let mut out = MemSink::new(alloc, usize::MAX);
    let solver = Forward::new();
    let turns = Turns::InOrder;
    let board = run_to_board(rt, alloc, &names, input, &solver, &NoGate, turns, &mut out)?;
    let who = reporters(alloc, board.input())?;
    let none = audit(alloc, board.input(), board.entries(), &[])?;
    let some = reports_of_weak(alloc, board.input())?;
    let some = audit(alloc, board.input(), board.entries(), &some)?;
    let none = report_lines(alloc, &names, &who, &none)?;
    let some = report_lines(alloc, &names, &who, &some)?;
    Ok((
        str::from_utf8(&none)?.to_string(alloc)?,
        str::from_utf8(&some)?.to_string(alloc)?,
    ))
}

const LATE: &str = "report weak 0 0 set predicate (robot_at leia entrance)
report weak 0 1 remove predicate (battery_full leia)
late weak 0 2 finish ok
reports 3 late 1 missing 5
";

#[test]
fn a_stopped_performer_has_a_late_report(rt: HostRuntime) -> Result<(), Fail> {
    let (_, some) = lines_of_drained(&rt, rt.alloc())?;
    assert_eq!(rt; some.as_str(), LATE);
    Ok(())
}

#[test]
fn where_nothing_was_sent_units_are_missing(rt: HostRuntime) -> Result<(), Fail> {
    let (none, _) = lines_of_drained(&rt, rt.alloc())?;
    assert_eq!(rt; none.as_str(), "reports 0 late 0 missing 7\n");
    Ok(())
}
