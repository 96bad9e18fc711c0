//! Two workers do two units of work at the same time.
use super::calls::{Answer, Texts, replay, session};
use super::rooms::BOTH;
use ps_board::Grant;
use ps_machine::Unit;
use ps_pool::Gate;
use std::alloc::{AllocError, Global};
use std::process::Abort;
use std::sync::Wait;
use std::sync::atomic::AtomicU32;
use std::sync::atomic::Ordering::SeqCst;
use std::test::Fail;

/// How often a unit looks whether the other has come.
const TURNS: u32 = 400_000_000;

/// Counts the calls of the units of one request, and of any other unit.
#[derive(Drop)]
struct Calls {
    work: AtomicU32,
    finish: AtomicU32,
    others: AtomicU32,
}

impl Calls {
    fn new() -> Calls {
        Calls {
            work: AtomicU32::new(0),
            finish: AtomicU32::new(0),
            others: AtomicU32::new(0),
        }
    }

    fn count(&self, unit: &Unit) {
        let calls = match unit {
            Unit::Work => &self.work,
            Unit::Finish(_) => &self.finish,
            _ => &self.others,
        };
        calls.fetch_add(1, SeqCst);
    }

    /// Whether each unit was called once, and no other.
    fn are_once(&self) -> bool {
        self.work.load(SeqCst) == 1
            && self.finish.load(SeqCst) == 1
            && self.others.load(SeqCst) == 0
    }
}

/// Counts the calls of each unit of the first two requests, and holds each unit of plain work until two have come.
#[derive(Drop)]
struct Meeting {
    first: Calls,
    second: Calls,
    /// Units of any other request.
    others: AtomicU32,
    works: AtomicU32,
    met: AtomicU32,
}

impl Meeting {
    fn new() -> Meeting {
        Meeting {
            first: Calls::new(),
            second: Calls::new(),
            others: AtomicU32::new(0),
            works: AtomicU32::new(0),
            met: AtomicU32::new(0),
        }
    }

    fn count(&self, grant: &Grant) {
        match grant.r {
            0 => self.first.count(grant.unit.get()),
            1 => self.second.count(grant.unit.get()),
            _ => {
                self.others.fetch_add(1, SeqCst);
            }
        }
    }

    /// Whether each of the two requests' units was called once, and no other.
    fn called_each_once(&self) -> bool {
        self.first.are_once() && self.second.are_once() && self.others.load(SeqCst) == 0
    }

    /// Waits until two have come, for so many turns.
    fn meet(&self) {
        self.works.fetch_add(1, SeqCst);
        for _ in 0..TURNS {
            if self.works.load(SeqCst) >= 2 {
                self.met.fetch_add(1, SeqCst);
                break;
            }
        }
    }
}

impl Gate for Meeting {
    fn unit<R: Wait>(&self, _rt: &R, grant: &Grant) {
        self.count(grant);
        if let Unit::Work = grant.unit.get() {
            self.meet();
        }
    }
}

fn member(alloc: Global, name: &str, args: &str) -> Result<(String, String), AllocError> {
    let text = format!(in alloc;
        "performer {name}\naction move\nargs {args}\njob\nwork\nfinish ok\nend\n"
    )?;
    Ok((String::from_str(alloc, name)?, text))
}

fn texts(alloc: Global) -> Result<Texts, AllocError> {
    let mut members = Vec::new(alloc);
    members.push(member(alloc, "first", "leia _ _")?)?;
    members.push(member(alloc, "second", "r2 _ _")?)?;
    let script = String::from_str(alloc, BOTH)?;
    Ok(Texts { script, members })
}

/// The hand of the entry that records plain work on behalf of a member.
fn hand_of<'a>(journal: &'a str, member: &str) -> Option<&'a str> {
    for line in journal.lines() {
        if line.contains(" unitwork ") && line.ends_with(member) {
            return line.split(' ').next();
        }
    }
    None
}

fn assert_met(rt: &impl Abort, meeting: &Meeting, answer: &Answer) -> Result<(), Fail> {
    let journal = answer.out.as_str();
    assert_eq!(rt; answer.status, 0, "{journal}");
    assert!(rt; meeting.called_each_once(), "{journal}");
    assert_eq!(rt; meeting.met.load(SeqCst), 2, "{journal}");
    let first = hand_of(journal, "first").ok_or("no work")?;
    let second = hand_of(journal, "second").ok_or("no work")?;
    assert!(rt; first != second, "{journal}");
    Ok(())
}

#[test]
fn two_workers_work_at_the_same_time(rt: HostRuntime) -> Result<(), Fail> {
    let texts = texts(rt.alloc())?;
    let meeting = Meeting::new();
    let answer = session(&rt, rt.alloc(), &texts, 2, &meeting)?;
    assert_met(&rt, &meeting, &answer)?;
    let judged = replay(&rt, rt.alloc(), &texts, answer.out.as_str())?;
    assert_eq!(rt; judged.out.as_str(), "legal\n");
    Ok(())
}
