//! Two of eight workers look for a plan at the same time, and no third.
ghost use Rattle.std.specs.Prelude.{◌≡◌, IfOk, IsSome, ◌≤◌};
ghost use Rattle.ps_action.specs.Search.{answer, Fits};

use super::calls::{Texts, session_of};
use super::rooms::CHARGING;
use ps_action::Answer;
use ps_domain::Expert;
use ps_inputs::Session;
use ps_plan::Solver;
use ps_pool::NoGate;
use ps_problem::Problem;
use ps_session::{Turns, run};
use ps_solve::Forward;
use ps_text::MemSink;
use std::alloc::{AllocError, Global};
use std::process::Abort;
use std::str;
use std::sync::Wait;
use std::sync::atomic::AtomicU32;
use std::sync::atomic::Ordering::SeqCst;
use std::test::Fail;
use std::thread::Threads;

/// How often a search looks whether another has come.
const TURNS: u32 = 400_000_000;

/// How often a search looks whether a third has come, once there are two.
const LOOKS: u32 = 10_000_000;

/// Answers as `Forward`, but holds each search after the first, which is that of the line, until two more have come, and then some time in
/// which a third could come.
#[derive(Drop)]
struct Searching {
    forward: Forward,
    calls: AtomicU32,
    met: AtomicU32,
}

impl Searching {
    /// Whether two searches have come after the first, for which it waits so many turns.
    fn meets(&self) -> bool {
        for _ in 0..TURNS {
            if self.calls.load(SeqCst) >= 3 {
                self.met.fetch_add(1, SeqCst);
                return true;
            }
        }
        false
    }

    /// Waits for a third.
    fn look(&self) {
        for _ in 0..LOOKS {
            if self.calls.load(SeqCst) > 3 {
                break;
            }
        }
    }
}

impl Solver for Searching {
    ghost says = { λ _ d k budget. answer d k budget };

    fn solve(
        &self,
        alloc: Global,
        expert: &Expert,
        problem: &Problem,
        budget: u32,
    ) -> Result<Answer, AllocError> {
        if self.calls.fetch_add(1, SeqCst) > 0 && self.meets() {
            self.look();
        }
        self.forward.solve(alloc, expert, problem, budget)
    }
}

const CHARGER: &str = "performer charger\naction charge\nargs _ _\njob\nfinish ok\nend\n";

/// Nobody moves, so the first plan fails, and another is looked for.
fn texts(alloc: Global) -> Result<Texts, AllocError> {
    let mut members = Vec::new(alloc);
    let name = String::from_str(alloc, "charger")?;
    members.push((name, String::from_str(alloc, CHARGER)?))?;
    let script = String::from_str(alloc, CHARGING)?;
    Ok(Texts { script, members })
}

const LINE: &str = "session --domain domain --script script --replans 1 charger";

#[test]
fn two_of_eight_workers_search_at_the_same_time(rt: HostRuntime) -> Result<(), Fail> {
    let alloc = rt.alloc();
    let Session { names, input, .. } = session_of(alloc, &texts(alloc)?, LINE)?;
    let mut out = MemSink::new(alloc, usize::MAX);
    let solver = Searching {
        forward: Forward::new(),
        calls: AtomicU32::new(0),
        met: AtomicU32::new(0),
    };
    let turns = Turns::Workers(8);
    let status = run(&rt, alloc, &names, input, &solver, &NoGate, turns, &mut out)?;
    let journal = str::from_utf8(out.bytes())?;
    assert_eq!(rt; status, 1);
    assert!(rt; journal.ends_with(" over failed noplan\n"), "{journal}");
    assert_eq!(rt; solver.met.load(SeqCst), 2, "{journal}");
    assert_eq!(rt; solver.calls.load(SeqCst), 3, "{journal}");
    Ok(())
}
