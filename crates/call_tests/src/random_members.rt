//! Sessions of random members, whose runs so many workers do.
ghost use Rattle.std.specs.Prelude.{◌<◌, length};

use super::calls::{Answer, Texts, replay, session};
use super::dice::Dice;
use super::rooms::{BOTH, CHARGING};
use ps_pool::NoGate;
use std::alloc::{AllocError, Global};
use std::process::Abort;
use std::sync::Wait;
use std::test::Fail;
use std::thread::Threads;

const SCRIPTS: &[&str] = &[BOTH, CHARGING];

/// What comes after the first run.
const LINES: &[&str] = &[
    "run\n",
    "get tree\n",
    "set predicate (robot_at leia entrance)\n",
    "remove predicate (battery_full leia)\n",
    "set goal (and (robot_at leia entrance))\n",
    "run action (charge leia chargingroom)\n",
];

/// Units of work but the last.
const UNITS: &[&str] = &[
    "work\n",
    "feedback 50 halfway\n",
    "set predicate (robot_at leia entrance)\n",
    "remove predicate (battery_full leia)\n",
    "set predicate (battery_full leia)\n",
    "set predicate (nothing leia)\n",
];

const LAST_UNITS: &[&str] = &["finish ok\n", "finish ok\n", "finish ok\n", "finish fail\n"];

/// Edits of an observer.
const EDITS: &[&str] = &[
    "set predicate (battery_low leia)\n",
    "set predicate (connected entrance kitchen)\n",
    "when (robot_at leia kitchen)\nset predicate (connected kitchen entrance)\n",
    "when (battery_low leia)\nremove predicate (battery_full leia)\n",
];

const HEADS: &[&str] = &[
    "performer mover\naction move\nargs _ _ _\n",
    "performer other\naction move\nargs leia _ _\n",
    "performer asker\naction askcharge\nargs _ _ _\n",
    "performer charger\naction charge\nargs _ _\n",
];

/// Adds a few of these texts.
fn add_some(
    text: &mut String,
    dice: &mut Dice,
    most: u64,
    texts: &'static [&'static str],
) -> Result<(), AllocError>
    requires most { most < 10 }
    requires some { 0 < length texts.now }
{
    for _ in 0..dice.roll(most + 1) {
        text.push_str(dice.pick(texts))?;
    }
    Ok(())
}

/// A performer with this head and one or two jobs.
fn performer(alloc: Global, dice: &mut Dice, head: &str) -> Result<String, AllocError> {
    let mut text = String::from_str(alloc, head)?;
    for _ in 0..dice.roll(2) + 1 {
        text.push_str("job\n")?;
        add_some(&mut text, dice, 3, UNITS)?;
        text.push_str(dice.pick(LAST_UNITS))?;
    }
    text.push_str("end\n")?;
    Ok(text)
}

fn observer(alloc: Global, dice: &mut Dice) -> Result<String, AllocError> {
    let mut text = String::from_str(alloc, "observer watcher\n")?;
    add_some(&mut text, dice, 3, EDITS)?;
    text.push_str("end\n")?;
    Ok(text)
}

fn texts(alloc: Global, dice: &mut Dice) -> Result<Texts, AllocError> {
    let mut script = String::from_str(alloc, dice.pick(SCRIPTS))?;
    add_some(&mut script, dice, 6, LINES)?;
    let mut members = Vec::new(alloc);
    members.push((String::from_str(alloc, "watcher")?, observer(alloc, dice)?))?;
    for head in HEADS {
        let text = performer(alloc, dice, head)?;
        let name = format!(in alloc; "member{}", members.len())?;
        members.push((name, text))?;
    }
    Ok(Texts { script, members })
}

/// The texts of a session that looks random.
pub fn random_texts(alloc: Global, seed: u64) -> Result<Texts, AllocError> {
    texts(alloc, &mut Dice { state: seed })
}

/// What came in sessions.
#[derive(Clone, Copy)]
struct Seen {
    replan: bool,
    cancel: bool,
}

impl Seen {
    fn take(&mut self, journal: &str) {
        self.replan |= journal.contains(" replan ");
        self.cancel |= journal.contains(" cancel ");
    }
}

/// The status that the text of a journal tells.
fn status_told(journal: &str) -> u8 {
    u8::from(journal.contains(" refused terminal ") || journal.contains(" over failed "))
}

/// Does a session by so many workers, and has its journal judged.
fn assert_session<R: Threads + Wait + Sync + Abort>(
    rt: &R,
    alloc: Global,
    seed: u64,
    workers: u32,
    seen: &mut Seen,
) -> Result<(), Fail> {
    let texts = random_texts(alloc, seed)?;
    let Answer { status, out, .. } = session(rt, alloc, &texts, workers, &NoGate)?;
    let journal = out.as_str();
    assert_eq!(rt; status, status_told(journal), "{seed}");
    let judged = replay(rt, alloc, &texts, journal)?;
    assert_eq!(rt; judged.out.as_str(), "legal\n", "{seed}: {journal}");
    seen.take(journal);
    Ok(())
}

/// Does sessions with many seeds, and sees that plans were made anew and acts cancelled in some.
fn assert_sessions<R: Threads + Wait + Sync + Abort>(
    rt: &R,
    alloc: Global,
    workers: u32,
) -> Result<(), Fail> {
    let mut seen = Seen {
        replan: false,
        cancel: false,
    };
    for seed in 1..71 {
        assert_session(rt, alloc, seed * 7919, workers, &mut seen)?;
    }
    assert!(rt; seen.replan, "no plan was made anew");
    assert!(rt; seen.cancel, "no act was cancelled");
    Ok(())
}

#[test]
fn two_workers(rt: HostRuntime) -> Result<(), Fail> {
    assert_sessions(&rt, rt.alloc(), 2)
}

#[test]
fn three_workers(rt: HostRuntime) -> Result<(), Fail> {
    assert_sessions(&rt, rt.alloc(), 3)
}

#[test]
fn sixteen_workers(rt: HostRuntime) -> Result<(), Fail> {
    assert_sessions(&rt, rt.alloc(), 16)
}
