//! Entries that are judged by the steps of a replay.
ghost use Rattle.std.specs.Prelude.{[]};
ghost use Rattle.ps_rules.specs.Sound.{IsSound};
ghost use Rattle.ps_replay.specs.Judge.{Reaches};

use ps_machine::{Entry, Input};
use ps_replay::{Judge, Verdict};
use ps_solve::Forward;
use std::alloc::{AllocError, Global};

/// Judges entries, whose judge is before the first of them.
fn judge_all(
    alloc: Global,
    input: &Input,
    entries: &[Entry],
    judge: &mut Judge,
) -> Result<Verdict, AllocError>
    requires sound { IsSound input.now }
    requires reaches { Reaches input.now [] judge.now }
{
    let solver = Forward::new();
    for (at, entry) in entries.iter().enumerate() {
        let before = &entries[..at];
        let comes = judge.step(alloc, &solver, input, before, entry)?;
        if !comes {
            return Ok(Verdict::Illegal { at });
        }
    }
    if judge.is_whole() {
        Ok(Verdict::Legal)
    } else {
        Ok(Verdict::Illegal { at: entries.len() })
    }
}

/// What entries are judged to be. There is no text of them, as an audit wants one.
pub fn judged(alloc: Global, input: &Input, entries: &[Entry]) -> Result<Verdict, AllocError>
    requires { IsSound input.now }
{
    let mut judge = Judge::new(alloc, input)?;
    judge_all(alloc, input, entries, &mut judge)
}
