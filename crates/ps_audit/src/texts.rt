//! Judging the entries of a journal, and their text.
ghost use Rattle.std.specs.Prelude.{◌≡◌, ◌<◌, ◌++◌, [], length, map, IfOk, IsTrue, OnOk};
ghost use Rattle.ps_world.specs.Lines.{line_end};
ghost use Rattle.ps_machine.specs.declared.inputs.Query.TheVariants.{Tree};
ghost use Rattle.ps_machine.specs.declared.journal.Event.TheVariants.{Ask};
ghost use Rattle.ps_machine.specs.Texts.{entry_line};
ghost use Rattle.ps_rules.specs.Journal.{entry_text, text_after};
ghost use Rattle.ps_rules.specs.Sound.{IsSound};
ghost use Rattle.ps_state.specs.Awaiting.{KeepsStanding};
ghost use Rattle.ps_replay.specs.Judge.{GoesTo, may_come, Reaches, still_due};
ghost use Rattle.ps_replay.specs.Replay.{Replays};
ghost use Rattle.ps_replies.specs.Plans.{GivesLeast};
ghost use Rattle.ps_audit.specs.EntryLines.{asks};
ghost use Rattle.ps_audit.specs.Texts.{AddsIfLegal};

use super::entry_lines::EntryLines;
use ps_machine::{Entry, Event, Input, Query};
use ps_plan::Solver;
use ps_replay::{Judge, Verdict};
use ps_replies::push_entry;
use ps_state::State;
use ps_text::Names;
use std::alloc::{AllocError, Global};

/// Lets the tree show the states of the acts, where an event asks for it.
fn show_tree(state: &mut State, what: &Event)
    requires { length state.now.ledger.acts.states.items ≡ length state.now.tree.waits }
    ensures states { what.now ≡ Ask Tree
        → state.new.tree.states ≡ state.new.ledger.acts.states.items }
    ensures stands { KeepsStanding state.old state.new }
{
    if let Event::Ask(Query::Tree) = what {
        state.tick_tree();
    }
}

/// Whether an event asks something.
fn asks(what: &Event) -> bool
    ensures { result ≡ asks what.now }
{
    match what {
        Event::Ask(_) => true,
        _ => false,
    }
}

/// Adds a line with its end.
fn push_line(line: &[u8], out: &mut Vec<u8>) -> Result<(), AllocError>
    ensures { OnOk result (out.new.items ≡ out.old.items ++ (line.now ++ line_end)) }
{
    out.extend_from_slice(line)?;
    out.push(b'\n')?;
    Ok(())
}

/// Judges the entry that comes after these, of which this is the line. Whether it may: then it is taken, and its text is added.
// Its line was compared with what is printed of it when it was read, so it is copied; only a query has more.
fn judge_one<S: Solver>(
    alloc: Global,
    names: &Names,
    input: &Input,
    before: &[Entry],
    entry: &Entry,
    line: &[u8],
    solver: &S,
    judge: &mut Judge,
    out: &mut Vec<u8>,
) -> Result<bool, AllocError>
    requires sound { IsSound input.now }
    requires solver { GivesLeast (S.says solver.now) }
    requires line { line.now ≡ entry_line names.now entry.now }
    requires few { length before.now < 18446744073709551615 }
    requires reaches { Reaches input.now before.now judge.now }
    ensures answer { IfOk result
        (λ b. b ≡ may_come input.now before.now (still_due judge.old) entry.now) }
    ensures comes { IfOk result (λ b. IsTrue b
        → GoesTo input.now before.now entry.now (still_due judge.old) judge.new) }
    ensures text { IfOk result (λ b. IsTrue b → out.new.items
        ≡ out.old.items ++ entry_text names.now input.now before.now entry.now) }
{
    let comes = judge.step(alloc, solver, input, before, entry)?;
    if !comes {
        return Ok(false);
    }
    if !asks(&entry.what) {
        push_line(line, out)?;
        return Ok(true);
    }
    show_tree(&mut judge.state, &entry.what);
    push_entry(
        alloc,
        names,
        &judge.state.expert,
        &judge.state.problem,
        judge.plan.as_slice(),
        Some(&judge.state.tree),
        entry,
        out,
    )?;
    Ok(true)
}

/// Judges the entries of a journal, of which these are the lines, and whose judge is before the first of them, and adds their text.
fn judge_all<S: Solver>(
    alloc: Global,
    names: &Names,
    input: &Input,
    entries: &[Entry],
    lines: &EntryLines,
    solver: &S,
    judge: &mut Judge,
    out: &mut Vec<u8>,
) -> Result<Verdict, AllocError>
    requires sound { IsSound input.now }
    requires solver { GivesLeast (S.says solver.now) }
    requires lines { lines.now ≡ map (entry_line names.now) entries.now }
    requires reaches { Reaches input.now [] judge.now }
    ensures verdict { Replays input.now entries.now result }
    ensures text { IfOk result (AddsIfLegal (text_after names.now input.now [] entries.now)
        out.old.items out.new.items) }
{
    for (at, entry) in entries.iter().enumerate() {
        let before = &entries[..at];
        let line = lines.line(at);
        let comes = judge_one(alloc, names, input, before, entry, line, solver, judge, out)?;
        if !comes {
            return Ok(Verdict::Illegal { at });
        }
    }
    if judge.is_whole() {
        Ok(Verdict::Legal)
    } else {
        Ok(Verdict::Illegal { at: entries.len() })
    }
}

/// Judges the entries of a journal, of which these are the lines: whether they are a whole history of an input, or how many of the first ones are
/// a prefix of a history. Their text is added, without a head; where they are no whole history some of it may be. It goes over the
/// entries once. The only error is out of memory.
pub fn judge_text<S: Solver>(
    alloc: Global,
    names: &Names,
    input: &Input,
    entries: &[Entry],
    lines: &EntryLines,
    solver: &S,
    out: &mut Vec<u8>,
) -> Result<Verdict, AllocError>
    requires sound { IsSound input.now }
    requires solver { GivesLeast (S.says solver.now) }
    requires lines { lines.now ≡ map (entry_line names.now) entries.now }
    ensures verdict { Replays input.now entries.now result }
    ensures text { IfOk result (AddsIfLegal (text_after names.now input.now [] entries.now)
        out.old.items out.new.items) }
{
    let mut judge = Judge::new(alloc, input)?;
    judge_all(alloc, names, input, entries, lines, solver, &mut judge, out)
}
