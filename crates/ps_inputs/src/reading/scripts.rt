//! The lines of a script.
ghost use Rattle.std.specs.Prelude.{◌≡◌, ◌≤◌, [], ◌∷◌, ◌++◌, length, IfOk, OnOk};
ghost use Rattle.ps_inputs.specs.Reading.{most_lines};
ghost use Rattle.ps_inputs.specs.Scripts.{ends_script, plan_in};
ghost use Rattle.ps_inputs.specs.Parts.{HasRoom, PutsDeep, PutsLine, PutsReadPlan};

use super::files::read_text;
use crate::faults::Fault;
use ps_action::{PlanStep, PlanTextRefusal};
use ps_edit_words::{EditWord, edit_word};
use ps_machine::{Command, Line, LineCause};
use ps_plan::read_plan;
use ps_text::{Files, Names};
use ps_world::{Failure, Seq};
use std::alloc::{AllocError, Global};

/// The most command lines of a script with its files.
const MOST_LINES: usize = 10_000;

/// The lines of a script, with the table of all names that were read, and what each line of a file says to an editor alone, if it begins
/// with a word that no session knows.
#[derive(Drop)]
pub struct Script {
    pub names: Names,
    pub lines: Vec<Line>,
    pub words: Vec<Option<EditWord>>,
}

/// Refuses where there is no room for one line more.
fn check_room(lines: &[Line]) -> Result<(), Failure<Fault>>
    ensures { HasRoom (length lines.now) result }
{
    if lines.len() >= MOST_LINES {
        return Err(Failure::Refused(Fault::Lines));
    }
    Ok(())
}

/// Whether a line ends the script.
fn ends_script(line: &Line) -> bool
    ensures { result ≡ ends_script line.now }
{
    matches!(line, Line::Good(Command::Quit))
}

/// Puts a line at the end. There is room first, since a push that may fail moves a line, which is large, once more.
pub fn push_line(line: Line, all: &mut Vec<Line>) -> Result<(), AllocError>
    ensures { OnOk result (all.new.items ≡ all.old.items ++ line ∷ []) }
{
    all.reserve(1)?;
    all.push_reserved(line);
    Ok(())
}

/// The steps of a plan's text, or its first fault. Its names are put into the table, unless it has a fault.
fn plan_in(
    alloc: Global,
    names: &mut Names,
    text: &[u8],
) -> Result<Result<Seq<PlanStep>, PlanTextRefusal>, AllocError>
    ensures { IfOk result (λ plan. plan_in names.old text.now ≡ (plan, names.new)) }
{
    match read_plan(alloc, names, text) {
        Ok(steps) => Ok(Ok(Seq::of(steps))),
        Err(Failure::Refused(fault)) => Ok(Err(fault)),
        Err(Failure::OutOfMemory) => Err(AllocError),
    }
}

/// Puts the line that a command line is read as at the end of those before it. Answers whether it ends the script.
pub fn put_line(bytes: &[u8], line: Line, script: &mut Script) -> Result<bool, Failure<Fault>>
    requires { length script.old.lines.items ≤ most_lines }
    ensures { PutsLine bytes.now line script.old script.new result }
{
    check_room(script.lines.as_slice())?;
    let ends = ends_script(&line);
    push_line(line, &mut script.lines)?;
    script.words.push(edit_word(bytes))?;
    Ok(ends)
}

/// Puts a line that stands too deep at the end of those before it. It doesn't end the script.
pub fn put_deep(script: &mut Script) -> Result<bool, Failure<Fault>>
    requires { length script.old.lines.items ≤ most_lines }
    ensures { PutsDeep script.old script.new result }
{
    check_room(script.lines.as_slice())?;
    script.lines.push(Line::Bad(LineCause::Nest))?;
    script.words.push(None)?;
    Ok(false)
}

/// Puts a line that runs the plan in a file at the end of those before it, with the plan, and its names into the table. It doesn't end
/// the script.
pub fn put_plan<F: Files>(
    alloc: Global,
    files: &mut F,
    file: &str,
    script: &mut Script,
) -> Result<bool, Failure<Fault>>
    requires { length script.old.lines.items ≤ most_lines }
    ensures { PutsReadPlan file.now (F.shown files.old)
        (F.shown files.new) script.old script.new result }
{
    check_room(script.lines.as_slice())?;
    let text = read_text(alloc, file, files)?;
    let plan = plan_in(alloc, &mut script.names, text.as_slice())?;
    push_line(Line::Good(Command::RunPlan(plan)), &mut script.lines)?;
    script.words.push(None)?;
    Ok(false)
}
