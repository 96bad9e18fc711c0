//! A script with the lines of its files put in place of the lines that name them.
ghost use Rattle.std.specs.Prelude.{◌≤◌, length};
ghost use Rattle.ps_inputs.specs.Reading.{most_lines};
ghost use Rattle.ps_inputs.specs.Parts.{Opens, ReadsFileLine, ReadsScript, Walks};

use super::files::read_text;
use super::scripts::{Script, put_deep, put_line, put_plan};
use crate::faults::Fault;
use ps_script::{Read, read_line};
use ps_text::{Files, Names, script_lines};
use ps_world::Failure;
use std::alloc::Global;

/// How many levels of files may be opened: the script's own, and four from there.
const LEVELS: u8 = 5;

/// Reads the lines of a file, where as many levels of files may be opened; where none may, one line stands too deep. Answers whether the
/// script ends with it.
#[cycle(flatten)]
fn open<F: Files>(
    alloc: Global,
    files: &mut F,
    levels: u8,
    file: &str,
    script: &mut Script,
) -> Result<bool, Failure<Fault>>
    requires { length script.old.lines.items ≤ most_lines }
    ensures { Opens levels file.now (F.shown files.old)
        (F.shown files.new) script.old script.new result }
{
    if levels == 0 {
        return put_deep(script);
    }
    let text = read_text(alloc, file, files)?;
    walk(alloc, files, levels - 1, text.as_slice(), script)
}

/// Reads one line of a file, with all lines of the file that it may name. Answers whether the script ends with it.
#[cycle(flatten)]
fn take<F: Files>(
    alloc: Global,
    files: &mut F,
    levels: u8,
    line: &[u8],
    script: &mut Script,
) -> Result<bool, Failure<Fault>>
    requires { length script.old.lines.items ≤ most_lines }
    ensures { ReadsFileLine levels line.now (F.shown files.old)
        (F.shown files.new) script.old script.new result }
{
    match read_line(alloc, &mut script.names, line)? {
        Read::Nothing => Ok(false),
        Read::Line(read) => put_line(line, read, script),
        Read::RunPlan(file) => put_plan(alloc, files, file.as_str(), script),
        Read::Source(file) => open(alloc, files, levels, file.as_str(), script),
    }
}

/// Reads the lines of a text, up to the one that ends the script. Answers whether one does.
#[cycle(flatten)]
fn walk<F: Files>(
    alloc: Global,
    files: &mut F,
    levels: u8,
    text: &[u8],
    script: &mut Script,
) -> Result<bool, Failure<Fault>>
    requires { length script.old.lines.items ≤ most_lines }
    ensures { Walks levels text.now (F.shown files.old)
        (F.shown files.new) script.old script.new result }
{
    let spans = script_lines(alloc, text)?;
    for span in &spans {
        let ended = take(alloc, files, levels, &text[span.from..span.to], script)?;
        if ended {
            return Ok(true);
        }
    }
    Ok(false)
}

/// The lines of the script in a file, with the lines of the files that it names in their places, each read as it is taken.
///
/// A line that names a file and stands in the fifth file in a row is too deep. A `quit` line ends all files, and nothing after it is
/// read. The file of a plan that a line runs is read where the line stands. The first fault decides: a file that can't be read, that is
/// too long, or one line more than 10,000.
pub fn read_script<F: Files>(
    alloc: Global,
    names: Names,
    file: &str,
    files: &mut F,
) -> Result<Script, Failure<Fault>>
    ensures { ReadsScript names file.now (F.shown files.old) (F.shown files.new) result }
{
    let lines = Vec::new(alloc);
    let words = Vec::new(alloc);
    let mut script = Script {
        names,
        lines,
        words,
    };
    open(alloc, files, LEVELS, file, &mut script)?;
    Ok(script)
}
