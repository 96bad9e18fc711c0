//! The lines of an editor, one after another.
ghost use Rattle.std.specs.Prelude.{◌≡◌, None, slice_index_or};
ghost use Rattle.ps_problem.specs.WellKnown.{HasConstants};
ghost use Rattle.ps_world.specs.Knowledge.{opening};
ghost use Rattle.ps_undo.specs.Editing.{AreWellKnown, begun};
ghost use Rattle.ps_editing.specs.Lines.{worded};
ghost use Rattle.ps_editing.specs.Parts.{WritesAnswer, WritesLine};
ghost use Rattle.ps_editing.specs.Runs.{WritesRun};

use super::answers::{Answer, is_refused};
use super::lines::answer;
use super::texts::line_text;
use ps_domain::Expert;
use ps_edit_words::EditWord;
use ps_machine::Line;
use ps_problem::Problem;
use ps_text::{Names, Sink, SinkRefusal, put};
use ps_undo::Undo;
use ps_world::Domain;
use std::alloc::Global;

/// The line that the text begins with.
const TITLE: &[u8] = b"plansys-edit 1\n";

/// The word at a place, or none past the end.
fn word_at(words: &[Option<EditWord>], i: usize) -> Option<EditWord>
    ensures { result ≡ slice_index_or words.now i None }
{
    match words.get(i) {
        Some(word) => *word,
        None => None,
    }
}

/// Writes the text of the answer to the line with this number, where this is known, by one `put`. Answers whether the line is refused.
fn write_answer<O: Sink>(
    alloc: Global,
    names: &Names,
    expert: &Expert,
    problem: &Problem,
    n: usize,
    answer: &Answer,
    out: &mut O,
) -> Result<bool, SinkRefusal>
    ensures { WritesAnswer expert.now names.now n answer.now problem.now (O.shown out.old)
        (O.shown out.new) result }
{
    let text = line_text(alloc, names, expert, problem, n, answer)?;
    put(out, &text)?;
    Ok(is_refused(answer))
}

/// Does the line with this number, and writes the text of that. Answers whether it was refused.
fn write_line<O: Sink>(
    alloc: Global,
    names: &Names,
    expert: &Expert,
    undo: &mut Undo,
    n: usize,
    line: &Line,
    word: Option<EditWord>,
    out: &mut O,
) -> Result<bool, SinkRefusal>
    requires { AreWellKnown expert.now undo.old }
    ensures { WritesLine expert.now names.now n (line.now, word) undo.old undo.new
        (O.shown out.old) (O.shown out.new) result }
{
    let answer = answer(alloc, names, expert, undo, line, word)?;
    write_answer(alloc, names, expert, undo.problem(), n, &answer, out)
}

/// Does the lines of a script, each with what it says to an editor alone, and writes the text of that.
fn write_lines<O: Sink>(
    alloc: Global,
    names: &Names,
    expert: &Expert,
    undo: &mut Undo,
    lines: &[Line],
    words: &[Option<EditWord>],
    out: &mut O,
) -> Result<u8, SinkRefusal>
    requires constants { HasConstants expert.now }
    requires begun { undo.old ≡ begun (opening expert.now) }
    ensures { WritesRun expert.now names.now (worded lines.now words.now) (O.shown out.old)
        (O.shown out.new) result }
{
    put(out, TITLE)?;
    let mut refused = false;
    for (i, line) in lines.iter().enumerate() {
        let word = word_at(words, i);
        refused |= write_line(alloc, names, expert, undo, i + 1, line, word, out)?;
    }
    Ok(u8::from(refused))
}

/// Does the lines of a script from the constants of a domain on.
fn write_run<O: Sink>(
    alloc: Global,
    names: &Names,
    expert: &Expert,
    lines: &[Line],
    words: &[Option<EditWord>],
    out: &mut O,
) -> Result<u8, SinkRefusal>
    requires { HasConstants expert.now }
    ensures { WritesRun expert.now names.now (worded lines.now words.now) (O.shown out.old)
        (O.shown out.new) result }
{
    let mut undo = Undo::new(Problem::new(alloc, expert)?);
    write_lines(alloc, names, expert, &mut undo, lines, words, out)
}

/// Does the lines of a script as an editor that begins with the constants of a domain, each line with what it says to an editor alone. It
/// writes the text of that, the title and each line with its replies by one `put`. The status is 1 where a line was refused, else 0.
pub fn run_edits<O: Sink>(
    alloc: Global,
    names: &Names,
    domain: Domain,
    lines: &[Line],
    words: &[Option<EditWord>],
    out: &mut O,
) -> Result<u8, SinkRefusal>
    requires { HasConstants domain }
    ensures { WritesRun domain names.now (worded lines.now words.now) (O.shown out.old)
        (O.shown out.new) result }
{
    let expert = Expert::new(alloc, domain)?;
    write_run(alloc, names, &expert, lines, words, out)
}
