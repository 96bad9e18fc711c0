//! The lines that tell what is known, in the order of their bytes.
ghost use Rattle.std.specs.Prelude.{◌≡◌, ◌∷◌, [], ◌++◌, map, IfOk, OnOk};
ghost use Rattle.std.specs.Option.{option_copied};
ghost use Rattle.ps_rules.specs.Journal.{in_order, instance_text, goal_line, reply_text};

use super::printed::{LINE_BYTES, Printed, push_after};
use super::replies::push_reply;
use ps_text::Names;
use ps_world::{Cond, Name, Seq};
use std::alloc::{AllocError, Global};

/// The text of an instance with its type.
impl Printed for (Name, Name) {
    ghost text = { instance_text };

    fn print(&self, names: &Names, out: &mut Vec<u8>) -> Result<(), AllocError> {
        self.0.print(names, out)?;
        push_after(b" - ", &self.1, names, out)
    }
}

/// The texts of values.
fn texts_of<T: Printed>(
    alloc: Global,
    values: &[T],
    names: &Names,
) -> Result<Vec<Seq<u8>>, AllocError>
    ensures { IfOk result (λ lines. lines.items ≡ map (T.text names.now) values.now) }
{
    let mut lines = Vec::with_capacity(alloc, values.len())?;
    for value in values {
        let mut line = Vec::with_capacity(alloc, LINE_BYTES)?;
        value.print(names, &mut line)?;
        lines.push(Seq::of(line))?;
    }
    Ok(lines)
}

/// Puts lines in the order of their bytes, each once.
fn put_in_order(lines: &mut Vec<Seq<u8>>)
    ensures { lines.new.items ≡ in_order lines.old.items }
{
    lines.sort_unstable();
    lines.dedup();
}

/// Adds lines, each as a reply.
fn push_lines(lines: &[Seq<u8>], out: &mut Vec<u8>) -> Result<(), AllocError>
    ensures { OnOk result (out.new.items ≡ out.old.items ++ reply_text lines.now) }
{
    for line in lines {
        push_reply(line.as_slice(), out)?;
    }
    Ok(())
}

/// Adds the texts of values in the order of their bytes, each as a reply.
pub fn push_in_order<T: Printed>(
    alloc: Global,
    values: &[T],
    names: &Names,
    out: &mut Vec<u8>,
) -> Result<(), AllocError>
    ensures { OnOk result (out.new.items ≡ out.old.items
        ++ reply_text (in_order (map (T.text names.now) values.now))) }
{
    let mut lines = texts_of(alloc, values, names)?;
    put_in_order(&mut lines);
    push_lines(lines.as_slice(), out)
}

/// Adds the reply that tells the goal, or that there is none.
pub fn push_goal(
    alloc: Global,
    goal: Option<&Cond>,
    names: &Names,
    out: &mut Vec<u8>,
) -> Result<(), AllocError>
    ensures { OnOk result (out.new.items ≡ out.old.items
        ++ reply_text (goal_line names.now (option_copied goal.entry) ∷ [])) }
{
    let mut line = Vec::new(alloc);
    match goal {
        None => line.extend_from_slice(b"none")?,
        Some(goal) => goal.print(names, &mut line)?,
    }
    push_reply(line.as_slice(), out)
}
