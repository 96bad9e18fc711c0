//! The texts of facts, values, goals, acts, steps and edits.
ghost use Rattle.std.specs.Prelude.{◌≡◌, ◌++◌, OnOk};
ghost use Rattle.ps_world.specs.Numbers.{number_text};
ghost use Rattle.ps_world.specs.Texts.{args_text, fact_text, value_text, goal_text, edit_text};
ghost use Rattle.ps_action.specs.Texts.{step_line};
ghost use Rattle.ps_machine.specs.Texts.{act_text};

use super::printed::{Printed, push_after, push_both, push_spaced};
use ps_action::{Act, PlanStep};
use ps_print::push_condition;
use ps_text::{NUMBER_BYTES, Names, print_number};
use ps_world::{Cond, Edit, Fact, Name, Num};
use std::alloc::AllocError;

impl Printed for Num {
    ghost text = { λ names number. number_text number };

    fn print(&self, _names: &Names, out: &mut Vec<u8>) -> Result<(), AllocError> {
        let mut bytes = [0; NUMBER_BYTES];
        let count = print_number(*self, &mut bytes);
        out.extend_from_slice(&bytes[..count])
    }
}

/// Adds names, each after a space.
fn push_args(args: &[Name], names: &Names, out: &mut Vec<u8>) -> Result<(), AllocError>
    ensures { OnOk result (out.new.items ≡ out.old.items ++ args_text names.now args.now) }
{
    for name in args {
        push_spaced(name, names, out)?;
    }
    Ok(())
}

impl Printed for Fact {
    ghost text = { fact_text };

    fn print(&self, names: &Names, out: &mut Vec<u8>) -> Result<(), AllocError> {
        out.push(b'(')?;
        self.head.print(names, out)?;
        push_args(self.args.as_slice(), names, out)?;
        out.push(b')')?;
        Ok(())
    }
}

/// Adds words, and the value of a function at its arguments after them.
fn push_value_after(
    words: &[u8],
    fact: &Fact,
    number: &Num,
    names: &Names,
    out: &mut Vec<u8>,
) -> Result<(), AllocError>
    ensures { OnOk result (out.new.items ≡ out.old.items
        ++ (words.now ++ value_text names.now fact.now number.now)) }
{
    out.extend_from_slice(words)?;
    push_both(b"(= ", fact, number, names, out)?;
    out.push(b')')?;
    Ok(())
}

/// The text of the value of a function at its arguments.
impl Printed for (Fact, Num) {
    ghost text = { λ names value. value_text names value.0 value.1 };

    fn print(&self, names: &Names, out: &mut Vec<u8>) -> Result<(), AllocError> {
        push_value_after(b"", &self.0, &self.1, names, out)
    }
}

/// The text of a goal, in which every term is a name.
impl Printed for Cond {
    ghost text = { goal_text };

    fn print(&self, names: &Names, out: &mut Vec<u8>) -> Result<(), AllocError> {
        push_condition(out, names, &[], self)
    }
}

/// The text of an act, after a space.
impl Printed for Act {
    ghost text = { act_text };

    fn print(&self, names: &Names, out: &mut Vec<u8>) -> Result<(), AllocError> {
        push_after(b" (", &self.action, names, out)?;
        push_args(self.args.as_slice(), names, out)?;
        out.push(b')')?;
        Ok(())
    }
}

impl Printed for PlanStep {
    ghost text = { step_line };

    fn print(&self, names: &Names, out: &mut Vec<u8>) -> Result<(), AllocError> {
        self.time.print(names, out)?;
        push_after(b":", &self.act, names, out)?;
        push_after(b" [", &self.duration, names, out)?;
        out.push(b']')?;
        Ok(())
    }
}

/// The text of an edit, as a line of the terminal says it.
impl Printed for Edit {
    ghost text = { edit_text };

    fn print(&self, names: &Names, out: &mut Vec<u8>) -> Result<(), AllocError> {
        match self {
            Edit::AddInstance(name, kind) => { push_both(b"set instance ", name, kind, names, out) }
            Edit::RemoveInstance(name) => push_after(b"remove instance ", name, names, out),
            Edit::AddFact(fact) => push_after(b"set predicate ", fact, names, out),
            Edit::RemoveFact(fact) => push_after(b"remove predicate ", fact, names, out),
            Edit::SetValue(fact, number) => {
                push_value_after(b"set function ", fact, number, names, out)
            }
            Edit::RemoveValue(fact) => push_after(b"remove function ", fact, names, out),
            Edit::SetGoal(goal) => push_after(b"set goal ", goal.get(), names, out),
            Edit::RemoveGoal => {
                out.extend_from_slice(b"remove goal")?;
                Ok(())
            }
        }
    }
}
