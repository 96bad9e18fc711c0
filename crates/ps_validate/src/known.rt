//! The knowledge that a script leads to.
ghost use Rattle.std.specs.Prelude.{◌≡◌, IfOk, OnOk};
ghost use Rattle.ps_validate.specs.Verdicts.{after_line, known_after};

use ps_domain::Expert;
use ps_machine::{Command, Line};
use ps_problem::Problem;
use ps_world::Failure;
use std::alloc::{AllocError, Global};

/// Does the edit of a line. A refused edit changes nothing, and no other line does.
fn take_line(expert: &Expert, problem: &mut Problem, line: &Line) -> Result<(), AllocError>
    ensures { OnOk result (problem.new ≡ after_line expert.now problem.old line.now) }
{
    match line {
        Line::Good(Command::Edit(edit)) => match problem.edit(expert, edit) {
            Err(Failure::OutOfMemory) => Err(AllocError),
            _ => Ok(()),
        },
        _ => Ok(()),
    }
}

/// What is known after all edits of a script, of which refused ones change nothing.
pub fn known_after(alloc: Global, expert: &Expert, lines: &[Line]) -> Result<Problem, AllocError>
    ensures { IfOk result (λ p. p ≡ known_after expert.now lines.now) }
{
    let mut problem = Problem::new(alloc, expert)?;
    for line in lines {
        take_line(expert, &mut problem, line)?;
    }
    Ok(problem)
}
