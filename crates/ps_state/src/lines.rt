//! The lines of the terminal that are due.
ghost use Rattle.std.specs.Prelude.{◌≡◌, length, slice_get, IfSome};
ghost use Rattle.std.specs.Option.{option_copied};
ghost use Rattle.ps_rules.specs.Sound.{IsSound, IsSoundLine};
ghost use Rattle.ps_rules.specs.Lines.{due_lines, next_line};
ghost use Rattle.ps_state.specs.State.{SaysFor};

use super::state::State;
use ps_machine::{Command, Input, Line};

/// How many lines are due: those up to the first `quit`.
pub fn count_due(lines: &[Line]) -> usize
    ensures { result ≡ length (due_lines lines.now) }
{
    for (i, line) in lines.iter().enumerate() {
        if matches!(line, Line::Good(Command::Quit)) {
            return i + 1;
        }
    }
    lines.len()
}

/// The line at a place.
fn line_at(input: &Input, place: u64) -> Option<&Line>
    ensures { option_copied result ≡ slice_get input.now.lines place }
{
    input.lines.as_slice().get(place as usize)
}

impl State {
    /// The line that is answered next.
    pub fn next_line<'a>(&self, input: &'a Input) -> Option<&'a Line>
        ensures line { SaysFor input.now self.now (option_copied result) (next_line input.now) }
        ensures sound { IsSound input.now → IfSome (option_copied result) IsSoundLine }
    {
        let answered = self.ledger.lines.answered();
        let due = self.due as u64;
        if answered < due {
            line_at(input, answered)
        } else {
            None
        }
    }
}
