//! What the entries so far tell of the lines of the terminal.
ghost use Rattle.std.specs.Prelude.{◌≡◌, IsTrue, List, []};
ghost use Rattle.ps_machine.specs.declared.journal.Entry.{Entry};
ghost use Rattle.ps_rules.specs.Lines.{answered, answers_line};
ghost use Rattle.ps_ledger.specs.Kept.{Takes};
ghost use Rattle.ps_ledger.specs.Lines.{is_by_terminal, speaks_of_lines, TellsLines};

use ps_machine::{By, Event};

/// The lines of the terminal.
#[derive(Clone, Copy)]
pub struct Lines {
    /// How many are answered.
    pub answered: u64,
}

/// Whether an event answers a line of the terminal.
fn answers_line(event: &Event) -> bool
    ensures { result ≡ answers_line event.now }
{
    match event {
        Event::Edit { by, edit: _ } => is_by_terminal(*by),
        Event::Refused { by, why: _ } => is_by_terminal(*by),
        Event::Ask(_) => true,
        Event::Run { kind: _, acts: _ } => true,
        Event::Quit => true,
        _ => false,
    }
}

fn is_by_terminal(by: By) -> bool
    ensures { result ≡ is_by_terminal by }
{
    match by {
        By::Terminal(_) => true,
        _ => false,
    }
}

impl Lines {
    /// What an empty journal tells.
    pub fn new() -> Lines
        ensures { TellsLines [] result }
    {
        Lines { answered: 0 }
    }

    /// How many lines are answered.
    pub fn answered(&self) -> u64
        ensures { (es : List Entry) → TellsLines es self.now → result ≡ answered es }
    {
        self.answered
    }

    /// Takes one more event.
    pub fn take(&mut self, event: &Event)
        requires { IsTrue (speaks_of_lines self.now event.now) }
        ensures { Takes TellsLines event.now self.old self.new }
    {
        if answers_line(event) {
            self.answered += 1;
        }
    }
}
