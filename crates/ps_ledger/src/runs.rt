//! What the entries so far tell of the last run.
ghost use Rattle.std.specs.Prelude.{◌≡◌, IsTrue, List, []};
ghost use Rattle.ps_machine.specs.declared.journal.Entry.{Entry};
ghost use Rattle.ps_rules.specs.Runs.{has_run, is_running, kind, replans};
ghost use Rattle.ps_ledger.specs.Kept.{Takes};
ghost use Rattle.ps_ledger.specs.Runs.{speaks_of_run, TellsRun};

use ps_machine::{Event, RunKind};

/// The last run.
#[derive(Clone, Copy)]
pub struct Run {
    /// Whether it is open.
    pub running: bool,
    /// What it is for; nothing where there is no run yet.
    pub kind: Option<RunKind>,
    /// How often it was planned anew.
    pub replans: u8,
}

impl Run {
    /// What an empty journal tells.
    pub fn new() -> Run
        ensures { TellsRun [] result }
    {
        Run {
            running: false,
            kind: None,
            replans: 0,
        }
    }

    /// Whether a run is open.
    pub fn is_running(&self) -> bool
        ensures { (es : List Entry) → TellsRun es self.now → result ≡ is_running es }
    {
        self.running
    }

    /// Whether a run was ever opened.
    pub fn has_run(&self) -> bool
        ensures { (es : List Entry) → TellsRun es self.now → result ≡ has_run es }
    {
        self.kind.is_some()
    }

    /// What the last run is for.
    pub fn kind(&self) -> Option<RunKind>
        ensures { (es : List Entry) → TellsRun es self.now → result ≡ kind es }
    {
        self.kind
    }

    /// How often the last run was planned anew.
    pub fn replans(&self) -> u8
        ensures { (es : List Entry) → TellsRun es self.now → result ≡ replans es }
    {
        self.replans
    }

    /// Takes one more event.
    pub fn take(&mut self, event: &Event)
        requires { IsTrue (speaks_of_run self.now event.now) }
        ensures { Takes TellsRun event.now self.old self.new }
    {
        match event {
            Event::Run { kind, acts: _ } => {
                self.running = true;
                self.kind = Some(*kind);
                self.replans = 0;
            }
            Event::Replan(_) => self.replans += 1,
            Event::Over(_) => self.running = false,
            _ => {}
        }
    }
}
