//! Entries with their lines.
ghost use Rattle.std.specs.Prelude.{◌≡◌, ◌++◌, [], ◌∷◌, map, OnOk};

use ps_machine::Entry;
use std::alloc::{AllocError, Global};
use std::marker::Model;

/// The entries of a journal, each with its line, which is counted from 1. Contracts see one list of both.
#[derive(Drop)]
pub struct Numbered {
    lines: Vec<u32>,
    entries: Vec<Entry>,
}

impl Model for Numbered {
    ghost use Rattle.std.specs.Prelude.{◌≡◌, ℕ, List, length};
    ghost use Rattle.std.specs.List.{zip};
    ghost use Rattle.std.specs.Coded.{coded_list, coded×, coded_ℕ};
    ghost use Rattle.ps_machine.specs.declared.journal.Entry.{Entry};
    ghost use Rattle.ps_machine.specs.contracts.journal.Entry.{the_row};

    ghost Value = { List (ℕ × Entry) };

    ghost coded = { coded_list (coded× coded_ℕ the_row.coded) };

    ghost view = { λ n. zip n.lines.items n.entries.items };

    ghost invariant = { λ n. length n.lines.items ≡ length n.entries.items };
}

impl Numbered {
    /// No entries.
    pub(crate) fn new(alloc: Global) -> Numbered
        ensures { result ≡ [] }
    {
        Numbered {
            lines: Vec::new(alloc),
            entries: Vec::new(alloc),
        }
    }

    /// Puts an entry with its line at the end.
    pub(crate) fn push(&mut self, line: u32, entry: Entry) -> Result<(), AllocError>
        ensures { OnOk result (self.new ≡ self.old ++ (line, entry) ∷ []) }
    {
        // Room first, since a push that may fail moves an entry, which is large, once more.
        self.lines.reserve(1)?;
        self.entries.reserve(1)?;
        self.lines.push_reserved(line);
        self.entries.push_reserved(entry);
        Ok(())
    }

    /// The lines.
    pub fn lines(&self) -> &[u32]
        ensures { result.now ≡ map (λ e. e.0) self.now }
    {
        &self.lines
    }

    /// The entries.
    pub fn entries(&self) -> &[Entry]
        ensures { result.now ≡ map (λ e. e.1) self.now }
    {
        &self.entries
    }
}
