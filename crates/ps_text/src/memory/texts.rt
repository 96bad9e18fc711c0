//! Texts by their names.
ghost use Rattle.std.specs.Prelude.{◌≡◌, ℕ, List, None, OnErr, OnOk, option_map};
ghost use Rattle.ps_text.specs.Memory.{KeepsTexts, PutsText, text_in};

use indexmap::IndexMap;
use std::alloc::{AllocError, AllocFailed, Global};

/// Texts by their names.
#[derive(Drop)]
pub struct Texts {
    by_name: IndexMap<String, Vec<u8>>,
}

impl Texts {
    /// No texts.
    pub fn new(alloc: Global) -> Texts
        ensures { (n : List ℕ) → text_in result n ≡ None }
    {
        Texts {
            by_name: IndexMap::new(alloc),
        }
    }

    /// Puts a text under a name, in place of one that is there. Where memory runs out nothing changes.
    pub fn put(&mut self, name: &str, bytes: &[u8]) -> Result<(), AllocError>
        ensures ok { OnOk result (PutsText (text_in self.old) (text_in self.new) name.now
            (Some bytes.now)) }
        ensures err { OnErr result (KeepsTexts (text_in self.old) (text_in self.new)) }
    {
        let alloc = *self.by_name.allocator();
        let key = String::from_str(alloc, name)?;
        let text = Vec::from_slice(alloc, bytes)?;
        self.by_name.insert(key, text)?;
        Ok(())
    }

    /// The text under a name.
    pub fn get(&self, name: &str) -> Option<&[u8]>
        ensures { option_map (λ text. text.now) result ≡ text_in self.now name.now }
    {
        match self.by_name.get(name) {
            Some(text) => Some(text.as_slice()),
            None => None,
        }
    }
}
