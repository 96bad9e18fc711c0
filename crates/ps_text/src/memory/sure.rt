//! Files and a sink in memory that fail only where memory runs out.
ghost use Rattle.std.specs.Prelude.{◌≡◌, [], ℕ, List, None, OnErr, OnOk, Some};
ghost use Rattle.ps_text.specs.Outside.Told.{text as is_text};
ghost use Rattle.ps_text.specs.Memory.{KeepsTexts, PutsText, sure_text_in, text_in};

use super::risen;
use super::texts::Texts;
use crate::reads::{FileRefusal, Files};
use crate::sinks::{Sink, SinkRefusal};
use std::alloc::{AllocError, AllocFailed, Global};

/// Files in memory. A name that isn't there has the empty text.
#[derive(Drop)]
pub struct SureFiles {
    texts: Texts,
    calls: u64,
}

impl SureFiles {
    /// Files of which each has the empty text.
    pub fn new(alloc: Global) -> SureFiles
        ensures { (n : List ℕ) → sure_text_in result.texts n ≡ [] }
    {
        SureFiles {
            texts: Texts::new(alloc),
            calls: 0,
        }
    }

    /// Puts a text under a name, in place of one that is there. Where memory runs out nothing changes.
    pub fn put_text(&mut self, name: &str, bytes: &[u8]) -> Result<(), AllocError>
        ensures ok { OnOk result (PutsText (sure_text_in self.old.texts)
            (sure_text_in self.new.texts) name.now bytes.now) }
        ensures err { OnErr result (KeepsTexts (sure_text_in self.old.texts)
            (sure_text_in self.new.texts)) }
    {
        self.texts.put(name, bytes)
    }
}

impl Files for SureFiles {
    ghost shown = { λ files.
        record { told = λ n. is_text (sure_text_in files.texts n); reads = files.calls; failed = 0 } };

    fn read(&mut self, alloc: Global, name: &str) -> Result<Vec<u8>, FileRefusal> {
        self.calls = risen(self.calls);
        match self.texts.get(name) {
            Some(text) => Ok(Vec::from_slice(alloc, text)?),
            None => Ok(Vec::new(alloc)),
        }
    }
}

/// A sink in memory, which takes all that it is given.
#[derive(Drop)]
pub struct SureSink {
    bytes: Vec<u8>,
    refusals: u64,
}

impl SureSink {
    /// A sink that has taken nothing.
    pub fn new(alloc: Global) -> SureSink
        ensures bytes { result.bytes.items ≡ [] }
        ensures refusals { result.refusals ≡ 0 }
    {
        SureSink {
            bytes: Vec::new(alloc),
            refusals: 0,
        }
    }

    /// The bytes taken.
    pub fn bytes(&self) -> &[u8]
        ensures { result.now ≡ self.now.bytes.items }
    {
        self.bytes.as_slice()
    }

    /// How many writes were refused, each since memory ran out.
    pub fn refusals(&self) -> u64
        ensures { result ≡ self.now.refusals }
    {
        self.refusals
    }
}

impl Sink for SureSink {
    ghost shown = { λ sink.
        record { bytes = Some sink.bytes.items; failed = 0; refused = sink.refusals } };

    fn write(&mut self, bytes: &[u8]) -> Result<usize, SinkRefusal> {
        if self.bytes.extend_from_slice(bytes).is_err() {
            self.refusals = risen(self.refusals);
            return Err(SinkRefusal::OutOfMemory);
        }
        Ok(bytes.len())
    }
}
