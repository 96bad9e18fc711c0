//! Files and a sink in memory, of which chosen calls fail.
ghost use Rattle.std.specs.Prelude.{◌≡◌, ◌++◌, ◌∷◌, [], ◌<◌, ℕ, List, None, OnErr, OnOk, Some};
ghost use Rattle.ps_text.specs.Memory.{KeepsTexts, PutsText, told_in, text_in};

use super::risen;
use super::texts::Texts;
use crate::reads::{FileRefusal, Files};
use crate::sinks::{Sink, SinkRefusal};
use std::alloc::{AllocError, AllocFailed, Global};

/// Files in memory. A read fails where its name isn't there, or where it was chosen to fail.
#[derive(Drop)]
pub struct MemFiles {
    texts: Texts,
    failing: Vec<u64>,
    calls: u64,
    failed: u64,
}

impl MemFiles {
    /// No files, of which no read is chosen to fail.
    pub fn new(alloc: Global) -> MemFiles
        ensures texts { (n : List ℕ) → text_in result.texts n ≡ None }
        ensures chosen { result.failing.items ≡ [] }
        ensures calls { result.calls ≡ 0 }
        ensures failed { result.failed ≡ 0 }
    {
        MemFiles {
            texts: Texts::new(alloc),
            failing: Vec::new(alloc),
            calls: 0,
            failed: 0,
        }
    }

    /// Puts a text under a name, in place of one that is there. Where memory runs out nothing changes.
    pub fn put_text(&mut self, name: &str, bytes: &[u8]) -> Result<(), AllocError>
        ensures ok { OnOk result (PutsText (text_in self.old.texts)
            (text_in self.new.texts) name.now (Some bytes.now)) }
        ensures err { OnErr result (KeepsTexts (text_in self.old.texts) (text_in self.new.texts)) }
        ensures chosen { self.new.failing.items ≡ self.old.failing.items }
        ensures calls { self.new.calls ≡ self.old.calls }
        ensures failed { self.new.failed ≡ self.old.failed }
    {
        self.texts.put(name, bytes)
    }

    /// Chooses the read with this number to fail. Reads are counted from 0.
    pub fn fail_at(&mut self, call: u64) -> Result<(), AllocError>
        ensures chosen { OnOk result (self.new.failing.items ≡ self.old.failing.items
            ++ call ∷ []) }
        ensures err { OnErr result (self.new.failing.items ≡ self.old.failing.items) }
        ensures calls { self.new.calls ≡ self.old.calls }
        ensures texts { KeepsTexts (text_in self.old.texts) (text_in self.new.texts) }
        ensures failed { self.new.failed ≡ self.old.failed }
    {
        self.failing.push(call)?;
        Ok(())
    }

    /// How many reads have failed.
    pub fn failed(&self) -> u64
        ensures { result ≡ self.now.failed }
    {
        self.failed
    }
}

impl Files for MemFiles {
    ghost shown = { λ files.
        record { told = told_in files.texts; reads = files.calls; failed = files.failed } };

    fn read(&mut self, alloc: Global, name: &str) -> Result<Vec<u8>, FileRefusal> {
        let chosen = self.failing.contains(&self.calls);
        self.calls = risen(self.calls);
        if !chosen {
            if let Some(text) = self.texts.get(name) {
                return Ok(Vec::from_slice(alloc, text)?);
            }
        }
        self.failed = risen(self.failed);
        Err(FileRefusal::Failed)
    }
}

/// A sink in memory, which takes at most so many bytes a call. A write fails where it was chosen to fail.
#[derive(Drop)]
pub struct MemSink {
    bytes: Vec<u8>,
    most: usize,
    failing: Vec<u64>,
    calls: u64,
    failed: u64,
    refusals: u64,
    ghost some: { 0 < most },
}

impl MemSink {
    /// A sink that has taken nothing and takes at most `most` bytes a call. No write is chosen to fail.
    pub fn new(alloc: Global, most: usize) -> MemSink
        requires { 0 < most }
        ensures bytes { result.bytes.items ≡ [] }
        ensures most { result.most ≡ most }
        ensures chosen { result.failing.items ≡ [] }
        ensures calls { result.calls ≡ 0 }
        ensures refusals { result.refusals ≡ 0 }
    {
        MemSink {
            bytes: Vec::new(alloc),
            most,
            failing: Vec::new(alloc),
            calls: 0,
            failed: 0,
            refusals: 0,
        }
    }

    /// Chooses the write with this number to fail. Writes are counted from 0.
    pub fn fail_at(&mut self, call: u64) -> Result<(), AllocError>
        ensures chosen { OnOk result (self.new.failing.items ≡ self.old.failing.items
            ++ call ∷ []) }
        ensures err { OnErr result (self.new.failing.items ≡ self.old.failing.items) }
        ensures calls { self.new.calls ≡ self.old.calls }
        ensures bytes { self.new.bytes.items ≡ self.old.bytes.items }
        ensures refusals { self.new.refusals ≡ self.old.refusals }
    {
        self.failing.push(call)?;
        Ok(())
    }

    /// The bytes taken.
    pub fn bytes(&self) -> &[u8]
        ensures { result.now ≡ self.now.bytes.items }
    {
        self.bytes.as_slice()
    }

    /// How many writes were refused.
    pub fn refusals(&self) -> u64
        ensures { result ≡ self.now.refusals }
    {
        self.refusals
    }
}

impl Sink for MemSink {
    ghost shown = { λ sink.
        record { bytes = Some sink.bytes.items; failed = sink.failed; refused = sink.refusals } };

    fn write(&mut self, bytes: &[u8]) -> Result<usize, SinkRefusal> {
        let chosen = self.failing.contains(&self.calls);
        self.calls = risen(self.calls);
        if chosen {
            self.failed = risen(self.failed);
            self.refusals = risen(self.refusals);
            return Err(SinkRefusal::Failed);
        }
        let count = bytes.len().min(self.most);
        if self.bytes.extend_from_slice(&bytes[..count]).is_err() {
            self.refusals = risen(self.refusals);
            return Err(SinkRefusal::OutOfMemory);
        }
        Ok(count)
    }
}
