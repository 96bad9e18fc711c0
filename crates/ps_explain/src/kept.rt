//! Files of which each is read once.
ghost use Rattle.ps_text.specs.Outside.Told.{untold};

use ps_text::{FileRefusal, Files, risen};
use std::alloc::{AllocError, Global};

/// The text of a file by its name.
#[derive(Drop)]
struct Text {
    name: String,
    bytes: Vec<u8>,
}

/// Files of which each is read once: what was read of it first is what is read of it later, so that a stream too can be read again.
#[derive(Drop)]
pub struct Kept<'a, F> {
    files: &'a mut F,
    texts: Vec<Text>,
    reads: u64,
    failed: u64,
}

impl<'a, F: Files> Kept<'a, F> {
    /// These files, of which none was read.
    pub fn new(alloc: Global, files: &'a mut F) -> Kept<'a, F> {
        Kept {
            files,
            texts: Vec::new(alloc),
            reads: 0,
            failed: 0,
        }
    }
}

/// The text under a name, if it was read.
fn known<'a>(texts: &'a [Text], name: &str) -> Option<&'a [u8]> {
    let found = texts.iter().find(|text| text.name.as_str() == name);
    found.map(|text| text.bytes.as_slice())
}

/// Keeps the text under a name.
fn keep(texts: &mut Vec<Text>, alloc: Global, name: &str, bytes: &[u8]) -> Result<(), AllocError> {
    texts.push(Text {
        name: name.to_string(alloc)?,
        bytes: Vec::from_slice(alloc, bytes)?,
    })?;
    Ok(())
}

/// The text under a name, which is read where it wasn't read before.
fn read_once<F: Files>(
    files: &mut F,
    texts: &mut Vec<Text>,
    alloc: Global,
    name: &str,
) -> Result<Vec<u8>, FileRefusal> {
    if let Some(bytes) = known(texts.as_slice(), name) {
        return Ok(Vec::from_slice(alloc, bytes)?);
    }
    let bytes = files.read(alloc, name)?;
    keep(texts, alloc, name, bytes.as_slice())?;
    Ok(bytes)
}

impl<'a, F: Files> Files for Kept<'a, F> {
    ghost shown = { λ kept. record { told = λ _. untold; reads = kept.reads; failed = kept.failed } };

    fn read(&mut self, alloc: Global, name: &str) -> Result<Vec<u8>, FileRefusal> {
        self.reads = risen(self.reads);
        match read_once(self.files, &mut self.texts, alloc, name) {
            Ok(bytes) => Ok(bytes),
            Err(FileRefusal::OutOfMemory) => Err(FileRefusal::OutOfMemory),
            Err(FileRefusal::Failed) => {
                self.failed = risen(self.failed);
                Err(FileRefusal::Failed)
            }
        }
    }
}
