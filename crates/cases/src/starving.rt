//! Files of which chosen reads run out of memory.
use ps_text::{FileRefusal, Files, risen};
use std::alloc::{AllocError, Global};

/// Files of which chosen reads run out of memory.
#[derive(Drop)]
pub struct Starving<F> {
    /// The files, of which reads can fail by themselves.
    pub files: F,
    starved: Vec<u64>,
    calls: u64,
}

impl<F: Files> Starving<F> {
    /// These files, of which no read is chosen to run out of memory.
    pub fn new(alloc: Global, files: F) -> Starving<F> {
        Starving {
            files,
            starved: Vec::new(alloc),
            calls: 0,
        }
    }

    /// Chooses the read with this number to run out of memory. Reads are counted from 0.
    pub fn starve_at(&mut self, call: u64) -> Result<(), AllocError> {
        self.starved.push(call)?;
        Ok(())
    }
}

impl<F: Files> Files for Starving<F> {
    ghost shown = { λ starving. record (F.shown starving.files) { reads = starving.calls } };

    fn read(&mut self, alloc: Global, name: &str) -> Result<Vec<u8>, FileRefusal> {
        let starved = self.starved.contains(&self.calls);
        self.calls = risen(self.calls);
        if starved {
            return Err(FileRefusal::OutOfMemory);
        }
        self.files.read(alloc, name)
    }
}
