//! A text that is written in many small pieces.
ghost use Rattle.std.specs.Prelude.{◌≡◌, ◌≤◌, ℕ, List, [], ◌∷◌, ◌++◌, length, take, IsOk, OnOk};
ghost use Rattle.ps_print.specs.declared.writer.TheConstants.{HELD};

use std::alloc::{AllocError, Global};
use std::marker::Model;
use std::mem;

/// How many of a text's last bytes are held back.
const HELD: usize = 512;

/// A text that is being written. A vector asks for room at each piece, which costs more than most pieces do, so that
/// the last bytes are held back here until there are many.
#[derive(Drop)]
pub struct Writer {
    text: Vec<u8>,
    held: [u8; HELD],
    count: usize,
}

impl Model for Writer {
    ghost Value = { List ℕ };

    ghost view = { λ w. w.text.items ++ take w.count w.held };

    ghost invariant = { λ w. (w.count ≤ HELD) × (length w.held ≡ HELD) };
}

impl Writer {
    /// Takes a text over, to go on with it. It is empty until it is given back.
    pub fn over(text: &mut Vec<u8>) -> Writer
        ensures { result ≡ text.old.items }
    {
        let alloc = *text.allocator();
        Writer {
            text: mem::replace(text, Vec::new(alloc)),
            held: [0; HELD],
            count: 0,
        }
    }

    /// Gives the text back. Where not all of it was written, some of its last bytes may be missing.
    pub fn give_back(
        self,
        text: &mut Vec<u8>,
        written: Result<(), AllocError>,
    ) -> Result<(), AllocError>
        ensures { OnOk result (IsOk written × (text.new.items ≡ self)) }
    {
        let Writer {
            text: whole,
            held,
            count,
        } = self;
        *text = whole;
        written?;
        text.extend_from_slice(&held[..count])
    }

    /// Where the text takes its memory.
    pub fn allocator(&self) -> Global {
        *self.text.allocator()
    }

    /// Adds a byte.
    pub fn push(&mut self, byte: u8) -> Result<(), AllocError>
        ensures { OnOk result (self.new ≡ self.old ++ byte ∷ []) }
    {
        let count = self.count;
        if count == HELD {
            return self.add(&[byte]);
        }
        self.held[count] = byte;
        self.count = count + 1;
        Ok(())
    }

    /// Adds bytes.
    pub fn extend_from_slice(&mut self, bytes: &[u8]) -> Result<(), AllocError>
        ensures { OnOk result (self.new ≡ self.old ++ bytes.now) }
    {
        if bytes.len() > HELD - self.count {
            return self.add(bytes);
        }
        let end = self.count + bytes.len();
        self.held[self.count..end].copy_from_slice(bytes);
        self.count = end;
        Ok(())
    }

    /// Adds the bytes that are held back, and these after them, to the text itself.
    #[cold]
    #[inline(never)]
    fn add(&mut self, bytes: &[u8]) -> Result<(), AllocError>
        ensures { OnOk result (self.new ≡ self.old ++ bytes.now) }
    {
        self.text.extend_from_slice(&self.held[..self.count])?;
        self.count = 0;
        self.text.extend_from_slice(bytes)
    }
}
