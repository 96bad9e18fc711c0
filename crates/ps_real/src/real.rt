//! The files and the streams of the system. They tell no content, and count their reads and failures.
ghost use Rattle.std.specs.Prelude.{◌≤◌, IfOk, None, length};
ghost use Rattle.ps_text.specs.Outside.Told.{untold};
ghost use Rattle.std.specs.Io.{WritesAtMost};

use ps_text::{FileRefusal, Files, Sink, SinkRefusal, risen};
use std::alloc::Global;
use std::fs::File;
use std::io::{ErrorKind, Read, Write};
use std::{io, rt};

/// As many bytes are read of a file: one more than it may have.
const MOST_READ: u64 = 1_048_577;

/// So many are read at a time.
const CHUNK: usize = 16_384;

/// The files of the system.
#[derive(Drop)]
pub struct RealFiles<'a, R> {
    rt: &'a R,
    reads: u64,
    failed: u64,
}

impl<'a, R> RealFiles<'a, R> {
    pub fn new(rt: &'a R) -> Self {
        RealFiles {
            rt,
            reads: 0,
            failed: 0,
        }
    }
}

/// Reads some bytes into the front of a chunk: none only where the file has no more. A read that was interrupted is tried again.
fn read_some<F: Read>(file: &mut F, chunk: &mut [u8]) -> io::Result<usize>
    ensures { IfOk result (λ count. count ≤ length chunk.new) }
{
    for _ in 0..u64::MAX {
        match file.read(chunk) {
            Err(error) if error.kind() == ErrorKind::Interrupted => {}
            done => return done,
        }
    }
    Ok(0)
}

/// The bytes of a file, of which no more are read than one more than it may have.
fn read_file<R: rt::Files>(rt: &R, alloc: Global, name: &str) -> io::Result<Vec<u8>> {
    let mut file = File::open(rt, name)?.take(MOST_READ);
    let mut bytes = Vec::new(alloc);
    let mut chunk = [0; CHUNK];
    for _ in 0..=MOST_READ {
        let count = read_some(&mut file, &mut chunk)?;
        if count == 0 {
            break;
        }
        bytes.extend_from_slice(&chunk[..count])?;
    }
    Ok(bytes)
}

impl<'a, R: rt::Files> Files for RealFiles<'a, R> {
    ghost shown = { λ f. record { told = λ _. untold; reads = f.reads; failed = f.failed } };

    fn read(&mut self, alloc: Global, name: &str) -> Result<Vec<u8>, FileRefusal> {
        self.reads = risen(self.reads);
        match read_file(self.rt, alloc, name) {
            Ok(bytes) => Ok(bytes),
            Err(error) if error.kind() == ErrorKind::OutOfMemory => Err(FileRefusal::OutOfMemory),
            Err(_) => {
                self.failed = risen(self.failed);
                Err(FileRefusal::Failed)
            }
        }
    }
}

/// A stream of the system that takes bytes.
#[derive(Drop)]
pub struct RealSink<W> {
    writer: W,
    failed: u64,
}

impl<W: Write> RealSink<W> {
    pub fn new(writer: W) -> Self {
        RealSink { writer, failed: 0 }
    }
}

/// Takes a prefix of the bytes. A write that was interrupted is tried again.
fn write_some<W: Write>(writer: &mut W, bytes: &[u8]) -> io::Result<usize>
    ensures { WritesAtMost result bytes.now }
{
    for _ in 0..u64::MAX {
        match writer.write(bytes) {
            Err(error) if error.kind() == ErrorKind::Interrupted => {}
            done => return done,
        }
    }
    Ok(0)
}

impl<W: Write> Sink for RealSink<W> {
    ghost shown = { λ sink. record { bytes = None; failed = sink.failed; refused = sink.failed } };

    fn write(&mut self, bytes: &[u8]) -> Result<usize, SinkRefusal> {
        match write_some(&mut self.writer, bytes) {
            Ok(count) if count > 0 || bytes.is_empty() => Ok(count),
            _ => {
                self.failed = risen(self.failed);
                Err(SinkRefusal::Failed)
            }
        }
    }
}
