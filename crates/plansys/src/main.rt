//! plansys: a planning system for teams of robots.
#![tactic(auto)]

use ps_calls::{give_up, plansys, tell, told_of_itself};
use ps_pool::NoGate;
use ps_real::{RealFiles, RealSink};
use ps_text::{Sink, SinkRefusal};
use std::alloc::{AllocError, Global};
use std::io::ErrorKind;
use std::process::ExitCode;
use std::sync::Wait;
use std::thread::Threads;
use std::{env, rt};

/// The words after the program's name. Words of which one isn't UTF-8 are read as none, which is a faulty command line.
fn words(rt: &HostRuntime) -> Result<Vec<String>, AllocError> {
    match env::args(rt) {
        Ok(all) => all.skip(1).collect(rt.alloc()),
        Err(error) if error.kind() == ErrorKind::InvalidData => Ok(Vec::new(rt.alloc())),
        Err(_) => Err(AllocError),
    }
}

/// Says what the program is asked of itself, or makes the call that the words ask for, and gives the status.
fn run<R: Threads + Wait + Sync + rt::Files, O: Sink, E: Sink>(
    rt: &R,
    alloc: Global,
    words: &[String],
    out: &mut O,
    err: &mut E,
) -> u8 {
    match told_of_itself(words) {
        Some(answer) => tell(answer.as_bytes(), out, err),
        None => {
            let mut files = RealFiles::new(rt);
            plansys(rt, alloc, words, &mut files, out, err, &NoGate)
        }
    }
}

fn main(rt: HostRuntime) -> ExitCode {
    let mut out = RealSink::new(rt.stdout());
    let mut err = RealSink::new(rt.stderr());
    let status = match words(&rt) {
        Ok(words) => run(&rt, rt.alloc(), words.as_slice(), &mut out, &mut err),
        Err(_) => give_up(&mut err, SinkRefusal::OutOfMemory),
    };
    ExitCode::from(status)
}
