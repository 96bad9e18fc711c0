//! shows: what a journal has, drawn; and what of a call of plansys is refused or goes wrong, explained.
#![tactic(auto)]

use ps_explain::explain;
use ps_real::{RealFiles, RealSink};
use ps_shows::{VERSION, give_up, show, tell};
use ps_text::{Sink, SinkRefusal};
use std::alloc::{AllocError, Global};
use std::io::ErrorKind;
use std::process::ExitCode;
use std::sync::Wait;
use std::thread::Threads;
use std::{env, rt};

/// How the program is used: for each of its first words.
const USAGES: [&str; 2] = [ps_shows::USAGE, ps_explain::USAGE];

/// What the program is asked to do.
#[derive(Clone, Copy)]
enum Asked<'a> {
    Help,
    Version,
    Explanation(&'a [String]),
    /// A picture, or words of no form.
    Picture,
}

/// The words after the program's name. Words of which one isn't UTF-8 are read as none, which is a faulty command line.
fn words(rt: &HostRuntime) -> Result<Vec<String>, AllocError> {
    match env::args(rt) {
        Ok(all) => all.skip(1).collect(rt.alloc()),
        Err(error) if error.kind() == ErrorKind::InvalidData => Ok(Vec::new(rt.alloc())),
        Err(_) => Err(AllocError),
    }
}

/// What the words ask for.
fn asked_by(words: &[String]) -> Asked<'_> {
    match words {
        [word] if word.as_str() == "--help" => Asked::Help,
        [word] if word.as_str() == "--version" => Asked::Version,
        [mode, call @ ..] if mode.as_str() == "explain" => Asked::Explanation(call),
        _ => Asked::Picture,
    }
}

/// Says how the program is used, and gives the status.
fn tell_usages<O: Sink, E: Sink>(out: &mut O, err: &mut E) -> u8 {
    for usage in USAGES {
        let status = tell(usage.as_bytes(), out, err);
        if status != 0 {
            return status;
        }
    }
    0
}

/// Does what the words ask for, and gives the status.
fn run<R: Threads + Wait + Sync + rt::Files, O: Sink, E: Sink>(
    rt: &R,
    alloc: Global,
    words: &[String],
    out: &mut O,
    err: &mut E,
) -> u8 {
    let mut files = RealFiles::new(rt);
    match asked_by(words) {
        Asked::Help => tell_usages(out, err),
        Asked::Version => tell(VERSION.as_bytes(), out, err),
        Asked::Explanation(call) => match explain(rt, alloc, call, &mut files, out) {
            Ok(status) => status,
            Err(why) => give_up(err, why),
        },
        Asked::Picture => show(alloc, words, &mut files, out, err),
    }
}

fn main(rt: HostRuntime) -> ExitCode {
    let mut out = RealSink::new(rt.stdout());
    let mut err = RealSink::new(rt.stderr());
    let status = match words(&rt) {
        Ok(words) => run(&rt, rt.alloc(), words.as_slice(), &mut out, &mut err),
        Err(_) => give_up(&mut err, SinkRefusal::OutOfMemory),
    };
    ExitCode::from(status)
}
