//! Making the call of a case, and what differs from what it expects.
ghost use Rattle.std.specs.Prelude.{◌<◌};

use super::case::Case;
use super::lines::Stream;
use super::starving::Starving;
use ps_calls::{give_up, plansys, tell, told_of_itself};
use ps_explain::explain;
use ps_pool::NoGate;
use ps_shows::show;
use ps_text::{MemFiles, MemSink};
use std::alloc::{AllocError, Global};
use std::sync::Wait;
use std::thread::Threads;
use std::{fmt, str};

/// What differs first.
#[derive(Drop)]
pub enum Difference {
    Status { wanted: u8, got: u8 },
    Out(Place),
    Err(Place),
}

/// Where two texts differ first, and what stands there. Bytes are counted from 0 and lines from 1.
#[derive(Drop)]
pub struct Place {
    byte: usize,
    line: usize,
    wanted: String,
    got: String,
}

impl fmt::Display for Place {
    fn fmt<W: fmt::Write>(&self, f: &mut fmt::Formatter<W>) -> fmt::Result {
        write!(
            f,
            "from byte {} on, in line {}, which is '{}' and not '{}'",
            self.byte, self.line, self.got, self.wanted
        )
    }
}

impl fmt::Display for Difference {
    fn fmt<W: fmt::Write>(&self, f: &mut fmt::Formatter<W>) -> fmt::Result {
        match self {
            Difference::Status { wanted, got } => write!(f, "status {got} and not {wanted}"),
            Difference::Out(place) => write!(f, "out: {place}"),
            Difference::Err(place) => write!(f, "err: {place}"),
        }
    }
}

/// How many of the first bytes are the same.
fn same_front(wanted: &[u8], got: &[u8]) -> usize {
    wanted
        .iter()
        .zip(got.iter())
        .take_while(|(a, b)| a == b)
        .count()
}

/// The line of a text with this number, counted from 0; empty past its end.
fn line_at(alloc: Global, text: &[u8], number: usize) -> Result<String, AllocError> {
    let line = text.split(|byte| *byte == b'\n').nth(number).unwrap_or(&[]);
    str::from_utf8(line)
        .unwrap_or("(no UTF-8)")
        .to_string(alloc)
}

/// Where two texts differ first, if they do.
fn compare(alloc: Global, wanted: &[u8], got: &[u8]) -> Result<Option<Place>, AllocError> {
    if wanted == got {
        return Ok(None);
    }
    let same = same_front(wanted, got);
    let before = wanted.iter().take(same);
    let number = before.filter(|byte| **byte == b'\n').count();
    Ok(Some(Place {
        byte: same,
        line: number.saturating_add(1),
        wanted: line_at(alloc, wanted, number)?,
        got: line_at(alloc, got, number)?,
    }))
}

/// The files of a case.
fn files_of(alloc: Global, case: &Case) -> Result<MemFiles, AllocError> {
    let mut files = MemFiles::new(alloc);
    for file in case.files.iter() {
        files.put_text(file.name.as_str(), file.bytes.as_slice())?;
    }
    Ok(files)
}

/// How many bytes a sink of a case takes by one write at most.
fn most_of(case: &Case) -> usize
    ensures { 0 < result }
{
    if case.takes == 0 {
        usize::MAX
    } else {
        case.takes
    }
}

/// Chooses the calls that are to fail.
fn choose(
    case: &Case,
    files: &mut Starving<MemFiles>,
    out: &mut MemSink,
    err: &mut MemSink,
) -> Result<(), AllocError> {
    for failing in case.fails.iter() {
        match failing.stream {
            Stream::Read => files.files.fail_at(failing.call)?,
            Stream::Memory => files.starve_at(failing.call)?,
            Stream::Out => out.fail_at(failing.call)?,
            Stream::Err => err.fail_at(failing.call)?,
        }
    }
    Ok(())
}

/// What differs first from what a case expects: the status, then out, then err.
fn judge(
    alloc: Global,
    case: &Case,
    status: u8,
    out: &[u8],
    err: &[u8],
) -> Result<Option<Difference>, AllocError> {
    if status != case.status {
        return Ok(Some(Difference::Status {
            wanted: case.status,
            got: status,
        }));
    }
    if let Some(place) = compare(alloc, case.out.as_slice(), out)? {
        return Ok(Some(Difference::Out(place)));
    }
    if let Some(place) = compare(alloc, case.err.as_slice(), err)? {
        return Ok(Some(Difference::Err(place)));
    }
    Ok(None)
}

/// Makes the call that words ask for: of the program that draws pictures and explains, where the first word is `picture` or `explain`, and else
/// of plansys.
fn made<R: Threads + Wait + Sync>(
    rt: &R,
    alloc: Global,
    words: &[String],
    files: &mut Starving<MemFiles>,
    out: &mut MemSink,
    err: &mut MemSink,
) -> u8 {
    match words {
        [mode, ..] if mode.as_str() == "picture" => show(alloc, words, files, out, err),
        [mode, call @ ..] if mode.as_str() == "explain" => {
            match explain(rt, alloc, call, files, out) {
                Ok(status) => status,
                Err(why) => give_up(err, why),
            }
        }
        _ => plansys(rt, alloc, words, files, out, err, &NoGate),
    }
}

/// Makes the call of a case over files and sinks of which no call is chosen to fail yet.
fn call<R: Threads + Wait + Sync>(
    rt: &R,
    alloc: Global,
    case: &Case,
    files: &mut Starving<MemFiles>,
    out: &mut MemSink,
    err: &mut MemSink,
) -> Result<Option<Difference>, AllocError> {
    choose(case, files, out, err)?;
    let words = case.words.as_slice();
    let status = match told_of_itself(words) {
        Some(answer) => tell(answer.as_bytes(), out, err),
        None => made(rt, alloc, words, files, out, err),
    };
    judge(alloc, case, status, out.bytes(), err.bytes())
}

/// Makes the call of a case, and answers what differs first from what it expects.
pub fn first_difference<R: Threads + Wait + Sync>(
    rt: &R,
    alloc: Global,
    case: &Case,
) -> Result<Option<Difference>, AllocError> {
    let mut files = Starving::new(alloc, files_of(alloc, case)?);
    let mut out = MemSink::new(alloc, most_of(case));
    let mut err = MemSink::new(alloc, most_of(case));
    call(rt, alloc, case, &mut files, &mut out, &mut err)
}
