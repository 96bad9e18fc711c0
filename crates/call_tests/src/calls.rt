//! Calls of the program over files and sinks in memory.
use super::rooms::ROOMS;
use ps_calls::plansys;
use ps_inputs::{Session, Work, load};
use ps_pool::{Gate, NoGate};
use ps_text::{MemFiles, MemSink};
use std::alloc::{AllocError, Global};
use std::str;
use std::sync::Wait;
use std::test::Fail;
use std::thread::Threads;

/// What a call answered, and what it wrote.
#[derive(Drop)]
pub struct Answer {
    pub status: u8,
    pub out: String,
    pub err: String,
}

/// The script and the members of a session, each member by its name. The domain is `ROOMS`.
#[derive(Drop)]
pub struct Texts {
    pub script: String,
    pub members: Vec<(String, String)>,
}

/// The words of a line.
pub fn words_of(alloc: Global, line: &str) -> Result<Vec<String>, AllocError> {
    let mut words = Vec::new(alloc);
    for word in line.split(' ') {
        words.push(String::from_str(alloc, word)?)?;
    }
    Ok(words)
}

fn files_of(alloc: Global, texts: &Texts, journal: &str) -> Result<MemFiles, AllocError> {
    let mut files = MemFiles::new(alloc);
    files.put_text("domain", ROOMS.as_bytes())?;
    files.put_text("script", texts.script.as_bytes())?;
    files.put_text("journal", journal.as_bytes())?;
    for (name, text) in texts.members.iter() {
        files.put_text(name.as_str(), text.as_bytes())?;
    }
    Ok(files)
}

/// What the words of a session, with the files of these texts, ask for.
pub fn session_of(alloc: Global, texts: &Texts, line: &str) -> Result<Session, Fail> {
    let words = words_of(alloc, line)?;
    let mut files = files_of(alloc, texts, "")?;
    match load(alloc, &words, &mut files)? {
        Work::Session(session) => Ok(session.into_inner()),
        _ => Err(Fail::from("no session")),
    }
}

/// The first words of a call, and then the names of the members' files.
fn line_of(alloc: Global, mode: &str, texts: &Texts) -> Result<String, AllocError> {
    let mut line = format!(in alloc; "{mode} --domain domain --script script")?;
    for (name, _) in texts.members.iter() {
        line.push(' ')?;
        line.push_str(name.as_str())?;
    }
    Ok(line)
}

fn call<R: Threads + Wait + Sync, G: Gate + Sync>(
    rt: &R,
    alloc: Global,
    line: &str,
    files: &mut MemFiles,
    gate: &G,
) -> Result<Answer, Fail> {
    let words = words_of(alloc, line)?;
    let mut out = MemSink::new(alloc, usize::MAX);
    let mut err = MemSink::new(alloc, usize::MAX);
    let status = plansys(rt, alloc, &words, files, &mut out, &mut err, gate);
    let out = str::from_utf8(out.bytes())?.to_string(alloc)?;
    let err = str::from_utf8(err.bytes())?.to_string(alloc)?;
    Ok(Answer { status, out, err })
}

/// Does the session of these texts by so many workers.
pub fn session<R: Threads + Wait + Sync, G: Gate + Sync>(
    rt: &R,
    alloc: Global,
    texts: &Texts,
    workers: u32,
    gate: &G,
) -> Result<Answer, Fail> {
    let mode = format!(in alloc; "session --workers {workers}")?;
    let line = line_of(alloc, mode.as_str(), texts)?;
    let mut files = files_of(alloc, texts, "")?;
    call(rt, alloc, line.as_str(), &mut files, gate)
}

/// Does the session of these texts by so many workers, with reports.
pub fn session_with_reports<R: Threads + Wait + Sync, G: Gate + Sync>(
    rt: &R,
    alloc: Global,
    texts: &Texts,
    workers: u32,
    gate: &G,
) -> Result<Answer, Fail> {
    let mode = format!(in alloc; "session --reports --workers {workers}")?;
    let line = line_of(alloc, mode.as_str(), texts)?;
    let mut files = files_of(alloc, texts, "")?;
    call(rt, alloc, line.as_str(), &mut files, gate)
}

/// Judges a journal by the same texts.
pub fn replay<R: Threads + Wait + Sync>(
    rt: &R,
    alloc: Global,
    texts: &Texts,
    journal: &str,
) -> Result<Answer, Fail> {
    let line = line_of(alloc, "replay --journal journal", texts)?;
    let mut files = files_of(alloc, texts, journal)?;
    call(rt, alloc, line.as_str(), &mut files, &NoGate)
}
