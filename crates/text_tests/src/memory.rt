//! Files and sinks in memory: what they take and give, and that the chosen calls fail.
use super::tables::assert_told;
use ps_text::{FileRefusal, Files, MemFiles, MemSink, Sink, SinkRefusal, SureFiles, SureSink, put};
use std::alloc::{AllocError, Global};
use std::process::Abort;
use std::str;
use std::test::Fail;

/// The write that is chosen to fail, or that the sink is the sure one; and how two texts are put, what is taken, and how many
/// writes are refused.
const SINKS: &str = "\
0 -> Err(Failed)  1
1 -> Err(Failed) abc 1
2 -> Err(Failed) abcdef 1
3 -> Err(Failed) abcdefg 1
4 -> Ok(()) abcdefghi 0
sure -> Ok(()) abcdefghi 0";

/// Puts two texts, the second where the first was taken.
fn put_twice<S: Sink>(sink: &mut S) -> Result<(), SinkRefusal> {
    put(sink, b"abcdefg")?;
    put(sink, b"hi")
}

fn told_of_taken(
    alloc: Global,
    answer: Result<(), SinkRefusal>,
    bytes: &[u8],
    refusals: u64,
) -> Result<String, AllocError> {
    let text = str::from_utf8(bytes).unwrap_or("no text");
    format!(in alloc; "{answer:?} {text} {refusals}")
}

/// What is told of a sink that takes at most 3 bytes a call, and of which this call fails.
fn told_of_failing(alloc: Global, failing: u64) -> Result<String, AllocError> {
    let mut sink = MemSink::new(alloc, 3);
    sink.fail_at(failing)?;
    let answer = put_twice(&mut sink);
    told_of_taken(alloc, answer, sink.bytes(), sink.refusals())
}

fn told_of_sure(alloc: Global) -> Result<String, AllocError> {
    let mut sink = SureSink::new(alloc);
    let answer = put_twice(&mut sink);
    told_of_taken(alloc, answer, sink.bytes(), sink.refusals())
}

fn told_of_sink(alloc: Global, failing: &str) -> Result<String, AllocError> {
    match failing.parse() {
        Ok(failing) => told_of_failing(alloc, failing),
        Err(_) => told_of_sure(alloc),
    }
}

#[test]
fn sinks_take_bytes(rt: HostRuntime) -> Result<(), Fail> {
    assert_told(&rt, rt.alloc(), SINKS, told_of_sink)
}

fn length_of<F: Files>(alloc: Global, files: &mut F, name: &str) -> Result<usize, FileRefusal> {
    Ok(files.read(alloc, name)?.len())
}

/// Asserts how long the text under each name is, or why it isn't read.
fn assert_lengths<F: Files>(
    rt: &impl Abort,
    alloc: Global,
    files: &mut F,
    wanted: &[(&str, Result<usize, FileRefusal>)],
) {
    for (name, length) in wanted {
        assert_eq!(rt; length_of(alloc, files, name), *length, "{name}");
    }
}

fn assert_failing(rt: &impl Abort, alloc: Global, files: &mut MemFiles) -> Result<(), Fail> {
    files.put_text("a", b"123")?;
    files.put_text("a", b"12")?;
    files.fail_at(1)?;
    let wanted = [
        ("a", Ok(2)),
        ("a", Err(FileRefusal::Failed)),
        ("b", Err(FileRefusal::Failed)),
        ("a", Ok(2)),
    ];
    assert_lengths(rt, alloc, files, &wanted);
    assert_eq!(rt; files.failed(), 2);
    Ok(())
}

fn assert_sure(rt: &impl Abort, alloc: Global, files: &mut SureFiles) -> Result<(), Fail> {
    files.put_text("a", b"123")?;
    assert_lengths(
        rt,
        alloc,
        files,
        &[("a", Ok(3)), ("b", Ok(0)), ("a", Ok(3))],
    );
    Ok(())
}

#[test]
fn chosen_reads_fail(rt: HostRuntime) -> Result<(), Fail> {
    let mut files = MemFiles::new(rt.alloc());
    assert_failing(&rt, rt.alloc(), &mut files)
}

#[test]
fn sure_files_have_every_name(rt: HostRuntime) -> Result<(), Fail> {
    let mut files = SureFiles::new(rt.alloc());
    assert_sure(&rt, rt.alloc(), &mut files)
}
