//! cases: makes the calls that the case files of the current folder describe, and says how many went as expected.
//!
//! A case is one call of `plansys` over files and sinks in memory, or of the program that draws pictures and explains, where its first word is
//! `picture` or `explain`, or what the program says of itself where its words ask for that, with what is expected of it. A file whose name ends in
//! `.cases` holds cases, written as in this example:
//!
//! ```text
//! # A comment. It says nothing, and neither does a blank line.
//! == a-robot-is-set
//! words session --domain d --script s
//! file d
//! |(define (domain d) (:types robot))
//! file s
//! |set instance leia robot
//! repeat 3 |# the same line three times
//! +get problem instances
//! fails out 4
//! takes 7
//! status 1
//! out
//! |plansys-journal 2
//! |settings budget 20000 replans 3
//! err
//! ```
//!
//! - `== NAME` begins a case. Then its parts stand in the order above.
//! - `words` has the words after the program's name, each after one space.
//! - `file NAME` has the lines of a file: a content line is `|` and a text, or `+` and a text where no LF ends the line. In a
//!   text `\\` is a backslash and `\xHH` any byte; each other byte is printable ASCII and stands for itself. `repeat N` and a
//!   content line is that line N times.
//! - `fails read N`, `fails out N` and `fails err N` have the Nth read or write fail, and `fails memory N` has the Nth read run
//!   out of memory. `takes N` has a sink take at most N bytes by one write; without it a sink takes all that a write hands it.
//! - `status` has the status that the call is to answer. `out` and `err` have what it is to write.
//!
//! For each file the program writes a line with its name and how many cases passed and failed, after a line for each that
//! failed. A case of another form fails, and so does a file without a case.
#![tactic(auto)]

mod case;
mod escapes;
mod judge;
mod lines;
mod starving;

use case::{Bad, read_case, says_nothing};
use judge::{Difference, first_difference};
use std::alloc::{AllocError, Global};
use std::sync::Wait;
use std::thread::Threads;
use std::{fs, io};

/// Adds the name of a file, if it is that of a case file.
fn push_case_file(alloc: Global, name: &str, names: &mut Vec<String>) -> Result<(), AllocError> {
    if name.ends_with(".cases") {
        names.push(name.to_string(alloc)?)?;
    }
    Ok(())
}

/// Adds the names of the case files in the current folder.
fn push_case_files(rt: &HostRuntime, names: &mut Vec<String>) -> io::Result<()> {
    for entry in fs::read_dir(rt, ".")? {
        let entry = entry?;
        push_case_file(rt.alloc(), entry.file_name(), names)?;
    }
    Ok(())
}

/// The names of the case files in the current folder, in rising order.
fn case_files(rt: &HostRuntime) -> io::Result<Vec<String>> {
    let mut names = Vec::new(rt.alloc());
    push_case_files(rt, &mut names)?;
    names.sort()?;
    Ok(names)
}

/// What differs from what a case expects, if something does.
fn try_case<W: Threads + Wait + Sync>(
    wait: &W,
    alloc: Global,
    block: &str,
) -> Result<Option<Difference>, Bad> {
    let case = read_case(alloc, block)?;
    Ok(first_difference(wait, alloc, &case)?)
}

/// The name of the case that a block describes: its first line.
fn name_of(block: &str) -> &str {
    match block.split_once('\n') {
        Some((name, _)) => name,
        None => block,
    }
}

/// Tries a case, says what differs, and answers whether all went as expected.
fn passes<W: Threads + Wait + Sync>(rt: &HostRuntime, wait: &W, block: &str) -> io::Result<bool> {
    let name = name_of(block);
    match try_case(wait, rt.alloc(), block) {
        Ok(None) => return Ok(true),
        Ok(Some(found)) => println!(rt; "  {name}: {found}")?,
        Err(bad) => println!(rt; "  {name}: {bad}")?,
    }
    Ok(false)
}

/// How many cases of a file went as expected, and how many did not.
#[derive(Clone, Copy)]
struct Counts {
    passed: u64,
    failed: u64,
}

impl Counts {
    fn count(&mut self, has_passed: bool) {
        if has_passed {
            self.passed = self.passed.saturating_add(1);
        } else {
            self.failed = self.failed.saturating_add(1);
        }
    }
}

/// Tries the cases of a text, of which each begins after `\n== `.
fn try_cases<W: Threads + Wait + Sync>(
    rt: &HostRuntime,
    wait: &W,
    text: &str,
) -> io::Result<Counts> {
    let mut counts = Counts {
        passed: 0,
        failed: 0,
    };
    for block in text.split("\n== ").skip(1) {
        counts.count(passes(rt, wait, block)?);
    }
    Ok(counts)
}

/// What is wrong with a file beside its cases, if something is.
fn fault_of(text: &str, counts: Counts) -> Option<&'static str> {
    let head = text.split("\n== ").next().unwrap_or("");
    if !says_nothing(head) {
        return Some("a text stands before the first case");
    }
    if counts.passed == 0 && counts.failed == 0 {
        return Some("no case");
    }
    None
}

/// Writes what is wrong with a file, and the line for it.
fn report<W: Threads + Wait + Sync>(
    rt: &HostRuntime,
    wait: &W,
    name: &str,
    text: &str,
) -> io::Result<()> {
    let mut counts = try_cases(rt, wait, text)?;
    if let Some(fault) = fault_of(text, counts) {
        println!(rt; "  {fault}")?;
        counts.count(false);
    }
    let Counts { passed, failed } = counts;
    println!(rt; "{name}: {passed} passed, {failed} failed")
}

/// Tries the cases of a file, and writes a line for it after a line for each case that failed.
fn try_file<W: Threads + Wait + Sync>(rt: &HostRuntime, wait: &W, name: &str) -> io::Result<()> {
    // So a case at the very start begins like the others.
    let text = format!(in rt.alloc(); "\n{}", fs::read_to_string(rt, name)?)?;
    report(rt, wait, name, text.as_str())
}

fn main(rt: HostRuntime) -> io::Result<()> {
    for name in case_files(&rt)? {
        try_file(&rt, &rt, name.as_str())?;
    }
    Ok(())
}
