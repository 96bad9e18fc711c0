//! Why a journal isn't shown.
ghost use Rattle.std.specs.Prelude.{◌≡◌, ◌++◌, IfOk, OnOk};
ghost use Rattle.ps_shows.specs.Pictures.{cause_text, fault_line, fault_status, head_of, line_of};

use ps_entries::JournalRefusal;
use ps_journal::push_number;
use std::alloc::{AllocError, Global};

/// Why a journal isn't shown.
#[derive(Clone, Copy, PartialEq, Eq)]
pub enum Fault {
    /// The file is longer than 1,048,576 bytes.
    TooLong,
    /// The file's text is no journal: this is its first line at fault, counted from 1.
    Line(u32),
    /// The file can't be read.
    Unread,
}

/// The status of a fault.
pub fn fault_status(fault: Fault) -> u8
    ensures { result ≡ fault_status fault }
{
    match fault {
        Fault::TooLong => 3,
        Fault::Line(_) => 3,
        Fault::Unread => 4,
    }
}

/// The first line at fault of a text that is no journal.
pub fn line_of(refusal: JournalRefusal) -> u32
    ensures { result ≡ line_of refusal }
{
    match refusal {
        JournalRefusal::Header => 1,
        JournalRefusal::Line { n } => n,
    }
}

/// Adds what is at fault with a file, and the end of the line.
fn push_cause(fault: Fault, line: &mut Vec<u8>) -> Result<(), AllocError>
    ensures { OnOk result (line.new.items ≡ line.old.items ++ cause_text fault) }
{
    match fault {
        Fault::TooLong => line.extend_from_slice(b": TooLong\n"),
        Fault::Line(n) => {
            line.extend_from_slice(b": line ")?;
            push_number(u64::from(n), line)?;
            line.push(b'\n')?;
            Ok(())
        }
        Fault::Unread => {
            line.push(b'\n')?;
            Ok(())
        }
    }
}

/// The words before the name of a file at fault.
fn head_of(fault: Fault) -> &'static [u8]
    ensures { result.now ≡ head_of fault }
{
    match fault {
        Fault::TooLong => b"plansys: ",
        Fault::Line(_) => b"plansys: ",
        Fault::Unread => b"plansys: cannot read ",
    }
}

/// The line that says what is at fault with a file.
pub fn fault_line(alloc: Global, fault: Fault, file: &str) -> Result<Vec<u8>, AllocError>
    ensures { IfOk result (λ line. line.items ≡ fault_line fault file.now) }
{
    let mut line = Vec::from_slice(alloc, head_of(fault))?;
    line.extend_from_slice(file.as_bytes())?;
    push_cause(fault, &mut line)?;
    Ok(line)
}
