//! What the text of a journal is found to be, and how that is told.
ghost use Rattle.std.specs.Prelude.{◌≡◌, IfOk};
ghost use Rattle.ps_audit.specs.Findings.{finding_line, finding_status};

use ps_journal::push_number;
use std::alloc::{AllocError, Global};

/// What the text of a journal is found to be.
#[derive(Clone, Copy, PartialEq, Eq, Debug)]
pub enum Finding {
    /// The text of a whole history of the input.
    Legal,
    /// None: this line, counted from 1, is the first that is out of the grammar; if there is none, the line of the first entry
    /// that may not stand there, or the line after the last where more should follow; if there is neither, the first line that
    /// differs from the text of the entries.
    Illegal { line: usize },
}

/// The line that tells what was found.
pub fn finding_line(alloc: Global, finding: Finding) -> Result<Vec<u8>, AllocError>
    ensures { IfOk result (λ text. text.items ≡ finding_line finding) }
{
    let mut text = Vec::new(alloc);
    match finding {
        Finding::Legal => text.extend_from_slice(b"legal\n")?,
        Finding::Illegal { line } => {
            text.extend_from_slice(b"illegal line ")?;
            push_number(line as u64, &mut text)?;
            text.extend_from_slice(b"\n")?;
        }
    }
    Ok(text)
}

/// The status of a program that tells what was found.
pub fn finding_status(finding: Finding) -> u8
    ensures { result ≡ finding_status finding }
{
    match finding {
        Finding::Legal => 0,
        Finding::Illegal { .. } => 7,
    }
}
