//! The texts of files.
ghost use Rattle.std.specs.Prelude.{◌≤◌, length, IfOk};
ghost use Rattle.ps_inputs.specs.Parts.{ReadsText};
ghost use Rattle.ps_inputs.specs.Reading.{longest_file};

use crate::faults::Fault;
use ps_text::{FileRefusal, Files};
use ps_world::Failure;
use std::alloc::Global;

/// The most bytes of a file.
const LONGEST_FILE: usize = 1_048_576;

/// The text of a file.
pub fn read_text<F: Files>(
    alloc: Global,
    file: &str,
    files: &mut F,
) -> Result<Vec<u8>, Failure<Fault>>
    ensures reads { ReadsText file.now (F.shown files.old) (F.shown files.new) result }
    ensures short { IfOk result (λ text. length text.items ≤ longest_file) }
{
    let name = Vec::from_slice(alloc, file.as_bytes())?;
    match files.read(alloc, file) {
        Ok(text) => {
            if text.len() > LONGEST_FILE {
                return Err(Failure::Refused(Fault::TooLong(name)));
            }
            Ok(text)
        }
        Err(FileRefusal::Failed) => Err(Failure::Refused(Fault::Unread(name))),
        Err(FileRefusal::OutOfMemory) => Err(Failure::OutOfMemory),
    }
}
