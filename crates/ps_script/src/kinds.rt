//! What a line is, before it is read.
ghost use Rattle.std.specs.Prelude.{IfOk};
ghost use Rattle.ps_script.specs.Kinds.{IsKind};

use super::files::{FileName, after_run, file_in, is_run_plan, is_source};
use super::reading::is_nothing;
use std::alloc::{AllocError, Global};

/// What a line is.
#[derive(Drop)]
pub enum Kind {
    /// It says nothing.
    Nothing,
    /// It names a file.
    Source(FileName),
    /// It runs the plan in a file.
    RunPlan(FileName),
    /// It is a command line, good or bad.
    Command,
}

/// What a line is; its bytes are those before its LF.
pub fn kind_of(alloc: Global, bytes: &[u8]) -> Result<Kind, AllocError>
    ensures { IfOk result (IsKind bytes.now) }
{
    if is_nothing(bytes) {
        return Ok(Kind::Nothing);
    }
    if is_source(bytes) {
        return match file_in(alloc, after_run(bytes))? {
            Some(file) => Ok(Kind::Source(file)),
            None => Ok(Kind::Command),
        };
    }
    if is_run_plan(bytes) {
        return match file_in(alloc, after_run(after_run(bytes)))? {
            Some(file) => Ok(Kind::RunPlan(file)),
            None => Ok(Kind::Command),
        };
    }
    Ok(Kind::Command)
}
