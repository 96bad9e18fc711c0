//! The texts of an input.
ghost use Rattle.std.specs.Prelude.{map};
ghost use Rattle.ps_inputs.specs.Parts.{ReadsInput};

use super::domains::{Judged, read_domain_file};
use super::flatten::read_script;
use super::members::{MemberText, read_members};
use super::scripts::Script;
use crate::faults::Fault;
use ps_machine::Line;
use ps_text::{Files, Names};
use ps_world::{Domain, Failure};
use std::alloc::Global;

/// What was read of an input: its domain, or why there is none; the lines of its script; and the texts of its members, which aren't judged
/// yet. The table has the names of the domain and of the lines.
#[derive(Drop)]
pub struct Unjudged {
    pub names: Names,
    pub domain: Result<Domain, Fault>,
    pub lines: Vec<Line>,
    pub members: Vec<MemberText>,
}

/// Reads the files of an input: the domain's, the script's with the files that it names, and the members'. A domain's text that is none is
/// told after all files are read.
pub fn read_input<F: Files>(
    alloc: Global,
    domain: &str,
    script: &str,
    members: &[&str],
    files: &mut F,
) -> Result<Unjudged, Failure<Fault>>
    ensures { ReadsInput domain.now script.now (map (λ m. m.now) members.now)
        (F.shown files.old) (F.shown files.new) result }
{
    let Judged { names, domain } = read_domain_file(alloc, domain, files)?;
    let Script { names, lines, .. } = read_script(alloc, names, script, files)?;
    let members = read_members(alloc, members, files)?;
    Ok(Unjudged {
        names,
        domain,
        lines,
        members,
    })
}
