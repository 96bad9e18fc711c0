//! The text of a domain.
ghost use Rattle.std.specs.Prelude.{IfOk};
ghost use Rattle.ps_inputs.specs.Parts.{IsJudged, ReadsDomainFile};

use super::files::read_text;
use crate::causes::cause_text;
use crate::faults::Fault;
use ps_pddl::read_domain;
use ps_text::{Files, Names};
use ps_world::{Domain, Failure};
use std::alloc::{AllocError, Global};

/// A domain, or why a text is none, with the table of the text's names.
#[derive(Drop)]
pub struct Judged {
    pub names: Names,
    pub domain: Result<Domain, Fault>,
}

/// Judges a domain's text.
pub fn judge_domain(alloc: Global, text: &[u8]) -> Result<Judged, AllocError>
    ensures { IfOk result (IsJudged text.now) }
{
    let mut names = Names::new(alloc)?;
    match read_domain(alloc, &mut names, text) {
        Ok(domain) => Ok(Judged {
            names,
            domain: Ok(domain),
        }),
        Err(Failure::Refused(refusal)) => {
            let cause = cause_text(alloc, &names, refusal)?;
            Ok(Judged {
                names,
                domain: Err(Fault::NoDomain(cause)),
            })
        }
        Err(Failure::OutOfMemory) => Err(AllocError),
    }
}

/// Reads the file of a domain, and judges its text.
pub fn read_domain_file<F: Files>(
    alloc: Global,
    file: &str,
    files: &mut F,
) -> Result<Judged, Failure<Fault>>
    ensures { ReadsDomainFile file.now (F.shown files.old) (F.shown files.new) result }
{
    let text = read_text(alloc, file, files)?;
    let judged = judge_domain(alloc, text.as_slice())?;
    Ok(judged)
}
