//! Explaining a replay: at which line a journal isn't legal.
use ps_audit::{Finding, audit};
use ps_boxes::Boxed;
use ps_inputs::Replay;
use ps_remarks::Page;
use ps_solve::Forward;
use ps_text::lines;
use std::alloc::{AllocError, Global};

/// What a journal is found to be.
fn finding_of(alloc: Global, replay: &mut Replay) -> Result<Finding, AllocError> {
    let journal = replay.journal.as_slice();
    let solver = Forward::new();
    let audited = audit(
        alloc,
        &mut replay.names,
        &replay.input,
        journal,
        &solver,
        false,
    )?;
    Ok(audited.finding)
}

/// Says at which line the journal of a replay isn't legal.
fn explain_journal(
    alloc: Global,
    file: &str,
    replay: &mut Replay,
    page: &mut Page,
) -> Result<(), AllocError> {
    match finding_of(alloc, replay)? {
        Finding::Legal => Ok(()),
        Finding::Illegal { line } => say_illegal(
            alloc,
            file,
            replay.journal.as_slice(),
            line,
            page,
        ),
    }
}

/// Says which line of a journal is the first that isn't legal.
fn say_illegal(
    alloc: Global,
    file: &str,
    journal: &[u8],
    line: usize,
    page: &mut Page,
) -> Result<(), AllocError> {
    let spans = lines(alloc, journal)?;
    if line == 1 {
        let sentence = b"the first line of a journal is 'plansys-journal 1' or 'plansys-journal 2'";
        return page.mark(file, journal, 0, sentence);
    }
    match spans.as_slice().get(line.saturating_sub(1)) {
        Some(span) => page.mark(
            file,
            journal,
            span.from,
            b"no session of these files writes this line after those before it",
        ),
        None => page.mark(
            file,
            journal,
            journal.len().saturating_sub(1),
            b"the journal ends here, where more has to come",
        ),
    }
}

/// Says at which line a journal isn't legal.
pub fn explain_replay(
    alloc: Global,
    file: &str,
    replay: Boxed<Replay>,
    page: &mut Page,
) -> Result<(), AllocError> {
    let mut replay = replay.into_inner();
    explain_journal(alloc, file, &mut replay, page)
}
