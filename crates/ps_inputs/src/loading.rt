//! Loading: the work that words and files give.
ghost use Rattle.ps_words.specs.Words.{IsInRange, replay_said, said, settings_said};
ghost use Rattle.ps_words.specs.Words.Request.{a_check, a_generation, a_planning, a_replay, a_session, a_validation, an_editing};
ghost use Rattle.std.specs.Prelude.{◌≤◌, length, IfOk};
ghost use Rattle.ps_rules.specs.Heads.{AreSettings};
ghost use Rattle.ps_inputs.specs.Faults.{Loads, word_texts};
ghost use Rattle.ps_inputs.specs.Input.{GoesBy};
ghost use Rattle.ps_inputs.specs.Parts.{Generates, LoadsRequest, ReadsJournal};
ghost use Rattle.ps_inputs.specs.Reading.{longest_file};

use crate::faults::Fault;
use crate::judging::{Loaded, judge};
use crate::reading::{
    Judged, Script, generate, read_domain_file, read_input, read_script, read_text,
};
use crate::works::{Check, Editing, Generation, Planning, Replay, Session, Validation, Work};
use ps_boxes::Boxed;
use ps_entries::settings_in;
use ps_text::Files;
use ps_words::{Asked, ReplaySettings, Settings, read_words};
use ps_world::Failure;
use std::alloc::{AllocError, Global};

/// How many states a search may reach where the words don't say.
const USUAL_BUDGET: u32 = 20_000;

/// How often a run's plan may be made anew where the words don't say.
const USUAL_REPLANS: u8 = 3;

/// Reads the files of a session: the domain's, the script's with the files that it names, and the members'. Texts that are at fault are
/// told after all files are read.
fn load_session<'a, F: Files>(
    alloc: Global,
    settings: &Settings<'a>,
    files: &mut F,
) -> Result<Work, Failure<Fault>>
    requires { IsInRange (a_session (settings_said settings.now)) }
    ensures { LoadsRequest (a_session (settings_said settings.now)) (F.shown files.old)
        (F.shown files.new) result }
{
    let members = settings.members.as_slice();
    let read = read_input(alloc, settings.domain, settings.script, members, files)?;
    let Loaded { names, input } = judge(alloc, read, settings.budget, settings.replans as u8)?;
    let session = Session {
        names,
        input,
        workers: settings.workers as u8,
        ordered: settings.ordered,
        reports: settings.reports,
    };
    Ok(Work::Session(Boxed::new(alloc, session)?))
}

/// Reads the file of a check.
fn load_check<F: Files>(alloc: Global, file: &str, files: &mut F) -> Result<Work, Failure<Fault>>
    ensures { LoadsRequest (a_check file.now) (F.shown files.old) (F.shown files.new) result }
{
    let Judged { names, domain } = read_domain_file(alloc, file, files)?;
    match domain {
        Ok(domain) => Ok(Work::Check(Boxed::new(alloc, Check { names, domain })?)),
        Err(fault) => Err(Failure::Refused(fault)),
    }
}

/// Reads the files of a plan that is to be validated: the domain's, the script's with the files that it names, and the plan's. A
/// domain's text that is none is told after all files are read.
fn load_validation<F: Files>(
    alloc: Global,
    domain: &str,
    script: &str,
    plan: &str,
    files: &mut F,
) -> Result<Work, Failure<Fault>>
    ensures { LoadsRequest (a_validation domain.now script.now plan.now) (F.shown files.old)
        (F.shown files.new) result }
{
    let read = read_input(alloc, domain, script, &[], files)?;
    let plan = read_text(alloc, plan, files)?;
    let Loaded { names, input } = judge(alloc, read, 0, 0)?;
    let validation = Validation { names, input, plan };
    Ok(Work::Validation(Boxed::new(alloc, validation)?))
}

/// Reads the files of a problem that is to be planned: the domain's, and the script's with the files that it names. A domain's text that is
/// none is told after all files are read.
fn load_planning<F: Files>(
    alloc: Global,
    domain: &str,
    script: &str,
    budget: u32,
    files: &mut F,
) -> Result<Work, Failure<Fault>>
    requires { IsInRange (a_planning domain.now script.now budget) }
    ensures { LoadsRequest (a_planning domain.now script.now budget) (F.shown files.old)
        (F.shown files.new) result }
{
    let read = read_input(alloc, domain, script, &[], files)?;
    let Loaded { names, input } = judge(alloc, read, budget, 0)?;
    Ok(Work::Planning(Boxed::new(alloc, Planning { names, input })?))
}

/// The settings that a replay goes by: those that the head of its journal says, or these where it says none.
fn settings_for(alloc: Global, asked: (u32, u8), journal: &[u8]) -> Result<(u32, u8), AllocError>
    requires { AreSettings asked }
    ensures goes { IfOk result (GoesBy asked journal.now) }
    ensures ranged { IfOk result AreSettings }
{
    match settings_in(alloc, journal)? {
        Some(own) => Ok(own),
        None => Ok(asked),
    }
}

/// Reads the file of a journal, and finds the settings that a replay of it goes by, where the words say these.
fn read_journal<F: Files>(
    alloc: Global,
    file: &str,
    words: (u32, u8),
    files: &mut F,
) -> Result<(Vec<u8>, (u32, u8)), Failure<Fault>>
    requires { AreSettings words }
    ensures reads { ReadsJournal words file.now (F.shown files.old) (F.shown files.new) result }
    ensures short { IfOk result (λ journal. length journal.0.items ≤ longest_file) }
    ensures ranged { IfOk result (λ journal. AreSettings journal.1) }
{
    let text = read_text(alloc, file, files)?;
    let own = settings_for(alloc, words, &text)?;
    Ok((text, own))
}

/// Reads the files of a replay: the domain's, the script's with the files that it names, the members', and the journal's. Texts that are at
/// fault are told after all files are read. Where the journal says its settings, those of the words aren't used.
fn load_replay<'a, F: Files>(
    alloc: Global,
    settings: &ReplaySettings<'a>,
    files: &mut F,
) -> Result<Work, Failure<Fault>>
    requires { IsInRange (a_replay (replay_said settings.now)) }
    ensures { LoadsRequest (a_replay (replay_said settings.now)) (F.shown files.old)
        (F.shown files.new) result }
{
    let members = settings.members.as_slice();
    let read = read_input(alloc, settings.domain, settings.script, members, files)?;
    let words = (settings.budget, settings.replans as u8);
    let (journal, own) = read_journal(alloc, settings.journal, words, files)?;
    let Loaded { names, input } = judge(alloc, read, own.0, own.1)?;
    let replay = Replay {
        names,
        input,
        journal,
        migrates: settings.migrates,
    };
    Ok(Work::Replay(Boxed::new(alloc, replay)?))
}

/// Reads the files of a problem that is to be prepared: the domain's, and the script's with the files that it names. A domain's text that
/// is none is told after all files are read.
fn load_editing<F: Files>(
    alloc: Global,
    domain: &str,
    script: &str,
    files: &mut F,
) -> Result<Work, Failure<Fault>>
    ensures { LoadsRequest (an_editing domain.now script.now) (F.shown files.old)
        (F.shown files.new) result }
{
    let Judged { names, domain } = read_domain_file(alloc, domain, files)?;
    let Script {
        names,
        lines,
        words,
    } = read_script(alloc, names, script, files)?;
    match domain {
        Ok(domain) => {
            let editing = Editing {
                names,
                domain,
                lines,
                words,
            };
            Ok(Work::Editing(Boxed::new(alloc, editing)?))
        }
        Err(fault) => Err(Failure::Refused(fault)),
    }
}

/// Judges the generator's texts, for which no file is read.
fn load_generation(alloc: Global, carts: u32) -> Result<Work, Failure<Fault>>
    requires { IsInRange (a_generation carts) }
    ensures { Generates carts result }
{
    let read = generate(alloc, carts)?;
    let Loaded { names, input } = judge(alloc, read, USUAL_BUDGET, USUAL_REPLANS)?;
    let generation = Generation {
        carts,
        names,
        input,
    };
    Ok(Work::Generation(Boxed::new(alloc, generation)?))
}

/// Reads all files of what is asked for.
fn load_asked<'a, F: Files>(
    alloc: Global,
    asked: Asked<'a>,
    files: &mut F,
) -> Result<Work, Failure<Fault>>
    requires { IsInRange (said asked) }
    ensures { LoadsRequest (said asked.entry) (F.shown files.old) (F.shown files.new) result }
{
    match asked {
        Asked::Session(settings) => load_session(alloc, &settings, files),
        Asked::Check { domain } => load_check(alloc, domain, files),
        Asked::Validate {
            domain,
            script,
            plan,
        } => load_validation(alloc, domain, script, plan, files),
        Asked::Plan {
            domain,
            script,
            budget,
        } => load_planning(alloc, domain, script, budget, files),
        Asked::Replay(settings) => load_replay(alloc, &settings, files),
        Asked::Edit { domain, script } => load_editing(alloc, domain, script, files),
        Asked::Generate { carts } => load_generation(alloc, carts),
    }
}

/// Reads the words, all files that they name and all files that these name, and judges their texts.
///
/// The first fault decides, in this order: `Usage`; then for each file as it is read, the domain's, the script's with the files that
/// it names, those of plans too, the members' in the order of the words, the plan's or the journal's, `Unread` or `TooLong`, and `Lines`
/// at the line that is one too many; then `NoDomain`; `NoMember` of the first text that is none; `Crowd`; `Twice` of the first name that
/// an earlier member has. Where a session is to be generated, no file is read: the generator's texts are judged.
pub fn load<F: Files>(
    alloc: Global,
    words: &[String],
    files: &mut F,
) -> Result<Work, Failure<Fault>>
    ensures { Loads (word_texts words.now) (F.shown files.old) (F.shown files.new) result }
{
    let Some(asked) = read_words(alloc, words)? else {
        return Err(Failure::Refused(Fault::Usage));
    };
    load_asked(alloc, asked, files)
}
