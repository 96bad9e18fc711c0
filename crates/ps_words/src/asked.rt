//! What the words ask for.
ghost use Rattle.std.specs.Prelude.{◌≡◌, IfOk, IfSome, codes, map, option_map};
ghost use Rattle.clap.specs.Matches.{found_of};
ghost use Rattle.clap.specs.Walk.{rows_of};
ghost use Rattle.ps_words.specs.Words.{word_texts, said, session_of, planning_of, replay_of, generation_of, words_in, asked_from, asked_in, asked_of, IsInRange};

use super::commands::{Mode, is_set, mode_command, mode_of, taken, text_of, value_of, words_of};
use super::form::is_well_formed;
use super::numbers::{number_in, number_or};
use clap::ArgMatches;
use std::alloc::{AllocError, Global};

/// The settings of a session.
#[derive(Drop)]
pub struct Settings<'a> {
    /// The file of the domain.
    pub domain: &'a str,
    /// The file of the script.
    pub script: &'a str,
    /// The files of the members.
    pub members: Vec<&'a str>,
    /// How many workers there are: 1 to 16, usually 2.
    pub workers: u32,
    /// How many states a search for a plan may reach before it gives up: 1 to 200,000, usually 20,000.
    pub budget: u32,
    /// How often a plan may be made anew in a run: 0 to 8, usually 3.
    pub replans: u32,
    /// Whether one worker does all, with the members' turns in a fixed order; usually not.
    pub ordered: bool,
    /// Whether the reports of performers are told once the journal is written; usually not.
    pub reports: bool,
}

/// The settings of a replay.
#[derive(Drop)]
pub struct ReplaySettings<'a> {
    /// The file of the domain.
    pub domain: &'a str,
    /// The file of the script.
    pub script: &'a str,
    /// The file of the journal.
    pub journal: &'a str,
    /// The files of the members.
    pub members: Vec<&'a str>,
    /// How many states a search for a plan may reach before it gives up: 1 to 200,000, usually 20,000.
    pub budget: u32,
    /// How often a plan may be made anew in a run: 0 to 8, usually 3.
    pub replans: u32,
    /// Whether the journal is to be written anew where it is legal.
    pub migrates: bool,
}

/// What the words ask for.
#[derive(Drop)]
pub enum Asked<'a> {
    /// To do the lines of a script.
    Session(Settings<'a>),
    /// To read the domain of a file, and to print it.
    Check {
        /// The file of the domain.
        domain: &'a str,
    },
    /// To judge a plan.
    Validate {
        /// The file of the domain.
        domain: &'a str,
        /// The file of the script.
        script: &'a str,
        /// The file of the plan.
        plan: &'a str,
    },
    /// To plan by three searches at once.
    Plan {
        /// The file of the domain.
        domain: &'a str,
        /// The file of the script.
        script: &'a str,
        /// How many states each search may reach before it gives up: 1 to 200,000, usually 20,000.
        budget: u32,
    },
    /// To judge a journal.
    Replay(ReplaySettings<'a>),
    /// To prepare a problem by the lines of a script.
    Edit {
        /// The file of the domain.
        domain: &'a str,
        /// The file of the script.
        script: &'a str,
    },
    /// To do a generated session, and to count its entries.
    Generate {
        /// How many carts the session has: 1 to 100.
        carts: u32,
    },
}

/// The session of these members that is asked for, where each number has its form and its range.
fn session_with<'a>(matches: &ArgMatches<'a>, members: Vec<&'a str>) -> Option<Asked<'a>>
    requires { map (λ t. t.now) members.items
        ≡ words_in (codes "members") (rows_of (found_of matches.now)) }
    ensures { option_map said result ≡ session_of (rows_of (found_of matches.now)) }
{
    let workers = number_or(value_of(matches, "workers"), 2, 1, 16)?;
    let budget = number_or(value_of(matches, "budget"), 20_000, 1, 200_000)?;
    let replans = number_or(value_of(matches, "replans"), 3, 0, 8)?;
    Some(Asked::Session(Settings {
        domain: text_of(matches, "domain"),
        script: text_of(matches, "script"),
        members,
        workers,
        budget,
        replans,
        ordered: is_set(matches, "ordered"),
        reports: is_set(matches, "reports"),
    }))
}

/// The session that is asked for, where each number has its form and its range.
fn session_of<'a>(alloc: Global, matches: &ArgMatches<'a>) -> Result<Option<Asked<'a>>, AllocError>
    ensures { IfOk result (λ a. option_map said a ≡ session_of (rows_of (found_of matches.now))) }
{
    let members = words_of(alloc, matches, "members")?;
    Ok(session_with(matches, members))
}

/// The plan that is asked for, where the number has its form and its range.
fn planning_of<'a>(matches: &ArgMatches<'a>) -> Option<Asked<'a>>
    ensures { option_map said result ≡ planning_of (rows_of (found_of matches.now)) }
{
    let budget = number_or(value_of(matches, "budget"), 20_000, 1, 200_000)?;
    Some(Asked::Plan {
        domain: text_of(matches, "domain"),
        script: text_of(matches, "script"),
        budget,
    })
}

/// The replay with these members that is asked for, where each number has its form and its range.
fn replay_with<'a>(
    matches: &ArgMatches<'a>,
    members: Vec<&'a str>,
    migrates: bool,
) -> Option<Asked<'a>>
    requires { map (λ t. t.now) members.items
        ≡ words_in (codes "members") (rows_of (found_of matches.now)) }
    ensures { option_map said result ≡ replay_of migrates (rows_of (found_of matches.now)) }
{
    let budget = number_or(value_of(matches, "budget"), 20_000, 1, 200_000)?;
    let replans = number_or(value_of(matches, "replans"), 3, 0, 8)?;
    Some(Asked::Replay(ReplaySettings {
        domain: text_of(matches, "domain"),
        script: text_of(matches, "script"),
        journal: text_of(matches, "journal"),
        members,
        budget,
        replans,
        migrates,
    }))
}

/// The replay that is asked for, where each number has its form and its range.
fn replay_of<'a>(
    alloc: Global,
    matches: &ArgMatches<'a>,
    migrates: bool,
) -> Result<Option<Asked<'a>>, AllocError>
    ensures { IfOk result (λ a. option_map said a
        ≡ replay_of migrates (rows_of (found_of matches.now))) }
{
    let members = words_of(alloc, matches, "members")?;
    Ok(replay_with(matches, members, migrates))
}

/// The generated session that is asked for, where the number of its carts has its form and its range.
fn generation_of<'a>(matches: &ArgMatches<'a>) -> Option<Asked<'a>>
    ensures { option_map said result ≡ generation_of (rows_of (found_of matches.now)) }
{
    let carts = number_in(text_of(matches, "carts"), 1, 100)?;
    Some(Asked::Generate { carts })
}

/// What the words ask for in a mode, by what they give for its command.
fn asked_from<'a>(
    alloc: Global,
    mode: Mode,
    matches: &ArgMatches<'a>,
) -> Result<Option<Asked<'a>>, AllocError>
    ensures { IfOk result (λ a. option_map said a
        ≡ asked_from mode (rows_of (found_of matches.now))) }
{
    match mode {
        Mode::Session => session_of(alloc, matches),
        Mode::Check => Ok(Some(Asked::Check {
            domain: text_of(matches, "domain"),
        })),
        Mode::Validate => Ok(Some(Asked::Validate {
            domain: text_of(matches, "domain"),
            script: text_of(matches, "script"),
            plan: text_of(matches, "plan"),
        })),
        Mode::Plan => Ok(planning_of(matches)),
        Mode::Replay => replay_of(alloc, matches, false),
        Mode::Migrate => replay_of(alloc, matches, true),
        Mode::Edit => Ok(Some(Asked::Edit {
            domain: text_of(matches, "domain"),
            script: text_of(matches, "script"),
        })),
        Mode::Gen => Ok(generation_of(matches)),
    }
}

/// What the words ask for in a mode.
fn asked_in<'a>(
    alloc: Global,
    mode: Mode,
    words: &'a [String],
) -> Result<Option<Asked<'a>>, AllocError>
    ensures { IfOk result (λ a. option_map said a ≡ asked_in mode (word_texts words.now)) }
{
    let command = mode_command(alloc, mode)?;
    match taken(command, words)? {
        Some(matches) => asked_from(alloc, mode, &matches),
        None => Ok(None),
    }
}

/// What the words ask for, without the program's name, or nothing where they aren't in the grammar. The only error is want of
/// memory, which may come of words that aren't in the grammar, too.
///
/// The first word is the mode, and options follow it, each at most once, as `--name value` or `--name=value`, or as `--ordered`
/// or `--reports` alone. A value isn't empty and doesn't begin with `-`. A number has 1 to 9 decimal digits. Last come the members of a
/// session, a replay or a migration, each a file; after the first of them no option stands. The mode `gen` has no options, and one number of
/// carts.
pub fn read_words<'a>(alloc: Global, words: &'a [String]) -> Result<Option<Asked<'a>>, AllocError>
    ensures asked { IfOk result (λ a. option_map said a ≡ asked_of (word_texts words.now)) }
    ensures ranges { IfOk result (λ a. IfSome (option_map said a) IsInRange) }
{
    let [first, rest @ ..] = words else {
        return Ok(None);
    };
    let Some(mode) = mode_of(first.as_str()) else {
        return Ok(None);
    };
    if !is_well_formed(rest) {
        return Ok(None);
    }
    asked_in(alloc, mode, words)
}
