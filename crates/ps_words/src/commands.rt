//! The modes, and the command of each.
ghost use Rattle.std.specs.Prelude.{◌≡◌, IfOk, map, option_map, true, []};
ghost use Rattle.clap.specs.Faults.{is_simple_and_free};
ghost use Rattle.clap.specs.Matches.{found_of};
ghost use Rattle.clap.specs.Simple.{App, app_of, with_rule};
ghost use Rattle.clap.specs.Walk.{first_of, rows_of};
ghost use Rattle.ps_words.specs.Words.{word_texts, command_of, option_rule, flag_rule, word_rule, words_rule, rows_read, text_in, words_in, is_set_in, mode_of};
ghost use Rattle.ps_words.specs.Words.{session_app, check_app, validate_app, plan_app, journal_app, edit_app, gen_app, mode_app};

use clap::error::ErrorKind;
use clap::{Arg, ArgAction, ArgMatches, Command};
use std::alloc::{AllocError, Global};

/// What the program may be asked to do.
#[derive(Clone, Copy, PartialEq, Eq, Debug)]
pub enum Mode {
    /// Do the lines of a script.
    Session,
    /// Read a domain, and print it.
    Check,
    /// Judge a plan.
    Validate,
    /// Plan by three searches at once.
    Plan,
    /// Judge a journal.
    Replay,
    /// Judge a journal, and write it anew where it is legal.
    Migrate,
    /// Prepare a problem by the lines of a script.
    Edit,
    /// Do a generated session, and count its entries.
    Gen,
}

/// The mode of this name.
pub fn mode_of(word: &str) -> Option<Mode>
    ensures { result ≡ mode_of word.now }
{
    match word {
        "session" => Some(Mode::Session),
        "check" => Some(Mode::Check),
        "validate" => Some(Mode::Validate),
        "plan" => Some(Mode::Plan),
        "replay" => Some(Mode::Replay),
        "migrate" => Some(Mode::Migrate),
        "edit" => Some(Mode::Edit),
        "gen" => Some(Mode::Gen),
        _ => None,
    }
}

/// A command with no options yet, which has no help and no version of its own.
fn bare_command<'a>(alloc: Global, name: &'a str) -> Command<'a>
    ensures { app_of result ≡ command_of name.now [] }
{
    Command::new(alloc, name)
        .disable_help_flag(true)
        .disable_version_flag(true)
}

/// The command, if it could be made so far, with an option `--id` more, which has one value.
fn with_option<'a>(
    alloc: Global,
    command: Result<Command<'a>, AllocError>,
    id: &'a str,
    required: bool,
) -> Result<Command<'a>, AllocError>
    ensures { (app : App) → IfOk command.entry (λ c. app_of c ≡ app)
        → IfOk result (λ c. app_of c ≡ with_rule app (option_rule id.now required)) }
{
    let command = command?;
    let option = Arg::new(alloc, id)
        .long(id)
        .action(ArgAction::Set)
        .required(required);
    command.arg(option)
}

/// The command, if it could be made so far, with an option `--id` more, which has no value.
fn with_flag<'a>(
    alloc: Global,
    command: Result<Command<'a>, AllocError>,
    id: &'a str,
) -> Result<Command<'a>, AllocError>
    ensures { (app : App) → IfOk command.entry (λ c. app_of c ≡ app)
        → IfOk result (λ c. app_of c ≡ with_rule app (flag_rule id.now)) }
{
    let command = command?;
    let flag = Arg::new(alloc, id).long(id).action(ArgAction::SetTrue);
    command.arg(flag)
}

/// The command, if it could be made so far, with one word after its options, which has to be there and has this id.
fn with_word<'a>(
    alloc: Global,
    command: Result<Command<'a>, AllocError>,
    id: &'a str,
) -> Result<Command<'a>, AllocError>
    ensures { (app : App) → IfOk command.entry (λ c. app_of c ≡ app)
        → IfOk result (λ c. app_of c ≡ with_rule app (word_rule id.now)) }
{
    let command = command?;
    let word = Arg::new(alloc, id).action(ArgAction::Set).required(true);
    command.arg(word)
}

/// The command, if it could be made so far, with any number of words after its options, which have this id.
fn with_words<'a>(
    alloc: Global,
    command: Result<Command<'a>, AllocError>,
    id: &'a str,
) -> Result<Command<'a>, AllocError>
    ensures { (app : App) → IfOk command.entry (λ c. app_of c ≡ app)
        → IfOk result (λ c. app_of c ≡ with_rule app (words_rule id.now)) }
{
    let command = command?;
    let words = Arg::new(alloc, id).action(ArgAction::Append);
    command.arg(words)
}

/// The command of a session.
fn session_command<'a>(alloc: Global) -> Result<Command<'a>, AllocError>
    ensures { IfOk result (λ c. app_of c ≡ session_app) }
{
    let command = Ok(bare_command(alloc, "session"));
    let command = with_option(alloc, command, "domain", true);
    let command = with_option(alloc, command, "script", true);
    let command = with_option(alloc, command, "workers", false);
    let command = with_option(alloc, command, "budget", false);
    let command = with_option(alloc, command, "replans", false);
    let command = with_flag(alloc, command, "ordered");
    let command = with_flag(alloc, command, "reports");
    with_words(alloc, command, "members")
}

/// The command of a check.
fn check_command<'a>(alloc: Global) -> Result<Command<'a>, AllocError>
    ensures { IfOk result (λ c. app_of c ≡ check_app) }
{
    let command = Ok(bare_command(alloc, "check"));
    with_option(alloc, command, "domain", true)
}

/// The command of a validation.
fn validate_command<'a>(alloc: Global) -> Result<Command<'a>, AllocError>
    ensures { IfOk result (λ c. app_of c ≡ validate_app) }
{
    let command = Ok(bare_command(alloc, "validate"));
    let command = with_option(alloc, command, "domain", true);
    let command = with_option(alloc, command, "script", true);
    with_option(alloc, command, "plan", true)
}

/// The command of a plan that is searched for.
fn plan_command<'a>(alloc: Global) -> Result<Command<'a>, AllocError>
    ensures { IfOk result (λ c. app_of c ≡ plan_app) }
{
    let command = Ok(bare_command(alloc, "plan"));
    let command = with_option(alloc, command, "domain", true);
    let command = with_option(alloc, command, "script", true);
    with_option(alloc, command, "budget", false)
}

/// The command of a mode in which a journal is judged.
fn journal_command<'a>(alloc: Global, name: &'a str) -> Result<Command<'a>, AllocError>
    ensures { IfOk result (λ c. app_of c ≡ journal_app name.now) }
{
    let command = Ok(bare_command(alloc, name));
    let command = with_option(alloc, command, "domain", true);
    let command = with_option(alloc, command, "script", true);
    let command = with_option(alloc, command, "journal", true);
    let command = with_option(alloc, command, "budget", false);
    let command = with_option(alloc, command, "replans", false);
    with_words(alloc, command, "members")
}

/// The command of an editor.
fn edit_command<'a>(alloc: Global) -> Result<Command<'a>, AllocError>
    ensures { IfOk result (λ c. app_of c ≡ edit_app) }
{
    let command = Ok(bare_command(alloc, "edit"));
    let command = with_option(alloc, command, "domain", true);
    with_option(alloc, command, "script", true)
}

/// The command of a generated session.
fn gen_command<'a>(alloc: Global) -> Result<Command<'a>, AllocError>
    ensures { IfOk result (λ c. app_of c ≡ gen_app) }
{
    let command = Ok(bare_command(alloc, "gen"));
    with_word(alloc, command, "carts")
}

/// The command of a mode.
pub fn mode_command<'a>(alloc: Global, mode: Mode) -> Result<Command<'a>, AllocError>
    ensures { IfOk result (λ c. app_of c ≡ mode_app mode) }
{
    match mode {
        Mode::Session => session_command(alloc),
        Mode::Check => check_command(alloc),
        Mode::Validate => validate_command(alloc),
        Mode::Plan => plan_command(alloc),
        Mode::Replay => journal_command(alloc, "replay"),
        Mode::Migrate => journal_command(alloc, "migrate"),
        Mode::Edit => edit_command(alloc),
        Mode::Gen => gen_command(alloc),
    }
}

/// What the words, of which the first is the mode, give for the options of a command, or nothing where the command doesn't take
/// them.
pub fn taken<'a>(
    command: Command<'a>,
    words: &'a [String],
) -> Result<Option<ArgMatches<'a>>, AllocError>
    requires { is_simple_and_free (app_of command) ≡ true }
    ensures { IfOk result (λ m. option_map (λ x. rows_of (found_of x)) m
        ≡ rows_read (app_of command.entry) (word_texts words.now)) }
{
    match command.try_get_matches_from(words) {
        Ok(matches) => Ok(Some(matches)),
        Err(error) if error.kind() == ErrorKind::OutOfMemory => Err(AllocError),
        Err(_) => Ok(None),
    }
}

/// The value of an option, or the one word after the options, if it was given.
pub fn value_of<'a>(matches: &ArgMatches<'a>, id: &str) -> Option<&'a str>
    ensures { option_map (λ t. t.now) result ≡ first_of id.now (rows_of (found_of matches.now)) }
{
    matches.get_str(id)
}

/// The value of an option, or the one word after the options, that a command requires.
pub fn text_of<'a>(matches: &ArgMatches<'a>, id: &str) -> &'a str
    ensures { result.now ≡ text_in id.now (rows_of (found_of matches.now)) }
{
    match value_of(matches, id) {
        Some(text) => text,
        None => "",
    }
}

/// The words that were given after the options.
pub fn words_of<'a>(
    alloc: Global,
    matches: &ArgMatches<'a>,
    id: &str,
) -> Result<Vec<&'a str>, AllocError>
    ensures { IfOk result (λ v. map (λ t. t.now) v.items
        ≡ words_in id.now (rows_of (found_of matches.now))) }
{
    match matches.get_strs(id) {
        Some(all) => Vec::from_slice(alloc, all),
        None => Ok(Vec::new(alloc)),
    }
}

/// Whether an option with no value was given. Its text is then `true`.
pub fn is_set(matches: &ArgMatches<'_>, id: &str) -> bool
    ensures { result ≡ is_set_in id.now (rows_of (found_of matches.now)) }
{
    text_of(matches, id) == "true"
}
