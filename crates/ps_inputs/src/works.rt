//! The work that words and files give.
ghost use Rattle.std.specs.Prelude.{◌<◌, ◌≤◌, ◌^◌, length};
ghost use Rattle.ps_rules.specs.Sound.{IsSound};
ghost use Rattle.ps_problem.specs.WellKnown.{HasConstants};
ghost use Rattle.ps_inputs.specs.Propositions.{constants_prop, sound_prop};

use ps_boxes::Boxed;
use ps_edit_words::EditWord;
use ps_machine::{Input, Line};
use ps_text::Names;
use ps_world::Domain;

/// A session that is within the limits, with the table of all of its names.
#[derive(Drop)]
pub struct Session {
    pub names: Names,
    pub input: Input,
    /// How many workers a run has: 1 to 16.
    pub workers: u8,
    /// Whether one worker does all, with the members' turns in a fixed order.
    pub ordered: bool,
    /// Whether the performers' reports are told once the journal is written.
    pub reports: bool,
    ghost sound: { IsSound input } by { Prim.hlevel sound_prop },
    ghost some: { 1 ≤ workers },
    ghost few: { workers ≤ 16 },
}

/// A domain whose canonical text is to be written, with the table of its names.
#[derive(Drop)]
pub struct Check {
    pub names: Names,
    pub domain: Domain,
}

/// A plan that is to be validated after the edits of an input, with the table of the input's names. It isn't read yet.
#[derive(Drop)]
pub struct Validation {
    pub names: Names,
    /// Its budget is 0, since no plan is searched for.
    pub input: Input,
    /// The text of the plan.
    pub plan: Vec<u8>,
}

/// A problem that is to be planned after the edits of an input, with the table of the input's names.
#[derive(Drop)]
pub struct Planning {
    pub names: Names,
    /// Its budget is that of each search: 1 to 200,000.
    pub input: Input,
    ghost sound: { IsSound input } by { Prim.hlevel sound_prop },
}

/// A journal that is to be judged by an input that is within the limits, with the table of the input's names. It isn't read yet.
#[derive(Drop)]
pub struct Replay {
    pub names: Names,
    pub input: Input,
    /// The text of the journal.
    pub journal: Vec<u8>,
    /// Whether it is to be written anew where it is legal.
    pub migrates: bool,
    ghost sound: { IsSound input } by { Prim.hlevel sound_prop },
    ghost short: { length journal.items < 2 ^ 32 },
}

/// The lines of a script that prepares a problem over a domain, with the table of all of their names.
#[derive(Drop)]
pub struct Editing {
    pub names: Names,
    pub domain: Domain,
    /// The command lines of the script, in order.
    pub lines: Vec<Line>,
    /// What each of them says to an editor alone, if it begins with a word that no session knows.
    pub words: Vec<Option<EditWord>>,
    ghost constants: { HasConstants domain } by { Prim.hlevel constants_prop },
}

/// A session of the generator's texts, of which a summary is told, with the table of all of its names.
#[derive(Drop)]
pub struct Generation {
    /// How many carts there are.
    pub carts: u32,
    pub names: Names,
    pub input: Input,
    ghost sound: { IsSound input } by { Prim.hlevel sound_prop },
}

/// What a call is to do, with all that it is done on. What is large is in a box, so that letting go of it is one step.
#[derive(Drop)]
pub enum Work {
    /// To do the lines of a script.
    Session(Boxed<Session>),
    /// To write the canonical text of a domain.
    Check(Boxed<Check>),
    /// To judge a plan.
    Validation(Boxed<Validation>),
    /// To plan.
    Planning(Boxed<Planning>),
    /// To judge a journal.
    Replay(Boxed<Replay>),
    /// To prepare a problem.
    Editing(Boxed<Editing>),
    /// To do the lines of the generator's script, and to sum up what came of it.
    Generation(Boxed<Generation>),
}
