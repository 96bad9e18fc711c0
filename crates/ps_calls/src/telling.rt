//! Telling what the program says of itself, which takes no call.
ghost use Rattle.std.specs.Prelude.{◌≡◌, is_some};
ghost use Rattle.ps_inputs.specs.Faults.{word_texts};
ghost use Rattle.ps_calls.specs.Telling.{asks_of_itself, is_about_itself, Tells};

use super::reporting::give_up;
use ps_text::{Sink, put};
use ps_words::{USAGE, VERSION};

/// What the program says of itself where it is asked by this word.
fn told_by(word: &str) -> Option<&'static str>
    ensures { is_some result ≡ is_about_itself word.now }
{
    match word {
        "--help" => Some(USAGE),
        "--version" => Some(VERSION),
        _ => None,
    }
}

/// What the program says of itself, where the one word `--help` or `--version` asks for it: how it is used, or its version.
pub fn told_of_itself(words: &[String]) -> Option<&'static str>
    ensures { is_some result ≡ asks_of_itself (word_texts words.now) }
{
    match words {
        [word] => told_by(word.as_str()),
        _ => None,
    }
}

/// Writes a text to `out`, and gives the status: 0, or, where a write is refused, that of what `err` hears of it.
pub fn tell<O: Sink, E: Sink>(text: &[u8], out: &mut O, err: &mut E) -> u8
    ensures { Tells text.now (O.shown out.old) (O.shown out.new) (E.shown err.old) (E.shown err.new)
        result }
{
    match put(out, text) {
        Ok(()) => 0,
        Err(why) => give_up(err, why),
    }
}
