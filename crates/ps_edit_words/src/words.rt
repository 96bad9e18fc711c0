//! The words that begin a line of an editor alone.
ghost use Rattle.std.specs.Prelude.{◌≡◌};
ghost use Rattle.ps_edit_words.specs.Words.{begins_end, edit_word, word_named};

use ps_script::{after_run, first_run, reads_as, trimmed};

/// What a line says that begins with a word which an editor knows, and a session doesn't.
#[derive(Clone, Copy, PartialEq, Eq, Debug)]
pub enum EditWord {
    /// To take back the newest edit.
    Undo,
    /// To make the edit again that was taken back last.
    Redo,
    /// To write the edits that make what is known.
    Save,
    /// One of these words and more, which begins at this byte of the line.
    More { at: usize },
}

/// Whether nothing is here, or a comment.
fn begins_end(rest: &[u8]) -> bool
    ensures { result ≡ begins_end rest.now }
{
    match rest {
        [] => true,
        [first, ..] => *first == b';',
    }
}

/// How many letters each of these words has.
const LETTERS: usize = 4;

/// What a word says to an editor alone, in any case of its letters.
fn word_named(word: &[u8]) -> Option<EditWord>
    ensures { result ≡ word_named word.now }
{
    // Every line of a script comes by here, and few begin with a word as long.
    if word.len() != LETTERS {
        None
    } else if reads_as(word, b"undo") {
        Some(EditWord::Undo)
    } else if reads_as(word, b"redo") {
        Some(EditWord::Redo)
    } else if reads_as(word, b"save") {
        Some(EditWord::Save)
    } else {
        None
    }
}

/// What a line says to an editor alone, if it begins with a word that no session knows. Its bytes are those before its LF; blanks may stand
/// around the word, and a comment after it.
pub fn edit_word(line: &[u8]) -> Option<EditWord>
    ensures { result ≡ edit_word line.now }
{
    match word_named(first_run(line)) {
        None => None,
        Some(word) => {
            let rest = trimmed(after_run(line));
            if begins_end(rest) {
                Some(word)
            } else {
                Some(EditWord::More {
                    at: line.len() - rest.len(),
                })
            }
        }
    }
}
