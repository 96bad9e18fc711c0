//! What the words ask for.
ghost use Rattle.std.specs.Prelude.{◌≡◌, codes};
ghost use Rattle.std.specs.Option.{option_map};
ghost use Rattle.ps_world.specs.Lines.{same_text};
ghost use Rattle.ps_shows.specs.Asked.{asked_in, asked_of, is_file, picture_asked, word_texts};

/// How the program is used.
pub const USAGE: &str = "\
picture [--text] JOURNAL
    Draws the runs of a journal, as an SVG image or as text of 100 columns: for each plan a row an act, and a row a performer or an
    observer, with a bar from each start to its end, and a mark for each request, offer, pass, confirm, reject, feedback and edit. The
    axis counts the lines of the journal, since there is no clock.
    --text    as text
    picture --text samples/rooms/journal
";

/// The version of the program, which is that of plansys.
pub const VERSION: &str = "plansys 0.1.0\n";

/// In which form a picture is drawn.
#[derive(Clone, Copy, PartialEq, Eq)]
pub enum Form {
    Text,
    Svg,
}

/// Whether a word may be the name of a file: it isn't empty and doesn't begin with `-`.
fn is_file(word: &str) -> bool
    ensures { result ≡ is_file word.now }
{
    !word.is_empty() && !word.as_bytes().starts_with(b"-")
}

/// A picture in this form of the file of this name, if it may be one.
fn asked_in(form: Form, file: &str) -> Option<(Form, &str)>
    ensures { option_map (λ a. (a.0, a.1.now)) result ≡ asked_in form file.now }
{
    if is_file(file) {
        Some((form, file))
    } else {
        None
    }
}

/// Whether a word is `--text`.
fn is_text(word: &str) -> bool
    ensures { result ≡ same_text word.now (codes "--text") }
{
    word == "--text"
}

/// What the words after `picture` ask for.
fn picture_asked(words: &[String]) -> Option<(Form, &str)>
    ensures { option_map (λ a. (a.0, a.1.now)) result ≡ picture_asked (word_texts words.now) }
{
    match words {
        [file] => asked_in(Form::Svg, file.as_str()),
        [option, file] => {
            if is_text(option.as_str()) {
                asked_in(Form::Text, file.as_str())
            } else {
                None
            }
        }
        _ => None,
    }
}

/// What the words ask for: a picture, in a form, of the journal in a file; or None, where they aren't `picture FILE` or
/// `picture --text FILE`, with a name that isn't empty and doesn't begin with `-`.
pub fn asked_of(words: &[String]) -> Option<(Form, &str)>
    ensures { option_map (λ a. (a.0, a.1.now)) result ≡ asked_of (word_texts words.now) }
{
    match words {
        [mode, rest @ ..] if mode.as_str() == "picture" => picture_asked(rest),
        _ => None,
    }
}
