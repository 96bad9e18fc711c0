//! Why a line is no command.
use super::closest::{closest, distance};
use super::expected::{Grammar, expected, say_expected, takes_variable};
use super::lexing::{say_no_class, word_from};
use super::page::Page;
use super::scripts::{Origin, Source, part_of};
use ps_machine::LineCause;
use ps_script::{Form, form_of};
use ps_text::Words;
use std::alloc::{AllocError, Global};

/// The forms of a script's lines.
const COMMANDS: [&str; 26] = [
    "set instance NAME TYPE",
    "set predicate (NAME NAME..)",
    "set function (= (NAME NAME..) NUMBER)",
    "set goal CONDITION",
    "remove instance NAME",
    "remove predicate (NAME NAME..)",
    "remove function (NAME NAME..)",
    "remove goal",
    "get model types",
    "get model predicates",
    "get model functions",
    "get model actions",
    "get model predicate NAME",
    "get model action NAME",
    "get domain",
    "get problem instances",
    "get problem predicates",
    "get problem functions",
    "get problem goal",
    "get plan",
    "get tree",
    "run",
    "run action (NAME NAME..)",
    "run plan FILE",
    "source FILE",
    "quit",
];

/// How many bytes of a line's leading words may be wrong, where a form is still close.
const MOST_CHANGES: usize = 3;

/// The leading words of a form, which are in small letters.
fn leading(form: &'static str) -> &'static [u8] {
    let bytes = form.as_bytes();
    let count = bytes
        .iter()
        .take_while(|byte| byte.is_ascii_lowercase() || **byte == b' ')
        .count();
    match bytes.get(count) {
        Some(_) => part_of(bytes, 0, count.saturating_sub(1)),
        None => bytes,
    }
}

/// So many of the first words of a line, with a blank between two.
fn first_words(alloc: Global, line: &[u8], count: usize) -> Result<Vec<u8>, AllocError> {
    let words = Words::of(alloc, line)?;
    let mut text = Vec::new(alloc);
    for i in 0..words.len() {
        if i >= count {
            break;
        }
        if i > 0 {
            text.push(b' ')?;
        }
        text.extend_from_slice(words.word(i))?;
    }
    Ok(text)
}

/// The form that is closest to a line by its leading words, if one is close.
fn close_form(alloc: Global, line: &[u8]) -> Result<Option<&'static str>, AllocError> {
    let mut best = None;
    let mut least = MOST_CHANGES.saturating_add(1);
    for form in COMMANDS {
        let lead = leading(form);
        let count = lead.split(|byte| *byte == b' ').count();
        let said = first_words(alloc, line, count)?;
        let far = distance(alloc, said.as_slice(), lead)?;
        if far < least && far <= said.len() / 2 {
            least = far;
            best = Some(form);
        }
    }
    Ok(best)
}

/// The first word of a form.
fn first_of(form: &'static str) -> &'static [u8] {
    let bytes = form.as_bytes();
    let count = bytes.iter().take_while(|byte| **byte != b' ').count();
    part_of(bytes, 0, count)
}

/// Says the forms that begin with a line's first word. Answers whether there are some.
fn say_forms_of(alloc: Global, line: &[u8], page: &mut Page) -> Result<bool, AllocError> {
    let words = Words::of(alloc, line)?;
    let mut is_told = false;
    for form in COMMANDS {
        if words.reads(0, first_of(form)) {
            if !is_told {
                page.note("The forms that begin with this word are:")?;
            }
            is_told = true;
            page.say("    ")?;
            page.say(form)?;
            page.end()?;
        }
    }
    Ok(is_told)
}

/// Says which form is close to a line.
fn say_close_form(alloc: Global, line: &[u8], page: &mut Page) -> Result<(), AllocError> {
    if let Some(form) = close_form(alloc, line)? {
        page.say("  The closest form is: ")?;
        page.say(form)?;
        return page.end();
    }
    if say_forms_of(alloc, line, page)? {
        return Ok(());
    }
    page.note("A line begins with 'set', 'remove', 'get', 'run', 'source' or 'quit'.")
}

/// What a line is read as, as far as it is: the form of a script's line, if it has one, and what may stand in place of what is at fault.
#[derive(Drop)]
struct Reading {
    form: Option<Form>,
    words: Vec<&'static str>,
}

impl Reading {
    /// What a line is read as, in which this is at fault.
    fn of(alloc: Global, line: &[u8], cause: LineCause) -> Result<Reading, AllocError> {
        let form = form_of(&Words::of(alloc, line)?);
        let words = match (cause, form) {
            (LineCause::Shape { at }, Some(form)) => {
                expected(alloc, Grammar::Line(form), line, at)?
            }
            _ => Vec::new(alloc),
        };
        Ok(Reading { form, words })
    }

    /// Whether a word of the line is a variable that stands where one may, and is bound wrongly.
    fn is_unbound(&self, line: &[u8], at: usize) -> bool {
        word_from(line, at).first() == Some(&b'?') && takes_variable(self.words.as_slice())
    }

    /// The sentence of a word that doesn't fit.
    fn say_misfit(&self, line: &[u8], at: usize, page: &mut Page) -> Result<(), AllocError> {
        if at >= line.len() {
            return page.say("the line ends here, where more has to come");
        }
        page.quote(word_from(line, at))?;
        if self.is_unbound(line, at) {
            return page.say(
                " is bound by no quantifier around it, or bound already, or one too many at once",
            );
        }
        page.say(" doesn't fit here")?;
        if self.words.is_empty() && self.form.is_some() {
            page.say(": the line has to end before it")?;
        }
        Ok(())
    }
}

/// The sentence of a cause.
fn say_cause(
    line: &[u8],
    cause: LineCause,
    reading: &Reading,
    page: &mut Page,
) -> Result<(), AllocError> {
    match cause {
        LineCause::Lex { at } | LineCause::Number { at } => {
            say_no_class(word_from(line, at), page)
        }
        LineCause::Command => page.say("this line begins no command"),
        LineCause::Shape { at } => reading.say_misfit(line, at, page),
        LineCause::Nest => {
            page.say(
                "this file stands in too many others: at most four levels of 'source' are read",
            )
        }
    }
}

/// The byte of a line at which a cause is shown.
fn place_of_cause(line: &[u8], cause: LineCause) -> usize {
    let blanks = line
        .iter()
        .take_while(|byte| byte.is_ascii_whitespace())
        .count();
    match cause {
        LineCause::Lex { at } | LineCause::Number { at } | LineCause::Shape { at } => at,
        LineCause::Command | LineCause::Nest => blanks,
    }
}

/// Says the form of a line that lacks its file, if it is such a line.
fn say_file_form(alloc: Global, line: &[u8], page: &mut Page) -> Result<(), AllocError> {
    let words = Words::of(alloc, line)?;
    if words.reads(0, b"source") {
        page.note("The form is: source FILE")
    } else if words.reads(0, b"run") && words.reads(1, b"plan") {
        page.note("The form is: run plan FILE")
    } else {
        Ok(())
    }
}

/// Says what to write in place of what is at fault.
fn say_remedy(
    alloc: Global,
    line: &[u8],
    cause: LineCause,
    reading: &Reading,
    page: &mut Page,
) -> Result<(), AllocError> {
    match cause {
        LineCause::Command => say_close_form(alloc, line, page),
        LineCause::Shape { at } if reading.is_unbound(line, at) => Ok(()),
        LineCause::Shape { at } if reading.words.is_empty() && at >= line.len() => {
            say_file_form(alloc, line, page)
        }
        LineCause::Shape { .. } if reading.form == Some(Form::Run) => {
            say_forms_of(alloc, line, page)?;
            Ok(())
        }
        LineCause::Shape { .. } => say_expected(reading.words.as_slice(), page),
        _ => Ok(()),
    }
}

/// Says why a line of a script is no command, where it stands, and what to write in its place.
pub fn say_bad_line(
    alloc: Global,
    source: &Source,
    origin: Origin,
    cause: LineCause,
    page: &mut Page,
) -> Result<(), AllocError> {
    let text = source.text.as_slice();
    let line = part_of(text, origin.from, origin.to);
    let reading = Reading::of(alloc, line, cause)?;
    let mut sentence = Page::new(alloc);
    say_cause(line, cause, &reading, &mut sentence)?;
    let at = origin.from.saturating_add(place_of_cause(line, cause));
    page.mark(source.file.as_str(), text, at, sentence.as_slice())?;
    say_remedy(alloc, line, cause, &reading, page)
}

/// Says which of some names is close to one, if one is. Answers whether one is.
pub fn say_close(
    alloc: Global,
    word: &[u8],
    others: &[&[u8]],
    page: &mut Page,
) -> Result<bool, AllocError> {
    match closest(alloc, word, others)? {
        Some(close) => {
            page.say("  Is ")?;
            page.quote(close)?;
            page.say(" meant?\n")?;
            Ok(true)
        }
        None => Ok(false),
    }
}
