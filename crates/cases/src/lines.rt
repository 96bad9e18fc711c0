//! The lines of a case.

/// What a case can have fail.
#[derive(Clone, Copy)]
pub enum Stream {
    Read,
    /// A read that runs out of memory.
    Memory,
    Out,
    Err,
}

/// Content with its escapes, how often it stands, and whether an LF ends it each time.
#[derive(Clone, Copy)]
pub struct Content<'a> {
    pub text: &'a str,
    pub times: u32,
    pub is_ended: bool,
}

/// A line of a case.
#[derive(Clone, Copy)]
pub enum Line<'a> {
    Nothing,
    /// The words, each after one space.
    Words(&'a str),
    File(&'a str),
    /// A call that fails, counted from 1.
    Fails(Stream, u64),
    /// How many bytes a sink takes by one write at most.
    Takes(usize),
    Status(u8),
    Out,
    Err,
    Content(Content<'a>),
    /// A line of no form.
    Unknown,
}

/// Reads a content line that stands so often.
fn read_content(line: &str, times: u32) -> Option<Line<'_>> {
    let is_ended = line.starts_with('|');
    let text = line.strip_prefix(if is_ended { '|' } else { '+' })?;
    Some(Line::Content(Content {
        text,
        times,
        is_ended,
    }))
}

/// Reads what comes after `repeat `.
fn read_repeat(text: &str) -> Option<Line<'_>> {
    let (times, line) = text.split_once(' ')?;
    read_content(line, times.parse().ok()?)
}

/// Reads what comes after `fails `.
fn read_fails<'a>(text: &str) -> Option<Line<'a>> {
    let (stream, call) = text.split_once(' ')?;
    let stream = match stream {
        "read" => Stream::Read,
        "memory" => Stream::Memory,
        "out" => Stream::Out,
        "err" => Stream::Err,
        _ => return None,
    };
    Some(Line::Fails(stream, call.parse().ok()?))
}

/// Reads a line that begins with a word.
fn read_headed(line: &str) -> Option<Line<'_>> {
    let (word, rest) = line.split_once(' ')?;
    match word {
        "file" => Some(Line::File(rest)),
        "fails" => read_fails(rest),
        "takes" => Some(Line::Takes(rest.parse().ok()?)),
        "status" => Some(Line::Status(rest.parse().ok()?)),
        "repeat" => read_repeat(rest),
        _ => None,
    }
}

/// Reads what comes after `words`.
fn read_words(words: &str) -> Line<'_> {
    if words.is_empty() || words.starts_with(' ') {
        Line::Words(words)
    } else {
        Line::Unknown
    }
}

/// Reads a line of a case after its first.
pub fn read_line(line: &str) -> Line<'_> {
    if line.is_empty() || line.starts_with('#') {
        return Line::Nothing;
    }
    if let Some(content) = read_content(line, 1) {
        return content;
    }
    if let Some(words) = line.strip_prefix("words") {
        return read_words(words);
    }
    match line {
        "out" => Line::Out,
        "err" => Line::Err,
        _ => read_headed(line).unwrap_or(Line::Unknown),
    }
}
