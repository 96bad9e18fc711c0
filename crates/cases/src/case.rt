//! A case: a call of the program, and what is expected of it.

use super::escapes::push_bytes;
use super::lines::{Content, Line, Stream, read_line};
use std::alloc::{AllocError, AllocFailed, Global};
use std::fmt;

/// Why a case isn't tried.
#[derive(Drop)]
pub enum Bad {
    /// A line of its text has no form that fits there. Lines are counted from 1, the case's name.
    Line(usize),
    /// The text ends before it has told all that a case tells.
    Unfinished,
    OutOfMemory,
}

impl From<AllocError> for Bad {
    fn from(_: AllocError) -> Self {
        Bad::OutOfMemory
    }
}

impl fmt::Display for Bad {
    fn fmt<W: fmt::Write>(&self, f: &mut fmt::Formatter<W>) -> fmt::Result {
        match self {
            Bad::Line(number) => write!(f, "line {number} of the case has no form that fits there"),
            Bad::Unfinished => write!(
                f,
                "the case doesn't end with its words, status, out and err"
            ),
            Bad::OutOfMemory => write!(f, "out of memory"),
        }
    }
}

/// Why a line isn't taken into a case.
#[derive(Drop)]
pub enum BadLine {
    Form,
    OutOfMemory,
}

impl BadLine {
    /// The same of a case of which this is the line with this number.
    fn at(self, number: usize) -> Bad {
        match self {
            BadLine::Form => Bad::Line(number),
            BadLine::OutOfMemory => Bad::OutOfMemory,
        }
    }
}

impl From<AllocError> for BadLine {
    fn from(_: AllocError) -> Self {
        BadLine::OutOfMemory
    }
}

impl<T: Drop> From<AllocFailed<T>> for BadLine {
    fn from(_: AllocFailed<T>) -> Self {
        BadLine::OutOfMemory
    }
}

/// A file by its name.
#[derive(Drop)]
pub struct Text {
    pub name: String,
    pub bytes: Vec<u8>,
}

/// A call that fails, counted from 0.
#[derive(Drop)]
pub struct Failing {
    pub stream: Stream,
    pub call: u64,
}

/// How far the text of a case is read: its parts stand in this order.
#[derive(Clone, Copy, PartialEq, Eq)]
enum Part {
    Name,
    Words,
    File,
    Status,
    Out,
    Err,
}

/// A call and what is expected of it.
#[derive(Drop)]
pub struct Case {
    pub words: Vec<String>,
    pub files: Vec<Text>,
    pub fails: Vec<Failing>,
    /// How many bytes a sink takes by one write at most; all of them where this is 0.
    pub takes: usize,
    pub status: u8,
    pub out: Vec<u8>,
    pub err: Vec<u8>,
    part: Part,
}

/// Adds the bytes of a content line, as often as it says.
fn push_content(bytes: &mut Vec<u8>, content: Content<'_>) -> Result<(), BadLine> {
    for _ in 0..content.times {
        push_bytes(bytes, content.text)?;
        if content.is_ended {
            bytes.push(b'\n')?;
        }
    }
    Ok(())
}

impl Case {
    fn new(alloc: Global) -> Case {
        Case {
            words: Vec::new(alloc),
            files: Vec::new(alloc),
            fails: Vec::new(alloc),
            takes: 0,
            status: 0,
            out: Vec::new(alloc),
            err: Vec::new(alloc),
            part: Part::Name,
        }
    }

    /// Goes on to a part that stands after another.
    fn go_on(&mut self, from: Part, to: Part) -> Result<(), BadLine> {
        if self.part != from {
            return Err(BadLine::Form);
        }
        self.part = to;
        Ok(())
    }

    /// Whether the words are told and the status isn't.
    fn is_before_status(&self) -> bool {
        matches!(self.part, Part::Words | Part::File)
    }

    fn add_words(&mut self, alloc: Global, words: &str) -> Result<(), BadLine> {
        self.go_on(Part::Name, Part::Words)?;
        for word in words.split(' ').skip(1) {
            self.words.push(word.to_string(alloc)?)?;
        }
        Ok(())
    }

    fn add_file(&mut self, alloc: Global, name: &str) -> Result<(), BadLine> {
        if !self.is_before_status() {
            return Err(BadLine::Form);
        }
        let name = name.to_string(alloc)?;
        let bytes = Vec::new(alloc);
        self.files.push(Text { name, bytes })?;
        self.part = Part::File;
        Ok(())
    }

    fn add_failing(&mut self, stream: Stream, number: u64) -> Result<(), BadLine> {
        let call = number.checked_sub(1).ok_or(BadLine::Form)?;
        if !self.is_before_status() {
            return Err(BadLine::Form);
        }
        self.fails.push(Failing { stream, call })?;
        Ok(())
    }

    fn set_takes(&mut self, takes: usize) -> Result<(), BadLine> {
        if !self.is_before_status() {
            return Err(BadLine::Form);
        }
        self.takes = takes;
        Ok(())
    }

    fn set_status(&mut self, status: u8) -> Result<(), BadLine> {
        if !self.is_before_status() {
            return Err(BadLine::Form);
        }
        self.status = status;
        self.part = Part::Status;
        Ok(())
    }

    /// Adds content to the part that is read now.
    fn add_content(&mut self, content: Content<'_>) -> Result<(), BadLine> {
        match self.part {
            Part::File => match self.files.last_mut() {
                Some(file) => push_content(&mut file.bytes, content),
                None => Err(BadLine::Form),
            },
            Part::Out => push_content(&mut self.out, content),
            Part::Err => push_content(&mut self.err, content),
            Part::Name | Part::Words | Part::Status => Err(BadLine::Form),
        }
    }

    fn take(&mut self, alloc: Global, line: Line<'_>) -> Result<(), BadLine> {
        match line {
            Line::Nothing => Ok(()),
            Line::Words(words) => self.add_words(alloc, words),
            Line::File(name) => self.add_file(alloc, name),
            Line::Fails(stream, number) => self.add_failing(stream, number),
            Line::Takes(takes) => self.set_takes(takes),
            Line::Status(status) => self.set_status(status),
            Line::Out => self.go_on(Part::Status, Part::Out),
            Line::Err => self.go_on(Part::Out, Part::Err),
            Line::Content(content) => self.add_content(content),
            Line::Unknown => Err(BadLine::Form),
        }
    }
}

/// Reads the block of a case, of which the first line is its name.
pub fn read_case(alloc: Global, block: &str) -> Result<Case, Bad> {
    let mut case = Case::new(alloc);
    let mut number = 1usize;
    for line in block.split('\n').skip(1) {
        number = number.saturating_add(1);
        if let Err(bad) = case.take(alloc, read_line(line)) {
            return Err(bad.at(number));
        }
    }
    match case.part {
        Part::Err => Ok(case),
        _ => Err(Bad::Unfinished),
    }
}

/// Whether a text holds no line but blank ones and comments.
pub fn says_nothing(text: &str) -> bool {
    text.split('\n')
        .all(|line| matches!(read_line(line), Line::Nothing))
}
