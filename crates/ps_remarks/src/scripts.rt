//! Where the command lines of a script stand, also through the files that it names.
use ps_script::{Kind, kind_of};
use ps_text::{FileRefusal, Files, Words, script_lines};
use std::alloc::{AllocError, Global};

/// How many levels of files may be opened: the script's own, and four from there.
const LEVELS: u8 = 5;

/// The text of a file.
#[derive(Drop)]
pub struct Source {
    pub file: String,
    pub text: Vec<u8>,
}

/// A command line: the number of its file, and its bytes there.
#[derive(Clone, Copy)]
pub struct Origin {
    pub source: usize,
    pub from: usize,
    pub to: usize,
}

/// The files of a script, and its command lines in their order.
#[derive(Drop)]
pub struct Sources {
    pub texts: Vec<Source>,
    pub lines: Vec<Origin>,
}

/// The bytes of a text from one place up to another.
pub fn part_of(text: &[u8], from: usize, to: usize) -> &[u8] {
    let (_, rest) = text.split_at(from.min(text.len()));
    let (part, _) = rest.split_at(to.saturating_sub(from).min(rest.len()));
    part
}

impl Sources {
    /// The file of a line.
    pub fn source(&self, origin: Origin) -> Option<&Source> {
        self.texts.as_slice().get(origin.source)
    }

    /// The command line with this number, counted from 1.
    pub fn line(&self, number: u32) -> Option<Origin> {
        let place = usize::try_from(number).ok()?.checked_sub(1)?;
        self.lines.as_slice().get(place).copied()
    }
}

/// The text of a file, or none, where it can't be read.
pub fn text_in<F: Files>(
    alloc: Global,
    file: &str,
    files: &mut F,
) -> Result<Option<Vec<u8>>, AllocError> {
    match files.read(alloc, file) {
        Ok(text) => Ok(Some(text)),
        Err(FileRefusal::Failed) => Ok(None),
        Err(FileRefusal::OutOfMemory) => Err(AllocError),
    }
}

/// The number of a file among those that were opened, which is put there where it isn't yet.
fn number_of(
    alloc: Global,
    file: &str,
    text: &[u8],
    sources: &mut Sources,
) -> Result<usize, AllocError> {
    let known = sources
        .texts
        .iter()
        .position(|source| source.file.as_str() == file);
    if let Some(number) = known {
        return Ok(number);
    }
    sources.texts.push(Source {
        file: file.to_string(alloc)?,
        text: Vec::from_slice(alloc, text)?,
    })?;
    Ok(sources.texts.len().saturating_sub(1))
}

/// Whether a line is the word `quit` alone.
fn is_quit(alloc: Global, line: &[u8]) -> Result<bool, AllocError> {
    let words = Words::of(alloc, line)?;
    Ok(words.len() == 1 && words.reads(0, b"quit"))
}

/// Lists the lines of a file, where as many levels of files may be opened. Answers whether the script ends with it.
#[cycle(sources)]
fn open<F: Files>(
    alloc: Global,
    files: &mut F,
    levels: u8,
    file: &str,
    sources: &mut Sources,
) -> Result<bool, AllocError> {
    let Some(text) = text_in(alloc, file, files)? else {
        return Ok(true);
    };
    let number = number_of(alloc, file, text.as_slice(), sources)?;
    let spans = script_lines(alloc, text.as_slice())?;
    for span in &spans {
        let origin = Origin {
            source: number,
            from: span.from,
            to: span.to,
        };
        let line = part_of(text.as_slice(), span.from, span.to);
        if take(alloc, files, levels, line, origin, sources)? {
            return Ok(true);
        }
    }
    Ok(false)
}

/// Lists a line, or those of the file that it names. Answers whether the script ends with it.
#[cycle(sources)]
fn take<F: Files>(
    alloc: Global,
    files: &mut F,
    levels: u8,
    line: &[u8],
    origin: Origin,
    sources: &mut Sources,
) -> Result<bool, AllocError> {
    match kind_of(alloc, line)? {
        Kind::Nothing => Ok(false),
        Kind::Source(file) if levels > 1 => {
            open(alloc, files, levels - 1, file.as_str(), sources)
        }
        Kind::Source(_) | Kind::RunPlan(_) => {
            sources.lines.push(origin)?;
            Ok(false)
        }
        Kind::Command => {
            sources.lines.push(origin)?;
            is_quit(alloc, line)
        }
    }
}

/// The files of a script, with its command lines in their order, up to a line that ends it.
pub fn sources_of<F: Files>(
    alloc: Global,
    file: &str,
    files: &mut F,
) -> Result<Sources, AllocError> {
    let mut sources = Sources {
        texts: Vec::new(alloc),
        lines: Vec::new(alloc),
    };
    open(alloc, files, LEVELS, file, &mut sources)?;
    Ok(sources)
}
