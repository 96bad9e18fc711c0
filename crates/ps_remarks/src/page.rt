//! Texts for people, written piece by piece.
ghost use Rattle.std.specs.Prelude.{◌≡◌, ◌++◌, codes, decimal, OnOk};
ghost use Rattle.ps_remarks.specs.Pages.{Marks, place_text};

use ps_journal::{name_text, push_number};
use ps_places::{Place, line_of, place_of};
use ps_text::{NUMBER_BYTES, Names, print_number};
use ps_world::{Name, Num};
use std::alloc::{AllocError, Global};
use std::marker::Model;

/// The most bytes of a line that are shown.
const WIDEST: usize = 160;

/// A text for people, which contracts see as its bytes.
#[derive(Drop)]
pub struct Page {
    text: Vec<u8>,
}

impl Model for Page {
    ghost use Rattle.std.specs.Prelude.{ℕ, List};

    ghost Value = { List ℕ };

    ghost view = { λ page. page.text.items };
}

/// Whether a byte goes on with a letter of more than one byte, so that it takes no column of its own.
fn goes_on(byte: u8) -> bool {
    byte & 0xc0 == 0x80
}

/// A byte as it is shown: a control byte as `?`, but a tab.
fn shown(byte: u8) -> u8 {
    if byte == b'\t' || (byte >= b' ' && byte != 0x7f) {
        byte
    } else {
        b'?'
    }
}

/// A line without the CR that may end it.
fn without_return(line: &[u8]) -> &[u8] {
    match line {
        [rest @ .., b'\r'] => rest,
        _ => line,
    }
}

/// The number of the first byte of a line that is shown, where the byte at a column has to be.
fn first_shown(line: &[u8], column: usize) -> usize {
    if line.len() <= WIDEST {
        return 0;
    }
    column.saturating_sub(WIDEST / 2)
}

impl Page {
    /// A text of nothing.
    pub fn new(alloc: Global) -> Page {
        Page {
            text: Vec::new(alloc),
        }
    }

    /// The text.
    pub fn as_slice(&self) -> &[u8]
        ensures { result.now ≡ self.now }
    {
        self.text.as_slice()
    }

    /// Whether nothing is written.
    pub fn is_empty(&self) -> bool {
        self.text.is_empty()
    }

    /// What else is to be written.
    pub fn bytes(&mut self) -> &mut Vec<u8> {
        &mut self.text
    }

    /// Adds bytes as they are.
    fn put(&mut self, bytes: &[u8]) -> Result<(), AllocError>
        ensures { OnOk result (self.new ≡ self.old ++ bytes.now) }
    {
        self.text.extend_from_slice(bytes)
    }

    /// Adds words.
    pub fn say(&mut self, words: &str) -> Result<(), AllocError>
        ensures { OnOk result (self.new ≡ self.old ++ words.now) }
    {
        self.put(words.as_bytes())
    }

    /// Adds bytes, as they are shown.
    pub fn show(&mut self, bytes: &[u8]) -> Result<(), AllocError> {
        for byte in bytes {
            self.text.push(shown(*byte))?;
        }
        Ok(())
    }

    /// Adds a word in quotes.
    pub fn quote(&mut self, word: &[u8]) -> Result<(), AllocError> {
        self.say("'")?;
        self.show(word)?;
        self.say("'")
    }

    /// Adds a name in quotes.
    pub fn name(&mut self, names: &Names, name: Name) -> Result<(), AllocError> {
        self.quote(name_text(names, name))
    }

    /// Adds a number.
    pub fn number(&mut self, number: u64) -> Result<(), AllocError>
        ensures { OnOk result (self.new ≡ self.old ++ decimal number) }
    {
        push_number(number, &mut self.text)
    }

    /// Adds a number of thousandths, with three decimals.
    pub fn decimal(&mut self, number: Num) -> Result<(), AllocError> {
        let mut bytes = [0; NUMBER_BYTES];
        let count = print_number(number, &mut bytes);
        for byte in bytes.iter().take(count) {
            self.text.push(*byte)?;
        }
        Ok(())
    }

    /// Ends the line.
    pub fn end(&mut self) -> Result<(), AllocError>
        ensures { OnOk result (self.new ≡ self.old ++ codes "\n") }
    {
        self.say("\n")
    }

    /// Adds a line that says more about what was said before.
    pub fn note(&mut self, words: &str) -> Result<(), AllocError> {
        self.say("  ")?;
        self.say(words)?;
        self.end()
    }

    /// Adds as many blanks as bring a caret under the byte after these.
    fn indent(&mut self, before: &[u8]) -> Result<(), AllocError> {
        for byte in before {
            if *byte == b'\t' {
                self.text.push(b'\t')?;
            } else if !goes_on(*byte) {
                self.text.push(b' ')?;
            }
        }
        Ok(())
    }

    /// Adds a line with a caret under one of its bytes, counted from 0. Of a long line the part round the byte is shown.
    fn show_line(&mut self, line: &[u8], at: usize) -> Result<(), AllocError> {
        let line = without_return(line);
        let from = first_shown(line, at);
        let (_, rest) = line.split_at(from.min(line.len()));
        let (part, _) = rest.split_at(WIDEST.min(rest.len()));
        self.say("    ")?;
        self.show(part)?;
        self.end()?;
        self.say("    ")?;
        let (before, _) = part.split_at(at.saturating_sub(from).min(part.len()));
        self.indent(before)?;
        self.say("^\n")
    }

    /// Adds FILE:LINE:COLUMN of a place.
    fn place(&mut self, file: &str, place: Place) -> Result<(), AllocError>
        ensures { OnOk result (self.new ≡ self.old ++ place_text file.now place) }
    {
        self.say(file)?;
        self.say(":")?;
        self.number(place.line as u64)?;
        self.say(":")?;
        self.number(place.column as u64)
    }

    /// Adds where a byte of a file's text stands, one sentence, the line, and a caret under the byte.
    pub fn mark(
        &mut self,
        file: &str,
        text: &[u8],
        at: usize,
        sentence: &[u8],
    ) -> Result<(), AllocError>
        ensures { OnOk result (Marks file.now text.now at sentence.now self.old self.new) }
    {
        let place = place_of(text, at);
        let mut shown = Page::new(*self.text.allocator());
        shown.show_line(line_of(text, at), place.column.saturating_sub(1))?;
        self.place(file, place)?;
        self.say(": ")?;
        self.put(sentence)?;
        self.end()?;
        self.put(shown.as_slice())
    }
}
