//! Tables: lines of a text, ` -> `, and what is told of it.
use ps_lists::{Lexeme, lexemes_of};
use ps_text::{LexRefusal, Names, tokens};
use ps_world::{Failure, Name};
use std::alloc::{AllocError, Global};
use std::process::Abort;
use std::str;
use std::test::Fail;

/// What is told of a text.
pub type Told = fn(Global, &str) -> Result<String, AllocError>;

/// Asserts that of each text of a table is told what stands after it.
pub fn assert_told(rt: &impl Abort, alloc: Global, table: &str, told: Told) -> Result<(), Fail>
    requires { IsAlwaysCallable told }
{
    for row in table.lines() {
        assert_row(rt, alloc, row, told)?;
    }
    Ok(())
}

fn assert_row(rt: &impl Abort, alloc: Global, row: &str, told: Told) -> Result<(), Fail>
    requires { IsAlwaysCallable told }
{
    let (text, wanted) = row.split_once(" -> ").ok_or("a row of no table")?;
    let found = told(alloc, text)?;
    assert_same(rt, text, found.as_str(), wanted);
    Ok(())
}

fn assert_same(rt: &impl Abort, text: &str, found: &str, wanted: &str) {
    assert_eq!(rt; found, wanted, "of {text}");
}

/// The bytes that a text of a table stands for: `|` is an LF, `^` a CR, and `~` a byte that no text in UTF-8 has.
pub fn bytes_of(alloc: Global, text: &str) -> Result<Vec<u8>, AllocError> {
    let mut bytes = Vec::new(alloc);
    for byte in text.as_bytes() {
        bytes.push(match byte {
            b'|' => b'\n',
            b'^' => b'\r',
            b'~' => 0xff,
            _ => *byte,
        })?;
    }
    Ok(bytes)
}

/// The words of a text of a table, with the numbers of a new table of names.
pub fn lexemes_in(alloc: Global, text: &str) -> Result<Vec<Lexeme>, Failure<LexRefusal>> {
    let bytes = bytes_of(alloc, text)?;
    numbered(alloc, &bytes)
}

fn numbered(alloc: Global, bytes: &[u8]) -> Result<Vec<Lexeme>, Failure<LexRefusal>> {
    let found = tokens(alloc, bytes)?;
    let mut names = Names::new(alloc)?;
    Ok(lexemes_of(alloc, &mut names, bytes, found)?)
}

/// Adds the names of a table, each after a space.
pub fn push_names(told: &mut String, names: &Names) -> Result<(), AllocError> {
    for i in 0..u32::try_from(names.len()).unwrap_or(0) {
        let text = names.text(Name(i));
        write!(told, " {}", str::from_utf8(text).unwrap_or("no text"))?;
    }
    Ok(())
}
