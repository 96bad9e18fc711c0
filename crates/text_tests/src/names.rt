//! Names: the number and the text of each of a row that is put into a new table, or why it is no name.
use super::tables::assert_told;
use ps_text::Names;
use ps_world::Failure;
use std::alloc::{AllocError, Global};
use std::str;
use std::test::Fail;

/// The names of a row stand between commas. There are some of 64 letters, and of 65.
const NAMES: &str = "\
Leia,leia,OBJECT,a-1_,lEIA -> 1 leia, 1 leia, 0 object, 2 a-1_, 1 leia, of 3
aaaaaaaaaaaaaaaaaaaaaaaaaaaaaaaaaaaaaaaaaaaaaaaaaaaaaaaaaaaaaaaa -> 1 aaaaaaaaaaaaaaaaaaaaaaaaaaaaaaaaaaaaaaaaaaaaaaaaaaaaaaaaaaaaaaaa, of 2
aaaaaaaaaaaaaaaaaaaaaaaaaaaaaaaaaaaaaaaaaaaaaaaaaaaaaaaaaaaaaaaaa -> Long, of 1
aaaaaaaaaaaaaaaaaaaaaaaaaaaaaaaaaaaaaaaaaaaaaaaaaaaaaaaaaaaaaaaa? -> BadByte { at: 64 }, of 1
b,,b -> 1 b, Empty, 1 b, of 2
9a,-a,_a,a b,a -> BadByte { at: 0 }, BadByte { at: 0 }, BadByte { at: 0 }, BadByte { at: 1 }, 1 a, of 2";

/// Adds what is told of a name.
fn push_name(told: &mut String, names: &mut Names, text: &str) -> Result<(), AllocError> {
    match names.intern(text.as_bytes()) {
        Ok(name) => {
            let text = str::from_utf8(names.text(name)).unwrap_or("no text");
            write!(told, "{} {text}, ", name.0)
        }
        Err(Failure::Refused(refusal)) => write!(told, "{refusal:?}, "),
        Err(Failure::OutOfMemory) => Err(AllocError),
    }
}

fn told_with(alloc: Global, names: &mut Names, row: &str) -> Result<String, AllocError> {
    let mut told = String::new(alloc);
    for text in row.split(',') {
        push_name(&mut told, names, text)?;
    }
    write!(told, "of {}", names.len())?;
    Ok(told)
}

fn told(alloc: Global, row: &str) -> Result<String, AllocError> {
    let mut names = Names::new(alloc)?;
    told_with(alloc, &mut names, row)
}

#[test]
fn names_have_numbers_or_are_refused(rt: HostRuntime) -> Result<(), Fail> {
    assert_told(&rt, rt.alloc(), NAMES, told)
}
