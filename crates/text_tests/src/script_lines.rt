//! Lines of scripts: what each is before it is read, what it is read as, and the names that the table has after it.
use super::tables::{assert_told, bytes_of, push_names};
use ps_machine::Line;
use ps_script::{Kind, Read, kind_of, read_line};
use ps_text::Names;
use std::alloc::{AllocError, Global};
use std::test::Fail;

const LINES: &str = "\
# x -> Nothing, nothing: object
 -> Nothing, nothing: object
 \t^ -> Nothing, nothing: object
  ;x -> Nothing, nothing: object
source  a b ;c  -> Source a b ;c, source a b ;c: object
 SOURCE(x)#\t^ -> Source (x)#, source (x)#: object
run plan f -> RunPlan f, run plan f: object run plan
RUN\tPlan  f;g  -> RunPlan f;g, run plan f;g: object run plan
source -> Command, bad Shape { at: 6 }: object
source ~ -> Command, bad Shape { at: 8 }: object
run plan  -> Command, bad Shape { at: 9 }: object
foo _a -> Command, bad Lex { at: 4 }: object
foo 9a -> Command, bad Number { at: 4 }: object
run -> Command, good: object run
Run Action (Move leia) -> Command, good: object run action move leia
get tree -> Command, good: object get tree
(set -> Command, bad Command: object
set instance leia -> Command, bad Shape { at: 17 }: object
 SET Predicate (at Leia hall) ;x -> Command, good: object set predicate at leia hall
set function(=(load c1)-1.5) -> Command, good: object set function load c1
set goal (and (not (at leia)) (= 1 (load c1))) -> Command, good: object set goal and not at leia load c1
quit -> Command, good: object quit";

fn push_kind(told: &mut String, kind: &Kind) -> Result<(), AllocError> {
    match kind {
        Kind::Nothing => told.push_str("Nothing, "),
        Kind::Source(file) => write!(told, "Source {}, ", file.as_str()),
        Kind::RunPlan(file) => write!(told, "RunPlan {}, ", file.as_str()),
        Kind::Command => told.push_str("Command, "),
    }
}

fn push_read(told: &mut String, read: &Read) -> Result<(), AllocError> {
    match read {
        Read::Nothing => told.push_str("nothing:"),
        Read::Source(file) => write!(told, "source {}:", file.as_str()),
        Read::RunPlan(file) => write!(told, "run plan {}:", file.as_str()),
        Read::Line(Line::Bad(cause)) => write!(told, "bad {cause:?}:"),
        Read::Line(Line::Good(_)) => told.push_str("good:"),
    }
}

fn push_kind_of(told: &mut String, alloc: Global, bytes: &[u8]) -> Result<(), AllocError> {
    push_kind(told, &kind_of(alloc, bytes)?)
}

fn push_line(
    told: &mut String,
    alloc: Global,
    names: &mut Names,
    bytes: &[u8],
) -> Result<(), AllocError> {
    push_read(told, &read_line(alloc, names, bytes)?)
}

fn told_with(alloc: Global, names: &mut Names, bytes: &[u8]) -> Result<String, AllocError> {
    let mut told = String::new(alloc);
    push_kind_of(&mut told, alloc, bytes)?;
    push_line(&mut told, alloc, names, bytes)?;
    push_names(&mut told, names)?;
    Ok(told)
}

fn told_of_bytes(alloc: Global, bytes: &[u8]) -> Result<String, AllocError> {
    let mut names = Names::new(alloc)?;
    told_with(alloc, &mut names, bytes)
}

fn told(alloc: Global, text: &str) -> Result<String, AllocError> {
    let bytes = bytes_of(alloc, text)?;
    told_of_bytes(alloc, &bytes)
}

#[test]
fn lines_are_read(rt: HostRuntime) -> Result<(), Fail> {
    assert_told(&rt, rt.alloc(), LINES, told)
}
