//! Texts of plans.
use super::worlds::names_of;
use ps_plan::{print_plan, read_plan};
use ps_text::Names;
use std::alloc::Global;
use std::process::Abort;
use std::test::Fail;

/// Texts of plans, and what is printed of them.
const TEXTS: [(&str, &str); 5] = [
    (
        "0.000: (move leia hall) [5.000]\n",
        "0.000: (move leia hall) [5.000]\n",
    ),
    ("", ""),
    (";\n\n \t\r\n; 1: (a) [1]", ""),
    (
        "2: (c) [1]\n1.5: (B x) [0]\n2: (a) [1]\n-0: (d) [-0.000]",
        "0.000: (d) [0.000]\n1.500: (b x) [0.000]\n2.000: (c) [1.000]\n2.000: (a) [1.000]\n",
    ),
    (
        "\t1 :(\ta  b\tA )\t[ 2 ] \r\n; x\n2:(a b c d e f g)[3]",
        "1.000: (a b a) [2.000]\n2.000: (a b c d e f g) [3.000]\n",
    ),
];

fn printed(alloc: Global, names: &mut Names, text: &str) -> Result<Vec<u8>, Fail> {
    let steps = read_plan(alloc, names, text.as_bytes())?;
    Ok(print_plan(alloc, names, &steps)?)
}

/// That this is printed of a text.
fn prints_this(
    rt: &impl Abort,
    alloc: Global,
    names: &mut Names,
    text: &str,
    want: &str,
) -> Result<(), Fail> {
    let print = printed(alloc, names, text)?;
    assert_eq!(rt; print.as_slice(), want.as_bytes());
    Ok(())
}

fn prints_so(rt: &impl Abort, alloc: Global, names: &mut Names) -> Result<(), Fail> {
    for (text, want) in &TEXTS {
        prints_this(rt, alloc, names, text, want)?;
    }
    Ok(())
}

#[test]
fn prints_what_it_reads(rt: HostRuntime) -> Result<(), Fail> {
    let mut names = names_of(rt.alloc())?;
    prints_so(&rt, rt.alloc(), &mut names)
}
