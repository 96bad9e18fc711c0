//! Numbers at the edges of their form and range: what they are printed as, or why they are none.
use super::tables::assert_told;
use ps_text::{NUMBER_BYTES, print_number, read_number};
use ps_world::Num;
use std::alloc::{AllocError, Global};
use std::str;
use std::test::Fail;

const NUMBERS: &str = "\
1.5000 -> 1.500
0 -> 0.000
-0 -> 0.000
-0.001 -> -0.001
0.00000 -> 0.000
10.02 -> 10.020
-12.345 -> -12.345
000000000000000000000000000001 -> 1.000
1000000000000 -> 1000000000000.000
-1000000000000 -> -1000000000000.000
-999999999999.999 -> -999999999999.999
0.0001 -> TooFine
9999999999999.0001 -> TooFine
1000000000000.001 -> TooLarge
12345678901234567890123 -> TooLarge
 -> NotNumber
. -> NotNumber
1. -> NotNumber
.5 -> NotNumber
- -> NotNumber
--1 -> NotNumber
+1 -> NotNumber
1e5 -> NotNumber
1.2.3 -> NotNumber";

/// The text that a number is printed as.
fn printed(alloc: Global, number: Num) -> Result<String, AllocError> {
    let mut text = [0; NUMBER_BYTES];
    let count = print_number(number, &mut text);
    String::from_str(alloc, str::from_utf8(&text[..count]).unwrap_or("no text"))
}

fn told(alloc: Global, text: &str) -> Result<String, AllocError> {
    match read_number(text.as_bytes()) {
        Ok(number) => printed(alloc, number),
        Err(refusal) => format!(in alloc; "{refusal:?}"),
    }
}

#[test]
fn numbers_are_read_and_printed(rt: HostRuntime) -> Result<(), Fail> {
    assert_told(&rt, rt.alloc(), NUMBERS, told)
}
