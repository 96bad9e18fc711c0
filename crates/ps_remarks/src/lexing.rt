//! Words without a class: what they may have been meant for.
use super::page::Page;
use ps_text::{NumRefusal, is_blank, read_number};
use std::alloc::AllocError;

/// Whether a byte ends a word.
fn ends_word(byte: u8) -> bool {
    is_blank(byte) || byte == b'(' || byte == b')' || byte == b';'
}

/// The word that begins at a place.
pub fn word_from(text: &[u8], at: usize) -> &[u8] {
    let (_, rest) = text.split_at(at.min(text.len()));
    match rest {
        [] => rest,
        [first, ..] if *first == b'(' || *first == b')' => {
            let (word, _) = rest.split_at(1.min(rest.len()));
            word
        }
        _ => {
            let long = rest.iter().take_while(|byte| !ends_word(**byte)).count();
            let (word, _) = rest.split_at(long.min(rest.len()));
            word
        }
    }
}

/// Whether a word begins as a number.
fn begins_number(word: &[u8]) -> bool {
    match word {
        [b'-', first, ..] => first.is_ascii_digit(),
        [first, ..] => first.is_ascii_digit(),
        [] => false,
    }
}

/// Says why a word is no number.
fn say_no_number(word: &[u8], page: &mut Page) -> Result<(), AllocError> {
    page.quote(word)?;
    match read_number(word) {
        Err(NumRefusal::TooFine) => {
            page.say(" has more than three decimals: thousandths are the finest")
        }
        Err(NumRefusal::TooLarge) => page.say(" is too large: numbers go up to 1000000000000"),
        _ => page.say(" begins as a number and is none: a number is as 12, 0.5 or -3.125"),
    }
}

/// Says why a word has no class.
pub fn say_no_class(word: &[u8], page: &mut Page) -> Result<(), AllocError> {
    if begins_number(word) {
        return say_no_number(word, page);
    }
    match word {
        [0xef, 0xbb, 0xbf, ..] => {
            page.say("a byte order mark stands here: save the file as UTF-8 without one")
        }
        [b'#', ..] => page.say("a comment begins with ';' here, and not with '#'"),
        [b'"' | b'\'', ..] => page.say("names stand without quotes"),
        [b'?'] | [b':'] => {
            page.quote(word)?;
            page.say(" wants a name right after it")
        }
        [first, ..] if *first >= 0x80 => {
            page.say("this isn't an ASCII letter: names have letters, digits, '-' and '_'")
        }
        _ if word.len() > 64 => page.say("this word is longer than the 64 bytes of a name"),
        _ => {
            page.quote(word)?;
            page.say(" is no word: names begin with a letter and have letters, digits, '-' and '_'")
        }
    }
}
