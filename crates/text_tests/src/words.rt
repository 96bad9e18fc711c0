//! The words of texts: their places and classes; what they are to the grammar; and the places of lines.
use super::tables::{assert_told, bytes_of, lexemes_in};
use ps_lists::Lexeme;
use ps_text::{Token, Words, lines, tokens};
use ps_world::Failure;
use std::alloc::{AllocError, Global};
use std::str;
use std::test::Fail;

/// Texts, and how many words they have, each with its class and its place, or why they have none.
const TOKENS: &str = "\
(a;b|-5 <= ?x :key #t N_-9)- ; -> 10 LeftParen:0-1 Name:1-2 Number:5-7 Sign:8-10 Variable:11-13 Keyword:14-18 Continuous:19-21 Name:22-26 RightParen:26-27 Sign:27-28
+ * / = < > <= >= - -> 9 Sign:0-1 Sign:2-3 Sign:4-5 Sign:6-7 Sign:8-9 Sign:10-11 Sign:12-14 Sign:15-17 Sign:18-19
;a -> 0
a ;_| _b 9x -> Bad { at: 6 }
(:3) -> Bad { at: 1 }
?9 -> Bad { at: 0 }
#T -> Bad { at: 0 }
< <== -> Bad { at: 2 }
--1 -> Bad { at: 0 }
a ~ -> Bad { at: 2 }
9a _a -> Number { at: 0 }
1 -1.2345 -> Number { at: 2 }";

/// Texts, and how many words they have, and each.
const WORDS: &str = "\
(a ?B-c; x (| d)\t; -> 5 ( a ?B-c d )
a^b\tc#t -> 3 a b c#t
 ;a -> 0";

/// Texts, and how many lines they have, and the place of each.
const LINES: &str = "\
a^||b -> 3 0-2 3-3 4-5
a| -> 1 0-1
| -> 1 0-0
 -> 0";

/// A text, and its words: what each is to the grammar, its name, its number in thousandths, and its place.
const LEXEMES: &str = "\
(DEFINE ;_|-5.25 ?Duration ?duration- :Types :types-2 -> 7 Open/0/0/0 Define/1/0/1 Number/0/-5250/11 Duration/2/0/17 Variable/3/0/27 Types/0/0/38 Keyword/0/0/45
#t <= - Leia leia ?LEIA Scale-Up number object) -> 10 Continuous/0/0/0 LessEqual/0/0/3 Minus/0/0/6 Name/1/0/8 Name/1/0/13 Variable/1/0/18 ScaleUp/2/0/24 NumberWord/3/0/33 Name/0/0/40 Close/0/0/46";

fn told_of_found(alloc: Global, found: &[Token]) -> Result<String, AllocError> {
    let mut told = format!(in alloc; "{}", found.len())?;
    for token in found {
        write!(told, " {:?}:{}-{}", token.class, token.from, token.to)?;
    }
    Ok(told)
}

fn told_of_tokens(alloc: Global, text: &str) -> Result<String, AllocError> {
    let bytes = bytes_of(alloc, text)?;
    match tokens(alloc, &bytes) {
        Ok(found) => told_of_found(alloc, &found),
        Err(Failure::Refused(refusal)) => format!(in alloc; "{refusal:?}"),
        Err(Failure::OutOfMemory) => Err(AllocError),
    }
}

fn told_of_parts(alloc: Global, bytes: &[u8]) -> Result<String, AllocError> {
    let words = Words::of(alloc, bytes)?;
    let mut told = format!(in alloc; "{}", words.len())?;
    for i in 0..words.len() {
        let word = str::from_utf8(words.word(i)).unwrap_or("no text");
        write!(told, " {word}")?;
    }
    Ok(told)
}

fn told_of_words(alloc: Global, text: &str) -> Result<String, AllocError> {
    let bytes = bytes_of(alloc, text)?;
    told_of_parts(alloc, &bytes)
}

fn told_of_lines(alloc: Global, text: &str) -> Result<String, AllocError> {
    let bytes = bytes_of(alloc, text)?;
    let spans = lines(alloc, &bytes)?;
    let mut told = format!(in alloc; "{}", spans.len())?;
    for span in &spans {
        write!(told, " {}-{}", span.from, span.to)?;
    }
    Ok(told)
}

fn told_of_lexemes(alloc: Global, found: &[Lexeme]) -> Result<String, AllocError> {
    let mut told = format!(in alloc; "{}", found.len())?;
    for word in found {
        let Lexeme {
            mark,
            name,
            number,
            at,
        } = word;
        write!(told, " {mark:?}/{}/{}/{at}", name.0, number.milli())?;
    }
    Ok(told)
}

fn told_of_marks(alloc: Global, text: &str) -> Result<String, AllocError> {
    match lexemes_in(alloc, text) {
        Ok(found) => told_of_lexemes(alloc, &found),
        Err(_) => String::from_str(alloc, "no words"),
    }
}

#[test]
fn texts_have_words_and_lines(rt: HostRuntime) -> Result<(), Fail> {
    assert_told(&rt, rt.alloc(), TOKENS, told_of_tokens)?;
    assert_told(&rt, rt.alloc(), WORDS, told_of_words)?;
    assert_told(&rt, rt.alloc(), LINES, told_of_lines)?;
    assert_told(&rt, rt.alloc(), LEXEMES, told_of_marks)
}
