//! The words of a domain's text, each by what the grammar and the meaning need of it.
ghost use Rattle.std.specs.Prelude.{◌≡◌, pos, Some, slice_get, IfOk, OnErr, OnOk};
ghost use Rattle.ps_world.specs.Names.{object};
ghost use Rattle.ps_text.specs.Names.{folded};
ghost use Rattle.ps_text.specs.Tokens.{AreTokens, class_of};
ghost use Rattle.ps_text.specs.Words.{reads_as};
ghost use Rattle.ps_text.specs.declared.lexing.Class.TheVariants as class;
ghost use Rattle.ps_grammar.specs.declared.marks.Mark.TheVariants as mark;
ghost use Rattle.ps_lists.specs.Lexemes.{IsTokenOf, fixed_names, keywords, lexeme_of, lexemes_of, mark_in, mark_of, name_within, named, number_or_zero, numbered, signs, table_after};
ghost use Rattle.ps_text.specs.Names.{Keeps};

use super::blocks::give_back_room;
use ps_grammar::Mark;
use ps_text::{Class, Names, Token, read_number};
use ps_world::{Name, Num};
use std::alloc::{AllocError, Global};

/// A word of a domain's text.
#[derive(Clone, Copy)]
pub struct Lexeme {
    /// What it is to the grammar.
    pub mark: Mark,
    /// The name that it is, or the variable's without its `?`. It is `object` for any other word.
    pub name: Name,
    /// The number that it is. It is zero for any other word.
    pub number: Num,
    /// The place of its first byte.
    pub at: usize,
}

/// Whether a word is this fixed text, in any case of its letters.
fn reads_as(word: &[u8], fixed: &[u8]) -> bool
    ensures { result ≡ reads_as word.now fixed.now }
{
    if word.len() != fixed.len() {
        return false;
    }
    for (i, b) in word.iter().enumerate() {
        if b.to_ascii_lowercase() != fixed[i] {
            return false;
        }
    }
    true
}

fn mark_of_sign(word: &[u8]) -> Mark
    ensures { result ≡ mark_in signs mark.Minus word.now }
{
    if word == b"+".as_slice() {
        return Mark::Plus;
    }
    if word == b"*".as_slice() {
        return Mark::Times;
    }
    if word == b"/".as_slice() {
        return Mark::Divide;
    }
    if word == b"=".as_slice() {
        return Mark::Equal;
    }
    if word == b"<".as_slice() {
        return Mark::Less;
    }
    if word == b">".as_slice() {
        return Mark::Greater;
    }
    if word == b"<=".as_slice() {
        return Mark::LessEqual;
    }
    if word == b">=".as_slice() {
        return Mark::GreaterEqual;
    }
    Mark::Minus
}

fn mark_of_keyword(word: &[u8]) -> Mark
    ensures { result ≡ mark_in keywords mark.Keyword (folded word.now) }
{
    if reads_as(word, b":requirements") {
        Mark::Requirements
    } else if reads_as(word, b":types") {
        Mark::Types
    } else if reads_as(word, b":constants") {
        Mark::Constants
    } else if reads_as(word, b":predicates") {
        Mark::Predicates
    } else if reads_as(word, b":functions") {
        Mark::Functions
    } else if reads_as(word, b":durative-action") {
        Mark::DurativeAction
    } else if reads_as(word, b":parameters") {
        Mark::Parameters
    } else if reads_as(word, b":duration") {
        Mark::DurationKey
    } else if reads_as(word, b":condition") {
        Mark::ConditionKey
    } else if reads_as(word, b":effect") {
        Mark::EffectKey
    } else if reads_as(word, b":action") {
        Mark::Action
    } else if reads_as(word, b":derived") {
        Mark::Derived
    } else if reads_as(word, b":constraints") {
        Mark::Constraints
    } else {
        Mark::Keyword
    }
}

/// The mark of a name. Only the fixed names with its first letter are compared.
fn mark_of_name(word: &[u8]) -> Mark
    ensures { result ≡ mark_in fixed_names mark.Name (folded word.now) }
{
    match word {
        [first, ..] => mark_of_name_with(first.to_ascii_lowercase(), word),
        [] => Mark::Name,
    }
}

/// The mark of a name that begins with this letter.
fn mark_of_name_with(letter: u8, word: &[u8]) -> Mark
    requires { slice_get (folded word.now) 0 ≡ Some letter }
    ensures { result ≡ mark_in fixed_names mark.Name (folded word.now) }
{
    match letter {
        b'a' if reads_as(word, b"at") => Mark::At,
        b'a' if reads_as(word, b"all") => Mark::All,
        b'a' if reads_as(word, b"and") => Mark::And,
        b'a' if reads_as(word, b"assign") => Mark::Assign,
        b'd' if reads_as(word, b"define") => Mark::Define,
        b'd' if reads_as(word, b"domain") => Mark::Domain,
        b'd' if reads_as(word, b"decrease") => Mark::Decrease,
        b'e' if reads_as(word, b"end") => Mark::End,
        b'e' if reads_as(word, b"exists") => Mark::Exists,
        b'e' if reads_as(word, b"either") => Mark::Either,
        b'f' if reads_as(word, b"forall") => Mark::Forall,
        b'i' if reads_as(word, b"imply") => Mark::Imply,
        b'i' if reads_as(word, b"increase") => Mark::Increase,
        b'n' if reads_as(word, b"not") => Mark::Not,
        b'n' if reads_as(word, b"number") => Mark::NumberWord,
        b'o' if reads_as(word, b"over") => Mark::Over,
        b'o' if reads_as(word, b"or") => Mark::Or,
        b'p' if reads_as(word, b"problem") => Mark::Problem,
        b'p' if reads_as(word, b"preference") => Mark::Preference,
        b's' if reads_as(word, b"start") => Mark::Start,
        b's' if reads_as(word, b"scale-up") => Mark::ScaleUp,
        b's' if reads_as(word, b"scale-down") => Mark::ScaleDown,
        b'w' if reads_as(word, b"when") => Mark::When,
        _ => Mark::Name,
    }
}

/// The mark of a variable.
fn mark_of_variable(word: &[u8]) -> Mark
    ensures { result ≡ mark_of class.Variable word.now }
{
    if reads_as(word, b"?duration") {
        Mark::Duration
    } else {
        Mark::Variable
    }
}

/// What a word of a class is to the grammar, in either case of its letters.
pub fn mark_of(class: Class, word: &[u8]) -> Mark
    ensures { result ≡ mark_of class word.now }
{
    match class {
        Class::LeftParen => Mark::Open,
        Class::RightParen => Mark::Close,
        Class::Sign => mark_of_sign(word),
        Class::Variable => mark_of_variable(word),
        Class::Keyword => mark_of_keyword(word),
        Class::Number => Mark::Number,
        Class::Continuous => Mark::Continuous,
        Class::Name => mark_of_name(word),
    }
}

/// The name within a word, which is put into the table. Where memory runs out nothing changes.
fn name_within(names: &mut Names, class: Class, word: &[u8]) -> Result<Name, AllocError>
    requires { class_of word.now ≡ Some class }
    ensures ok { IfOk result (λ n. n ≡ numbered names.old (name_within class word.now)) }
    ensures table { OnOk result (names.new ≡ named names.old (name_within class word.now)) }
    ensures err { OnErr result (names.new ≡ names.old) }
{
    match class {
        Class::Name => names.intern_name(word),
        Class::Variable => names.intern_name(&word[1..]),
        _ => Ok(Name::OBJECT),
    }
}

/// The number that a word is, or zero. A word of a class other than `Number` is none, and isn't read.
fn number_within(class: Class, word: &[u8]) -> Num
    requires { class_of word.now ≡ Some class }
    ensures { result ≡ number_or_zero word.now }
{
    match class {
        Class::Number => read_number(word).unwrap_or(Num::ZERO),
        _ => Num::ZERO,
    }
}

/// A parenthesis as a word of the domain's text: it is neither a name nor a number.
fn paren(mark: Mark, at: usize) -> Lexeme
    ensures { result ≡ record {
      mark = mark;
      name = object;
      number = pos 0;
      at = at;
    } }
{
    Lexeme {
        mark,
        name: Name::OBJECT,
        number: Num::ZERO,
        at,
    }
}

/// A name as a word of the domain's text. It is put into the table. Where memory runs out nothing changes.
fn name_of(names: &mut Names, bytes: &[u8], token: Token) -> Result<Lexeme, AllocError>
    requires token { IsTokenOf bytes.now token }
    requires class { token.class ≡ class.Name }
    ensures ok { IfOk result (λ l. l ≡ lexeme_of bytes.now names.old token) }
    ensures table { OnOk result (names.new ≡ table_after bytes.now names.old token) }
    ensures err { OnErr result (names.new ≡ names.old) }
{
    let word = &bytes[token.from..token.to];
    let name = name_within(names, Class::Name, word)?;
    Ok(Lexeme {
        mark: mark_of_name(word),
        name,
        number: Num::ZERO,
        at: token.from,
    })
}

/// A variable as a word of the domain's text. Its name is put into the table. Where memory runs out nothing changes.
fn variable_of(names: &mut Names, bytes: &[u8], token: Token) -> Result<Lexeme, AllocError>
    requires token { IsTokenOf bytes.now token }
    requires class { token.class ≡ class.Variable }
    ensures ok { IfOk result (λ l. l ≡ lexeme_of bytes.now names.old token) }
    ensures table { OnOk result (names.new ≡ table_after bytes.now names.old token) }
    ensures err { OnErr result (names.new ≡ names.old) }
{
    let word = &bytes[token.from..token.to];
    let name = name_within(names, Class::Variable, word)?;
    Ok(Lexeme {
        mark: mark_of_variable(word),
        name,
        number: Num::ZERO,
        at: token.from,
    })
}

/// A token as a word of the domain's text. Its name is put into the table. Where memory runs out nothing changes.
fn lexeme_of(names: &mut Names, bytes: &[u8], token: Token) -> Result<Lexeme, AllocError>
    requires { IsTokenOf bytes.now token }
    ensures ok { IfOk result (λ l. l ≡ lexeme_of bytes.now names.old token) }
    ensures table { OnOk result (names.new ≡ table_after bytes.now names.old token) }
    ensures err { OnErr result (names.new ≡ names.old) }
{
    let word = &bytes[token.from..token.to];
    let name = name_within(names, token.class, word)?;
    Ok(Lexeme {
        mark: mark_of(token.class, word),
        name,
        number: number_within(token.class, word),
        at: token.from,
    })
}

/// The words of a domain's text, in order. Their names are put into the table; old ones keep their numbers and texts. The room of the
/// tokens is given back as they are read, so that a long text never has both whole. The classes that nearly all words have come first, so
/// that each is made and kept by a way of its own.
pub fn lexemes_of(
    alloc: Global,
    names: &mut Names,
    bytes: &[u8],
    mut tokens: Vec<Token>,
) -> Result<Vec<Lexeme>, AllocError>
    requires { AreTokens bytes.now tokens.items }
    ensures ok { IfOk result (λ v. lexemes_of bytes.now names.old tokens.items
        ≡ (v.items, names.new)) }
    ensures kept { Keeps names.old names.new }
{
    let mut lexemes = Vec::with_capacity(alloc, tokens.len())?;
    tokens.reverse();
    while let Some(token) = tokens.pop() {
        match token.class {
            Class::LeftParen => lexemes.push_reserved(paren(Mark::Open, token.from)),
            Class::RightParen => lexemes.push_reserved(paren(Mark::Close, token.from)),
            Class::Name => lexemes.push_reserved(name_of(names, bytes, token)?),
            Class::Variable => lexemes.push_reserved(variable_of(names, bytes, token)?),
            _ => lexemes.push_reserved(lexeme_of(names, bytes, token)?),
        }
        give_back_room(&mut tokens);
    }
    Ok(lexemes)
}
