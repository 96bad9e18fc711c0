//! Lines of places.
ghost use Rattle.std.specs.Prelude.{◌≡◌, ◌<◌, drop, length, not, position, IfOk};
ghost use Rattle.ps_text.specs.Names.{Keeps};
ghost use Rattle.ps_text.specs.Words.{word_at};
ghost use Rattle.ps_members.specs.Args.{first_other, is_name_class, pattern_of, place_in, places_of};

use ps_text::{Class, Names, Token, Words, is_name};
use ps_world::{Name, Seq};
use std::alloc::{AllocError, Global};

/// Whether a word of this class is a name.
fn is_name_class(class: Class) -> bool
    ensures { result ≡ is_name_class class }
{
    matches!(class, Class::Name)
}

/// The first word that is no name.
pub fn first_other(tokens: &[Token]) -> Option<usize>
    ensures { result ≡ first_other tokens.now }
{
    tokens.iter().position(|token| !is_name_class(token.class))
}

/// The place that the word at `i` is. Its name is put into the table.
fn place_at(names: &mut Names, words: &Words, i: usize) -> Result<Option<Name>, AllocError>
    requires { i < length words.now }
    ensures ok { IfOk result (λ place. place_in names.old (word_at words.now i)
        ≡ (place, names.new)) }
    ensures kept { Keeps names.old names.new }
{
    let word = words.word(i);
    if is_name(word) {
        Ok(Some(names.intern_name(word)?))
    } else {
        Ok(None)
    }
}

/// The places that the words after the first are. Their names are put into the table.
fn places_of(
    alloc: Global,
    names: &mut Names,
    words: &Words,
) -> Result<Seq<Option<Name>>, AllocError>
    ensures ok { IfOk result (λ places. places_of names.old (drop 1 words.now)
        ≡ (places, names.new)) }
    ensures kept { Keeps names.old names.new }
{
    let mut places = Seq::new(alloc);
    for i in 1..words.len() {
        let place = place_at(names, words, i)?;
        places.push(place)?;
    }
    Ok(places)
}

/// The places of a line, each a name or open. The line's names are put into the table.
pub fn pattern_of(
    alloc: Global,
    names: &mut Names,
    bytes: &[u8],
) -> Result<Seq<Option<Name>>, AllocError>
    ensures ok { IfOk result (λ places. pattern_of names.old bytes.now ≡ (places, names.new)) }
    ensures kept { Keeps names.old names.new }
{
    let words = Words::of(alloc, bytes)?;
    names.intern_name(b"args")?;
    places_of(alloc, names, &words)
}
