//! The table of names.
ghost use Rattle.std.specs.Prelude.{◌≡◌, ◌<◌, ◌∷◌, [], None, Some, codes, length, not, position, slice_get, take, true, IfOk, IfSome, OnOk, OnErr};
ghost use Rattle.ps_world.specs.Failures.{refusal_of};
ghost use Rattle.ps_world.specs.Lines.{same_text};
ghost use Rattle.ps_text.specs.Names.{AreNames, bad_place, folded, interned, is_name, is_name_byte, name_fault, place_of};

use indexmap::IndexSet;
use ps_world::{Failure, Name};
use std::alloc::{AllocError, Global};
use std::marker::Model;

/// The most bytes of a name.
pub const LONGEST_NAME: usize = 64;

/// Why a text is no name. Bytes are counted from 0.
#[derive(Clone, Copy, PartialEq, Eq, Debug)]
pub enum NameRefusal {
    /// The text is empty.
    Empty,
    /// The first byte that isn't allowed at its place. A name has ASCII letters, digits, `-` and `_`, and begins with a letter.
    BadByte { at: usize },
    /// The text is longer than 64 bytes.
    Long,
}

fn is_name_byte(b: u8) -> bool
    ensures { result ≡ is_name_byte b }
{
    // Small letters first, which most bytes of names are. What ends most names is below `-`.
    b.is_ascii_lowercase() || (b >= b'-' && (b.is_ascii_alphanumeric() || b == b'-' || b == b'_'))
}

pub(crate) fn first_other_byte(text: &[u8]) -> Option<usize>
    ensures { result ≡ position (λ b. not (is_name_byte b)) text.now }
{
    text.iter().position(|b| !is_name_byte(*b))
}

fn bad_place(text: &[u8]) -> Option<usize>
    ensures { result ≡ bad_place text.now }
{
    let first = text.first()?;
    if first.is_ascii_alphabetic() {
        first_other_byte(text)
    } else {
        Some(0)
    }
}

/// Why this text is no name: `Empty`, else `BadByte`, else `Long`.
fn fault(text: &[u8]) -> Option<NameRefusal>
    ensures { result ≡ name_fault text.now }
{
    if text.is_empty() {
        return Some(NameRefusal::Empty);
    }
    if let Some(at) = bad_place(text) {
        return Some(NameRefusal::BadByte { at });
    }
    if text.len() > LONGEST_NAME {
        return Some(NameRefusal::Long);
    }
    None
}

/// Whether this text is a name, of 1 to 64 bytes, in either case of its letters.
pub fn is_name(text: &[u8]) -> bool
    ensures { result ≡ is_name text.now }
{
    fault(text).is_none()
}

fn lower_case(alloc: Global, text: &[u8]) -> Result<Vec<u8>, AllocError>
    ensures { IfOk result (λ v. v.items ≡ folded text.now) }
{
    text.iter().map(|b| b.to_ascii_lowercase()).collect(alloc)
}

/// Whether two texts are one.
// A loop of its own, since names are short.
fn is_same(text: &[u8], other: &[u8]) -> bool
    ensures { result ≡ same_text text.now other.now }
{
    if text.len() != other.len() {
        return false;
    }
    for (b, c) in text.iter().zip(other) {
        if b != c {
            return false;
        }
    }
    true
}

/// How many hints there are: a power of two.
const HINTS: usize = 2048;

/// Where a table may find a text that it was asked for before. A hint may be wrong, so that whoever follows it looks there.
#[derive(Drop)]
struct Hints {
    names: Vec<Name>,
}

impl Hints {
    fn new(alloc: Global) -> Result<Hints, AllocError> {
        Ok(Hints {
            names: vec![in alloc; Name::OBJECT; HINTS]?,
        })
    }

    /// The number of a text's hint. Texts that differ in a number at their end, as `room8` and `room9`, have hints of their own.
    fn of(text: &[u8]) -> usize {
        let mut sum: usize = 0;
        for b in text {
            sum = sum.wrapping_mul(10).wrapping_add(*b as usize);
        }
        sum % HINTS
    }

    fn get(&self, hint: usize) -> Option<Name> {
        self.names.get(hint).copied()
    }

    fn note(&mut self, hint: usize, name: Name) {
        if let Some(noted) = self.names.get_mut(hint) {
            *noted = name;
        }
    }
}

/// The texts of a table, and the hints at them.
#[derive(Drop)]
struct Texts {
    set: IndexSet<Vec<u8>>,
    hints: Hints,
}

/// The most names of a table that may grow, since numbers of names have 32 bits. So many take over 100 GB of memory; a table that has more
/// has no room for another.
const MOST_NAMES: usize = 4_294_967_295;

/// The names, each with the number of its place. Texts that differ only in the case of letters are one name, and `object` is 0.
#[derive(Drop)]
pub struct Names {
    /// In one box, so that whoever owns a table owns one part.
    texts: Box<Texts>,
}

impl Model for Names {
    ghost use Rattle.std.specs.Prelude.{map};
    ghost use Rattle.ps_world.specs.Names.{Table};
    ghost use Rattle.ps_text.specs.Names.{AreNames};

    ghost Value = { Table };

    ghost view = { λ s. map (λ v. v.items) s.texts.value.set.keys };

    ghost invariant = { λ s. AreNames (map (λ v. v.items) s.texts.value.set.keys) };
}

impl Names {
    /// The table of the name `object` alone.
    pub fn new(alloc: Global) -> Result<Names, AllocError>
        ensures { IfOk result (λ t. t ≡ codes "object" ∷ []) }
    {
        let mut set = IndexSet::new(alloc);
        set.insert_full(Vec::from_slice(alloc, b"object")?)?;
        let hints = Hints::new(alloc)?;
        Ok(Names {
            texts: Box::new(alloc, Texts { set, hints })?,
        })
    }

    /// The name that a hint tells, where this text is that name's.
    fn hinted(&self, hint: usize, text: &[u8]) -> Option<Name>
        ensures ok { IfSome result (λ n. n.0 ≡ place_of self.now (folded text.now)) }
        ensures table { IfSome result (λ n. self.now ≡ interned self.now (folded text.now)) }
        ensures within { IfSome result (λ n. n.0 < length self.now) }
    {
        let name = self.texts.hints.get(hint)?;
        let known = self.texts.set.as_slice().get(name.0 as usize)?;
        if is_same(text, known.as_slice()) {
            Some(name)
        } else {
            None
        }
    }

    /// The name that this text is, as `intern_name` gives it, with no look at the hints.
    #[inline(never)]
    fn intern_unhinted(&mut self, text: &[u8]) -> Result<Name, AllocError>
        requires { is_name text.now ≡ true }
        ensures ok { IfOk result (λ n. n.0 ≡ place_of self.old (folded text.now)) }
        ensures table { OnOk result (self.new ≡ interned self.old (folded text.now)) }
        ensures within { IfOk result (λ n. n.0 < length self.new) }
        ensures err { OnErr result (self.new ≡ self.old) }
    {
        if self.texts.set.len() > MOST_NAMES {
            return Err(AllocError);
        }
        // The texts here are in lower case, so that a text that is found needs no folding.
        if let Some(place) = self.texts.set.get_index_of(text) {
            return Ok(Name(place as u32));
        }
        let folded = lower_case(*self.texts.set.allocator(), text)?;
        let (place, _) = self.texts.set.insert_full(folded)?;
        Ok(Name(place as u32))
    }

    /// The name that this text is, put at the end of the table if it is new. The only error is that there is no room, which changes nothing.
    pub fn intern_name(&mut self, text: &[u8]) -> Result<Name, AllocError>
        requires { is_name text.now ≡ true }
        ensures ok { IfOk result (λ n. n.0 ≡ place_of self.old (folded text.now)) }
        ensures table { OnOk result (self.new ≡ interned self.old (folded text.now)) }
        ensures within { IfOk result (λ n. n.0 < length self.new) }
        ensures err { OnErr result (self.new ≡ self.old) }
    {
        let hint = Hints::of(text);
        if let Some(name) = self.hinted(hint, text) {
            return Ok(name);
        }
        let name = self.intern_unhinted(text)?;
        self.texts.hints.note(hint, name);
        Ok(name)
    }

    /// The name with this text, put at the end of the table if it is new. An error changes nothing.
    ///
    /// The errors, in this order: `Empty`; `BadByte`; `Long`; memory ran out.
    pub fn intern(&mut self, text: &[u8]) -> Result<Name, Failure<NameRefusal>>
        ensures ok { IfOk result (λ n. n.0 ≡ place_of self.old (folded text.now)) }
        ensures table { OnOk result (self.new ≡ interned self.old (folded text.now)) }
        ensures within { IfOk result (λ n. n.0 < length self.new) }
        ensures err { OnErr result (self.new ≡ self.old) }
        ensures refused { refusal_of result ≡ name_fault text.now }
    {
        if let Some(refusal) = fault(text) {
            return Err(Failure::Refused(refusal));
        }
        Ok(self.intern_name(text)?)
    }

    /// Keeps the first `len` names, and drops the others.
    pub fn cut_back(&mut self, len: usize)
        requires { 0 < len }
        ensures { self.new ≡ take len self.old }
    {
        self.texts.set.truncate(len);
    }

    /// How many names.
    pub fn len(&self) -> usize
        ensures count { result ≡ length self.now }
        ensures names { AreNames self.now }
    {
        self.texts.set.len()
    }

    /// The text of a name, in lower case.
    pub fn text(&self, n: Name) -> &[u8]
        requires { n.0 < length self.now }
        ensures text { slice_get self.now n.0 ≡ Some result.now }
        ensures names { AreNames self.now }
    {
        self.texts.set.as_slice()[n.0 as usize].as_slice()
    }
}
