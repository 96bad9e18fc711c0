//! Flags, packed 64 in a word, so that to copy, compare and hash many is little work. Up to 128 of them need no memory of their own.
ghost use Rattle.std.specs.Prelude.{◌≡◌, false, true, fold, length, replicate, slice_index_or, slice_set, IfOk};
ghost use Rattle.ps_solve.specs.Flags.{with_word};

use smallvec::SmallVec;
use std::alloc::{AllocError, Global};
use std::hash::{Hash, Hasher};
use std::marker::Model;

/// An odd number of mixed bits: 2 to the 64th by the golden ratio.
const MIX: u64 = 0x9E37_79B9_7F4A_7C15;

/// A list of flags, which contracts see.
#[derive(Drop)]
pub struct Flags {
    /// The flag at a place is the bit `place % 64` of the word at `place / 64`. Bits past the last flag are clear.
    words: SmallVec<u64, 2>,
    len: usize,
}

impl Model for Flags {
    ghost use Rattle.std.specs.Prelude.{Bool, List};
    ghost use Rattle.ps_solve.specs.Flags.{ArePacked, flags_in, joined};

    ghost Value = { List Bool };

    ghost view = { λ a. flags_in a.len (joined a.words.items) };

    ghost invariant = { λ a. ArePacked a.words.items a.len };
}

impl Flags {
    /// This many flags, none of which is set. The only error is out of memory.
    pub fn cleared(alloc: Global, len: usize) -> Result<Flags, AllocError>
        ensures { IfOk result (λ flags. flags ≡ replicate len false) }
    {
        Ok(Flags {
            words: SmallVec::from_elem(alloc, 0, len.div_ceil(64))?,
            len,
        })
    }

    /// Equal flags.
    pub fn copy(&self, alloc: Global) -> Result<Flags, AllocError>
        ensures { IfOk result (λ copied. copied ≡ self.now) }
    {
        Ok(Flags {
            words: SmallVec::from_slice(alloc, &self.words)?,
            len: self.len,
        })
    }

    /// Makes the flags equal to others, of which there are as many.
    pub fn set_to(&mut self, other: &Flags)
        requires { length self.old ≡ length other.now }
        ensures { self.new ≡ other.now }
    {
        self.words.copy_from_slice(&other.words);
    }

    /// Whether the flag at a place is set; false where there is none.
    pub fn get(&self, place: usize) -> bool
        ensures { result ≡ slice_index_or self.now place false }
    {
        match self.words.get(place / 64) {
            Some(word) => (*word >> (place % 64)) & 1 == 1,
            None => false,
        }
    }

    /// Sets the flag at a place, if there is one.
    pub fn set(&mut self, place: usize)
        ensures { self.new ≡ slice_set self.old place true }
    {
        if place < self.len {
            self.words[place / 64] |= 1 << (place % 64);
        }
    }

    /// Clears the flag at a place, if there is one.
    pub fn clear(&mut self, place: usize)
        ensures { self.new ≡ slice_set self.old place false }
    {
        if place < self.len {
            self.words[place / 64] &= !(1 << (place % 64));
        }
    }
}

impl PartialEq for Flags {
    ghost use Rattle.std.proofs.Math.Bool.{beq};
    ghost use Rattle.std.specs.Cmp.{bool_eq_equiv, partial_equiv_from_equiv};
    ghost use Rattle.std.specs.Cmp.Lexicographic.{lists_equiv, pointwise};

    ghost eq = { pointwise beq };

    ghost laws = { partial_equiv_from_equiv (lists_equiv bool_eq_equiv) };

    fn eq(&self, other: &Self) -> bool {
        self.len == other.len && self.words == other.words
    }
}

impl Eq for Flags {
    ghost use Rattle.std.specs.Cmp.{bool_eq_equiv};
    ghost use Rattle.std.specs.Cmp.Lexicographic.{lists_equiv};

    ghost laws = { lists_equiv bool_eq_equiv };
}

impl Hash for Flags {
    ghost use Rattle.std.specs.Hash as fed;
    ghost use Rattle.ps_solve.specs.Flags.{flags_fed_alike, flags_key};

    ghost hash_input = { λ flags. fed.u64 (flags_key flags) };

    ghost respects_eq = { flags_fed_alike };

    fn hash<H: Hasher>(&self, state: &mut H) {
        key_of(self.words.as_slice()).hash(state);
    }
}

/// A number made of words, for a hash: one write is less work than one for each word. The high half of each product goes into the low
/// one too, so that the high bits of a word matter as much as the others.
fn key_of(words: &[u64]) -> u64
    ensures { result ≡ fold with_word 0 words.now }
{
    let mut key: u64 = 0;
    for word in words {
        let product = (key ^ *word).wrapping_mul(MIX);
        key = product ^ (product >> 32);
    }
    key
}
