//! The words of a line, with their places.
use super::scripts::part_of;
use ps_text::{Class, Token, tokens};
use ps_world::Failure;
use std::alloc::{AllocError, Global};

/// The words of a line; none where one of them has no class.
#[derive(Drop)]
pub struct Said<'a> {
    line: &'a [u8],
    tokens: Vec<Token>,
}

impl<'a> Said<'a> {
    /// The words of a line.
    pub fn of(alloc: Global, line: &'a [u8]) -> Result<Said<'a>, AllocError> {
        match tokens(alloc, line) {
            Ok(tokens) => Ok(Said { line, tokens }),
            Err(Failure::Refused(_)) => Ok(Said {
                line,
                tokens: Vec::new(alloc),
            }),
            Err(Failure::OutOfMemory) => Err(AllocError),
        }
    }

    /// How many words.
    pub fn len(&self) -> usize {
        self.tokens.len()
    }

    /// Whether there is no word.
    pub fn is_empty(&self) -> bool {
        self.tokens.is_empty()
    }

    /// The word at a place among the words, counted from 0; nothing past their end.
    pub fn word(&self, i: usize) -> &'a [u8] {
        match self.tokens.as_slice().get(i) {
            Some(token) => part_of(self.line, token.from, token.to),
            None => part_of(self.line, 0, 0),
        }
    }

    /// Whether a word is this one, in any case of its letters.
    pub fn is(&self, i: usize, word: &[u8]) -> bool {
        let own = self.word(i);
        own.len() == word.len() && own.eq_ignore_ascii_case(word)
    }

    /// Whether a word is a name.
    pub fn is_name(&self, i: usize) -> bool {
        match self.tokens.as_slice().get(i) {
            Some(token) => token.class == Class::Name,
            None => false,
        }
    }

    /// Whether a word is a variable.
    pub fn is_variable(&self, i: usize) -> bool {
        match self.tokens.as_slice().get(i) {
            Some(token) => token.class == Class::Variable,
            None => false,
        }
    }

    /// The number of the word that begins at a byte of the line.
    pub fn at(&self, place: usize) -> Option<usize> {
        self.tokens.iter().position(|token| token.from == place)
    }

    /// The byte of the line at which a word begins.
    pub fn place(&self, i: usize) -> Option<usize> {
        self.tokens.as_slice().get(i).map(|token| token.from)
    }
}
