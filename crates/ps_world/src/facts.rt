//! Facts.
use super::lists::Duplicate;
use super::names::{Args, Name};
use std::alloc::{AllocError, Global};

/// A ground fact: a predicate and its arguments.
#[derive(Clone, Copy, PartialEq, Eq, PartialOrd, Ord)]
pub struct Fact {
    pub head: Name,
    pub args: Args,
}

impl Duplicate for Fact {
    fn copy(&self, _alloc: Global) -> Result<Self, AllocError> {
        Ok(*self)
    }
}
