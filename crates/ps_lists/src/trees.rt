//! A domain's text as nested lists of words. Contracts see them as `Nested` of specs/Nested.antt.
ghost use Rattle.std.specs.Prelude.{◌≡◌, true, map, IfOk};
ghost use Rattle.ps_lists.specs.Nested.{nesteds};
ghost use Rattle.ps_lists.specs.NestedViews.{nested};
ghost use Rattle.ps_lists.specs.Lexemes.{marks};
ghost use Rattle.ps_lists.specs.Spelling.{SpellAll, is_balanced};

use super::blocks::give_back_room;
use super::lexemes::Lexeme;
use ps_grammar::Mark;
use std::alloc::{AllocError, Global};
use std::marker::Model;

/// A word, or what stands between two parentheses.
#[cycle(tree)]
#[derive(Drop)]
pub enum Tree {
    Word(Lexeme),
    Group(Trees),
}

/// What stands one after another.
#[cycle(tree)]
#[derive(Drop)]
pub struct Trees {
    items: Vec<Tree>,
}

impl Model for Trees {
    ghost use Rattle.std.specs.Prelude.{map};
    ghost use Rattle.ps_lists.specs.Nested.{Nesteds, nesteds, nesteds_code, ranks};

    ghost Value = { Nesteds };

    ghost coded = { nesteds_code };

    ghost use Rattle.ps_lists.specs.NestedViews.{nested};

    ghost view = { λ a. nesteds (map nested a.items.items) };

    ghost size = { ranks };

    ghost use Rattle.ps_lists.specs.NestedFalls.{trees_fall};

    ghost size_decreases = { λ a h. trees_fall a.items.items };
}

impl Trees {
    /// These, one after another. It takes no memory.
    pub fn of(items: Vec<Tree>) -> Self
        ensures { result ≡ nesteds (map nested items.items) }
    {
        Trees { items }
    }

    /// What stands there, in order.
    pub fn as_slice(&self) -> &[Tree]
        ensures { nesteds (map nested result.now) ≡ self.now }
    {
        self.items.as_slice()
    }
}

/// The nested lists that words are, where each parenthesis has its other one. What stands in a list that isn't closed yet is kept at
/// the end of those around it, with room for as many as there are words, so that a list asks for memory once, and for what it needs.
/// The room of the words is given back as they are read, and at the end that of what stood in lists.
pub fn trees_of(alloc: Global, mut words: Vec<Lexeme>) -> Result<Trees, AllocError>
    requires { is_balanced 0 (marks words.items) ≡ true }
    ensures { IfOk result (λ ts. SpellAll ts words.items) }
{
    let mut trees: Vec<Tree> = Vec::with_capacity(alloc, words.len())?;
    let mut starts: Vec<usize> = Vec::new(alloc);
    words.reverse();
    while let Some(word) = words.pop() {
        match word.mark {
            Mark::Open => starts.push(trees.len())?,
            Mark::Close => {
                let Some(start) = starts.pop() else {
                    unreachable!()
                };
                let inside = trees.split_off(start)?;
                trees.push_reserved(Tree::Group(Trees::of(inside)));
            }
            _ => trees.push_reserved(Tree::Word(word)),
        }
        give_back_room(&mut words);
    }
    give_back_room(&mut trees);
    Ok(Trees::of(trees))
}
