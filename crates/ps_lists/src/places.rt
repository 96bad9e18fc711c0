//! What stands at a place of nested lists. In a text of a domain's shape there is a word or a list wherever one is looked for;
//! elsewhere nothing is found, and no function fails.
ghost use Rattle.std.specs.Prelude.{◌≡◌, length, map};
ghost use Rattle.std.specs.Option.{option_copied, option_map};
ghost use Rattle.ps_lists.specs.Nested.{nesteds};
ghost use Rattle.ps_lists.specs.NestedViews.{nested};
ghost use Rattle.ps_lists.specs.Places.{after, at, count, head, items, items_at, no_word, rest, section, word_of};

use super::lexemes::Lexeme;
use super::trees::Tree;
use ps_grammar::Mark;
use ps_world::{Name, Num};

/// No word.
fn no_word() -> Lexeme
    ensures { result ≡ no_word }
{
    Lexeme {
        mark: Mark::Close,
        name: Name::OBJECT,
        number: Num::ZERO,
        at: 0,
    }
}

/// The word that stands alone.
pub fn word_of(tree: &Tree) -> Lexeme
    ensures { result ≡ word_of (nested tree.now) }
{
    match tree {
        Tree::Word(lexeme) => *lexeme,
        Tree::Group(_) => no_word(),
    }
}

/// What stands between two parentheses.
pub fn items(tree: &Tree) -> &[Tree]
    ensures { nesteds (map nested result.now) ≡ items (nested tree.now) }
{
    match tree {
        Tree::Word(_) => &[],
        Tree::Group(trees) => trees.as_slice(),
    }
}

/// What stands between the first two parentheses, where they stand first.
pub fn items_at(trees: &[Tree]) -> &[Tree]
    ensures { nesteds (map nested result.now) ≡ items_at (nesteds (map nested trees.now)) }
{
    match trees {
        [] => &[],
        [first, ..] => items(first),
    }
}

/// How many there are.
pub fn count(trees: &[Tree]) -> usize
    ensures count { result ≡ count (nesteds (map nested trees.now)) }
    ensures length { result ≡ length trees.now }
{
    trees.len()
}

/// The one at this place, counted from 0.
pub fn at(trees: &[Tree], i: usize) -> Option<&Tree>
    ensures { option_map nested (option_copied result) ≡ at (nesteds (map nested trees.now)) i }
{
    if i < trees.len() {
        Some(&trees[i])
    } else {
        None
    }
}

/// The first word.
pub fn head(trees: &[Tree]) -> Lexeme
    ensures { result ≡ head (nesteds (map nested trees.now)) }
{
    match trees {
        [] => no_word(),
        [first, ..] => word_of(first),
    }
}

/// What follows the first.
pub fn rest(trees: &[Tree]) -> &[Tree]
    ensures { nesteds (map nested result.now) ≡ rest (nesteds (map nested trees.now)) }
{
    match trees {
        [] => &[],
        [_, rest @ ..] => rest,
    }
}

/// What follows the first word with this mark.
pub fn after(mark: Mark, trees: &[Tree]) -> &[Tree]
    ensures { nesteds (map nested result.now) ≡ after mark (nesteds (map nested trees.now)) }
{
    let mut i = 0;
    while i < trees.len() {
        if word_of(&trees[i]).mark == mark {
            return &trees[i + 1..];
        }
        i += 1;
    }
    &[]
}

/// What follows the head of the first list that has such a head.
pub fn section(mark: Mark, trees: &[Tree]) -> &[Tree]
    ensures { nesteds (map nested result.now) ≡ section mark (nesteds (map nested trees.now)) }
{
    let mut i = 0;
    while i < trees.len() {
        let inside = items(&trees[i]);
        if head(inside).mark == mark {
            return rest(inside);
        }
        i += 1;
    }
    &[]
}
