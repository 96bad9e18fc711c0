//! The variables of a line: which of them is out of its scope first.
ghost use Rattle.std.specs.Prelude.{◌≡◌, ◌++◌, ◌∷◌, [], if◌then◌else◌, nat_le, None, Some, length, map};
ghost use Rattle.std.specs.List.{list_any};
ghost use Rattle.std.specs.Option.{option_map};
ghost use Rattle.ps_world.specs.Names.{same_name};
ghost use Rattle.ps_lists.specs.Nested.{nesteds};
ghost use Rattle.ps_lists.specs.NestedViews.{nested};
ghost use Rattle.ps_script.specs.Scopes.{binds, binds_word, loose, named, names_of, quantifies, stray, stray_form, strays};

use ps_grammar::Mark;
use ps_lists::{Lexeme, Tree, head, items_at, rest, word_of};
use ps_world::Name;

/// The variables that quantifiers bind in force at one place, of which there are two at most.
#[derive(Clone, Copy)]
pub enum InForce {
    Nothing,
    One(Name),
    Two(Name, Name),
}

impl InForce {
    /// Whether a variable of this name is in force.
    fn has(self, name: Name) -> bool
        ensures { result ≡ list_any (same_name name) (names_of self) }
    {
        match self {
            InForce::Nothing => false,
            InForce::One(own) => name == own,
            InForce::Two(outer, inner) => name == outer || name == inner,
        }
    }

    /// These with one more, or None exactly where there are two.
    fn with(self, name: Name) -> Option<InForce>
        ensures { option_map names_of result
            ≡ (if nat_le 2 (length (names_of self)) then None else Some (names_of self ++ name ∷ [])) }
    {
        match self {
            InForce::Nothing => Some(InForce::One(name)),
            InForce::One(outer) => Some(InForce::Two(outer, name)),
            InForce::Two(_, _) => None,
        }
    }
}

/// Whether a word is the head of a quantifier.
fn quantifies(mark: Mark) -> bool
    ensures { result ≡ quantifies mark }
{
    matches!(mark, Mark::Exists | Mark::Forall)
}

/// The variables in force with this word, if it is one; or its place, where it can't be bound.
fn binds_word(bound: InForce, word: Lexeme) -> Result<InForce, usize>
    ensures { named result ≡ binds_word (names_of bound) word }
{
    if word.mark != Mark::Variable {
        return Ok(bound);
    }
    if bound.has(word.name) {
        return Err(word.at);
    }
    match bound.with(word.name) {
        Some(more) => Ok(more),
        None => Err(word.at),
    }
}

/// The variables in force with those of a list, or the place of the first that can't be bound.
fn binds(bound: InForce, trees: &[Tree]) -> Result<InForce, usize>
    ensures { named result ≡ binds (names_of bound) (nesteds (map nested trees.now)) }
{
    let mut all = bound;
    for tree in trees {
        match binds_word(all, word_of(tree)) {
            Ok(more) => all = more,
            Err(at) => return Err(at),
        }
    }
    Ok(all)
}

/// The place of a word that is a variable and not in force.
fn loose(bound: InForce, word: Lexeme) -> Option<usize>
    ensures { result ≡ loose (names_of bound) word }
{
    if word.mark == Mark::Variable && !bound.has(word.name) {
        Some(word.at)
    } else {
        None
    }
}

/// The place of the first variable in this that is out of its scope.
#[cycle(stray)]
fn stray(bound: InForce, tree: &Tree) -> Option<usize>
    ensures { result ≡ stray (names_of bound) (nested tree.now) }
{
    match tree {
        Tree::Word(word) => loose(bound, *word),
        Tree::Group(trees) => stray_form(bound, trees.as_slice()),
    }
}

/// The same of a head and what follows it.
#[cycle(stray)]
fn stray_form(bound: InForce, trees: &[Tree]) -> Option<usize>
    ensures { result ≡ stray_form (names_of bound) (nesteds (map nested trees.now)) }
{
    if !quantifies(head(trees).mark) {
        return strays(bound, trees);
    }
    let inside = rest(trees);
    match binds(bound, items_at(inside)) {
        Ok(all) => strays(all, inside),
        Err(at) => Some(at),
    }
}

/// The place of the first variable in these that is out of its scope, where these are in force: it isn't bound there, or can't be.
#[cycle(stray)]
pub fn strays(bound: InForce, trees: &[Tree]) -> Option<usize>
    ensures { result ≡ strays (names_of bound) (nesteds (map nested trees.now)) }
{
    for tree in trees {
        if let Some(at) = stray(bound, tree) {
            return Some(at);
        }
    }
    None
}
