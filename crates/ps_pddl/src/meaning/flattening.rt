//! Lists of effects, in which `and` is flattened.
ghost use Rattle.std.specs.Prelude.{◌≡◌, IfOk};
ghost use Rattle.ps_world.specs.Failures.{Gives};
ghost use Rattle.ps_lists.specs.NestedViews.{nested};
ghost use Rattle.ps_pddl.specs.Effects.{all_flattened, flattened, flattened_form, followed_by};
ghost use Rattle.ps_pddl.specs.Forms.{forms};

use crate::refusals::DomainRefusal;
use ps_conditions::is_and;
use ps_lists::{Lexeme, Tree, count, head, rest};
use ps_world::{Failure, Seq};
use std::alloc::{AllocError, Global};

/// A level of effects: what stands in its lists but an `and`. Contracts see it as `one` of it.
pub trait Level {
    ghost use Rattle.std.specs.Prelude.{Option};
    ghost use Rattle.ps_lists.specs.Nested.{Nesteds};
    ghost use Rattle.ps_lists.specs.declared.lexemes.Lexeme.{Lexeme as LexemeView};
    ghost use Rattle.ps_pddl.specs.Steps.{Read};

    /// What its lists hold.
    type One: Drop;

    ghost one: { Self → LexemeView → Nesteds → Read (Option Self.One) };

    /// What is read from a head and what follows it, if it is anything.
    fn read(
        &self,
        alloc: Global,
        word: Lexeme,
        trees: &[Tree],
    ) -> Result<Option<Self::One>, Failure<DomainRefusal>>
        ensures { Gives (λ x. x) result (one self.now word (forms trees.now)) };
}

/// Puts this one at the end, if there is one.
fn push_one<T: Drop>(all: &mut Seq<T>, one: Option<T>) -> Result<(), AllocError>
    ensures { IfOk result (λ _. all.new ≡ followed_by all.old one) }
{
    match one {
        Some(one) => all.push(one),
        None => Ok(()),
    }
}

/// Puts these, one after another.
#[cycle(flattened)]
fn all_flattened<L: Level>(
    alloc: Global,
    level: &L,
    trees: &[Tree],
    all: &mut Seq<L::One>,
) -> Result<(), Failure<DomainRefusal>>
    ensures { Gives (λ _. all.new) result
        (all_flattened (L.one level.now) (forms trees.now) all.old) }
{
    for tree in trees {
        flattened(alloc, level, tree, all)?;
    }
    Ok(())
}

/// Puts what a head and what follows it mean.
#[cycle(flattened)]
fn flattened_form<L: Level>(
    alloc: Global,
    level: &L,
    trees: &[Tree],
    all: &mut Seq<L::One>,
) -> Result<(), Failure<DomainRefusal>>
    ensures { Gives (λ _. all.new) result
        (flattened_form (L.one level.now) (forms trees.now) all.old) }
{
    if count(trees) == 0 {
        return Ok(());
    }
    let word = head(trees);
    if is_and(word.mark) {
        return all_flattened(alloc, level, rest(trees), all);
    }
    let one = level.read(alloc, word, rest(trees))?;
    push_one(all, one)?;
    Ok(())
}

/// Puts what a list means at the end; `and` is flattened.
#[cycle(flattened)]
pub fn flattened<L: Level>(
    alloc: Global,
    level: &L,
    tree: &Tree,
    all: &mut Seq<L::One>,
) -> Result<(), Failure<DomainRefusal>>
    ensures { Gives (λ _. all.new) result
        (flattened (L.one level.now) (nested tree.now) all.old) }
{
    match tree {
        Tree::Word(_) => Ok(()),
        Tree::Group(trees) => flattened_form(alloc, level, trees.as_slice(), all),
    }
}
