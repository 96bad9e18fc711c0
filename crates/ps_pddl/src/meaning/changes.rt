//! The parts of an action's effect, by the time at which they come.
ghost use Rattle.ps_world.specs.Failures.{Gives};
ghost use Rattle.ps_lists.specs.NestedViews.{nested};
ghost use Rattle.ps_pddl.specs.Effects.{all_timed, at_time, timed, timed_form, timed_list, timed_part};
ghost use Rattle.ps_pddl.specs.Forms.{forms};

use super::effects::effect;
use super::scope::ActionScope;
use crate::refusals::DomainRefusal;
use ps_conditions::is_and;
use ps_grammar::Mark;
use ps_lists::{Lexeme, Tree, head, rest, word_of};
use ps_world::{Effects, Failure};
use std::alloc::Global;

/// Puts an effect with the word after its `at`.
fn add_at(
    alloc: Global,
    scope: &ActionScope,
    time: Mark,
    tree: &Tree,
    all: &mut Effects,
) -> Result<(), Failure<DomainRefusal>>
    ensures { Gives (λ _. all.new) result
        (at_time scope.now.domain.now scope.now.params.now time (nested tree.now) all.old) }
{
    match time {
        Mark::Start => effect(alloc, scope, tree, &mut all.at_start),
        _ => effect(alloc, scope, tree, &mut all.at_end),
    }
}

/// Puts the effects of a form, by its first word and what follows it.
fn timed_part(
    alloc: Global,
    scope: &ActionScope,
    word: Mark,
    time: Mark,
    tree: &Tree,
    all: &mut Effects,
) -> Result<(), Failure<DomainRefusal>>
    ensures { Gives (λ _. all.new) result
        (timed_part scope.now.domain.now scope.now.params.now word time (nested tree.now) all.old) }
{
    match word {
        Mark::At => add_at(alloc, scope, time, tree, all),
        _ => Ok(()),
    }
}

/// Puts the effects of a form, by its head and the list that follows it.
fn timed_form(
    alloc: Global,
    scope: &ActionScope,
    word: Lexeme,
    trees: &[Tree],
    all: &mut Effects,
) -> Result<(), Failure<DomainRefusal>>
    ensures { Gives (λ _. all.new) result
        (timed_form scope.now.domain.now scope.now.params.now word (forms trees.now) all.old) }
{
    match trees {
        [] => Ok(()),
        [_] => Ok(()),
        [time, tree, ..] => timed_part(alloc, scope, word.mark, word_of(time).mark, tree, all),
    }
}

/// Puts the effects of these forms, one after another.
#[cycle(timed)]
fn all_timed(
    alloc: Global,
    scope: &ActionScope,
    trees: &[Tree],
    all: &mut Effects,
) -> Result<(), Failure<DomainRefusal>>
    ensures { Gives (λ _. all.new) result
        (all_timed scope.now.domain.now scope.now.params.now (forms trees.now) all.old) }
{
    for tree in trees {
        timed(alloc, scope, tree, all)?;
    }
    Ok(())
}

/// Puts the effects of a head and what follows it.
#[cycle(timed)]
fn timed_list(
    alloc: Global,
    scope: &ActionScope,
    trees: &[Tree],
    all: &mut Effects,
) -> Result<(), Failure<DomainRefusal>>
    ensures { Gives (λ _. all.new) result
        (timed_list scope.now.domain.now scope.now.params.now (forms trees.now) all.old) }
{
    if trees.is_empty() {
        return Ok(());
    }
    let word = head(trees);
    if is_and(word.mark) {
        return all_timed(alloc, scope, rest(trees), all);
    }
    timed_form(alloc, scope, word, rest(trees), all)
}

/// Puts the effects of an action's effect at their ends, in the order of the text; `and` is flattened.
#[cycle(timed)]
pub fn timed(
    alloc: Global,
    scope: &ActionScope,
    tree: &Tree,
    all: &mut Effects,
) -> Result<(), Failure<DomainRefusal>>
    ensures { Gives (λ _. all.new) result
        (timed scope.now.domain.now scope.now.params.now (nested tree.now) all.old) }
{
    match tree {
        Tree::Word(_) => Ok(()),
        Tree::Group(trees) => timed_list(alloc, scope, trees.as_slice(), all),
    }
}
