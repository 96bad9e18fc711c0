//! The parts of an action's condition, by the time at which they have to hold.
ghost use Rattle.ps_world.specs.Failures.{Gives};
ghost use Rattle.ps_lists.specs.NestedViews.{nested};
ghost use Rattle.ps_pddl.specs.Conditions.{all_timed, timed, timed_form, timed_list, timed_part};
ghost use Rattle.ps_grammar.specs.declared.marks.Mark.TheVariants.{At, Over};
ghost use Rattle.ps_pddl.specs.Forms.{forms};

use super::scope::ActionScope;
use crate::refusals::DomainRefusal;
use ps_conditions::{add_condition, is_and};
use ps_grammar::Mark;
use ps_lists::{Lexeme, Tree, head, rest, word_of};
use ps_world::{Conditions, Failure};
use std::alloc::Global;

/// Puts a part with the word after its `at`.
fn add_at(
    alloc: Global,
    scope: &ActionScope,
    time: Mark,
    tree: &Tree,
    all: &mut Conditions,
) -> Result<(), Failure<DomainRefusal>>
    ensures { Gives (λ _. all.new) result
        (timed_part scope.now.domain.now scope.now.params.now At time (nested tree.now) all.old) }
{
    match time {
        Mark::Start => add_condition(
            alloc,
            &scope.binder(),
            scope.params,
            tree,
            &mut all.at_start,
        ),
        _ => add_condition(alloc, &scope.binder(), scope.params, tree, &mut all.at_end),
    }
}

/// Puts a part that has to hold over all.
fn add_over(
    alloc: Global,
    scope: &ActionScope,
    time: Mark,
    tree: &Tree,
    all: &mut Conditions,
) -> Result<(), Failure<DomainRefusal>>
    ensures { Gives (λ _. all.new) result
        (timed_part scope.now.domain.now scope.now.params.now Over time (nested tree.now) all.old) }
{
    add_condition(
        alloc,
        &scope.binder(),
        scope.params,
        tree,
        &mut all.over_all,
    )
}

/// Puts a part, by its first word and what follows it.
fn timed_part(
    alloc: Global,
    scope: &ActionScope,
    word: Mark,
    time: Mark,
    tree: &Tree,
    all: &mut Conditions,
) -> Result<(), Failure<DomainRefusal>>
    ensures { Gives (λ _. all.new) result
        (timed_part scope.now.domain.now scope.now.params.now word time (nested tree.now) all.old) }
{
    match word {
        Mark::At => add_at(alloc, scope, time, tree, all),
        Mark::Over => add_over(alloc, scope, time, tree, all),
        _ => Ok(()),
    }
}

/// Puts a part, by its head and the list that follows it.
fn timed_form(
    alloc: Global,
    scope: &ActionScope,
    word: Lexeme,
    trees: &[Tree],
    all: &mut Conditions,
) -> Result<(), Failure<DomainRefusal>>
    ensures { Gives (λ _. all.new) result
        (timed_form scope.now.domain.now scope.now.params.now word (forms trees.now) all.old) }
{
    match trees {
        [] => Ok(()),
        [_] => Ok(()),
        [time, tree, ..] => timed_part(alloc, scope, word.mark, word_of(time).mark, tree, all),
    }
}

/// Puts the parts of these forms, one after another.
#[cycle(timed)]
fn all_timed(
    alloc: Global,
    scope: &ActionScope,
    trees: &[Tree],
    all: &mut Conditions,
) -> Result<(), Failure<DomainRefusal>>
    ensures { Gives (λ _. all.new) result
        (all_timed scope.now.domain.now scope.now.params.now (forms trees.now) all.old) }
{
    for tree in trees {
        timed(alloc, scope, tree, all)?;
    }
    Ok(())
}

/// Puts the parts of a head and what follows it.
#[cycle(timed)]
fn timed_list(
    alloc: Global,
    scope: &ActionScope,
    trees: &[Tree],
    all: &mut Conditions,
) -> Result<(), Failure<DomainRefusal>>
    ensures { Gives (λ _. all.new) result
        (timed_list scope.now.domain.now scope.now.params.now (forms trees.now) all.old) }
{
    if trees.is_empty() {
        return Ok(());
    }
    let word = head(trees);
    if is_and(word.mark) {
        return all_timed(alloc, scope, rest(trees), all);
    }
    timed_form(alloc, scope, word, rest(trees), all)
}

/// Puts the parts of a condition at their ends, in the order of the text; `and` is flattened.
#[cycle(timed)]
pub fn timed(
    alloc: Global,
    scope: &ActionScope,
    tree: &Tree,
    all: &mut Conditions,
) -> Result<(), Failure<DomainRefusal>>
    ensures { Gives (λ _. all.new) result
        (timed scope.now.domain.now scope.now.params.now (nested tree.now) all.old) }
{
    match tree {
        Tree::Word(_) => Ok(()),
        Tree::Group(trees) => timed_list(alloc, scope, trees.as_slice(), all),
    }
}
