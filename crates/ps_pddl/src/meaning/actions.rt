//! What a domain's actions are.
ghost use Rattle.std.specs.Prelude.{◌≡◌, ◌≤◌, [], length};
ghost use Rattle.std.specs.List.{list_any};
ghost use Rattle.ps_world.specs.Failures.{Gives};
ghost use Rattle.ps_world.specs.Names.{same_name};
ghost use Rattle.ps_grammar.specs.declared.marks.Mark.TheVariants.{DurativeAction};
ghost use Rattle.ps_grammar.specs.Marks.{is};
ghost use Rattle.ps_pddl.specs.Meaning.{action, action_body, actions, changes, condition_in, duration, duration_in, effect_in, parts};
ghost use Rattle.ps_pddl.specs.Forms.{forms};

use super::changes::timed as timed_effect;
use super::lists::{Listing, fault_of_new, listed};
use super::parts::timed as timed_condition;
use super::rooms::{room_for_conditions, room_for_effects};
use super::scope::{ActionScope, MOST_PARAMS};
use crate::refusals::{Cap, DomainRefusal};
use ps_conditions::value;
use ps_domain::Declared;
use ps_grammar::Mark;
use ps_lists::{Tree, after, at, head, items, items_at, rest};
use ps_world::{ActionDef, Conditions, Effects, Expr, Failure, Name, Num, Param, Params, Seq};
use std::alloc::Global;

/// How many actions a domain has at most.
const MOST_ACTIONS: usize = 256;

/// The duration of an action, which stands third in the list after its keyword.
fn duration(
    alloc: Global,
    scope: &ActionScope,
    trees: &[Tree],
) -> Result<Expr, Failure<DomainRefusal>>
    ensures { Gives (λ e. e) result
        (duration scope.now.domain.now scope.now.params.now (duration_in (forms trees.now))) }
{
    match at(items_at(after(Mark::DurationKey, trees)), 2) {
        Some(tree) => value(alloc, &scope.binder(), scope.params, tree),
        None => Ok(Expr::Num(Num::ZERO)),
    }
}

/// The parts of an action's condition, of which there are none where no condition is written.
fn parts(
    alloc: Global,
    scope: &ActionScope,
    trees: &[Tree],
) -> Result<Conditions, Failure<DomainRefusal>>
    ensures { Gives (λ p. p) result
        (parts scope.now.domain.now scope.now.params.now (condition_in (forms trees.now))) }
{
    match at(after(Mark::ConditionKey, trees), 0) {
        Some(tree) => {
            let mut all = room_for_conditions(alloc, rest(items(tree)))?;
            timed_condition(alloc, scope, tree, &mut all)?;
            Ok(all)
        }
        None => Ok(room_for_conditions(alloc, &[])?),
    }
}

/// The parts of an action's effect, of which there are none where no effect is written.
fn changes(
    alloc: Global,
    scope: &ActionScope,
    trees: &[Tree],
) -> Result<Effects, Failure<DomainRefusal>>
    ensures { Gives (λ c. c) result
        (changes scope.now.domain.now scope.now.params.now (effect_in (forms trees.now))) }
{
    match at(after(Mark::EffectKey, trees), 0) {
        Some(tree) => {
            let mut all = room_for_effects(alloc, rest(items(tree)))?;
            timed_effect(alloc, scope, tree, &mut all)?;
            Ok(all)
        }
        None => Ok(room_for_effects(alloc, &[])?),
    }
}

/// An action of this name with these parameters: its duration is judged first, then its condition, then its effect.
fn action_body(
    alloc: Global,
    d: &Declared,
    name: Name,
    params: Vec<Param>,
    trees: &[Tree],
) -> Result<ActionDef, Failure<DomainRefusal>>
    requires { length params.items ≤ MOST_PARAMS }
    ensures { Gives (λ a. a) result (action_body d.now name params.items (forms trees.now)) }
{
    let scope = ActionScope {
        domain: d,
        params: &params,
    };
    let duration = duration(alloc, &scope, trees)?;
    let conditions = parts(alloc, &scope, trees)?;
    let effects = changes(alloc, &scope, trees)?;
    Ok(ActionDef {
        name,
        params: Params::of(params),
        duration,
        conditions,
        effects,
    })
}

/// Whether one of these has the name.
fn is_there(actions: &[ActionDef], name: Name) -> bool
    ensures { result ≡ list_any (λ action. same_name name action.name) actions.now }
{
    actions.iter().any(|action| name == action.name)
}

/// Puts an action at the end.
fn add_action(
    alloc: Global,
    d: &Declared,
    trees: &[Tree],
    before: &mut Seq<ActionDef>,
) -> Result<(), Failure<DomainRefusal>>
    ensures { Gives (λ _. before.new) result (action d.now (forms trees.now) before.old) }
{
    let word = head(trees);
    let taken = is_there(before.as_slice(), word.name);
    match fault_of_new(Cap::Actions, MOST_ACTIONS, before.len(), taken, word) {
        Some(fault) => Err(Failure::Refused(fault)),
        None => {
            let inside = items_at(after(Mark::Parameters, trees));
            let params = listed(alloc, d, Listing::Params, &[], inside)?;
            before.push(action_body(alloc, d, word.name, params, trees)?)?;
            Ok(())
        }
    }
}

fn is_action(mark: Mark) -> bool
    ensures { result ≡ is DurativeAction mark }
{
    mark == Mark::DurativeAction
}

/// The actions among these sections. The refusal is the first fault.
pub fn actions(
    alloc: Global,
    d: &Declared,
    trees: &[Tree],
) -> Result<Seq<ActionDef>, Failure<DomainRefusal>>
    ensures { Gives (λ v. v) result (actions d.now (forms trees.now) []) }
{
    let mut all = Seq::new(alloc);
    let mut i = 0;
    while i < trees.len() {
        let section = items(&trees[i]);
        if is_action(head(section).mark) {
            add_action(alloc, d, rest(section), &mut all)?;
        }
        i += 1;
    }
    Ok(all)
}
