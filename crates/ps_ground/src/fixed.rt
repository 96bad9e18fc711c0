//! Facts of predicates that no action adds, by which many acts needn't be tried.
ghost use Rattle.std.specs.Prelude.{◌≡◌, ◌++◌, ◌≤◌, [], None, true, false, filter, filter_map, flat_map, fold, length, map, not, option_to_list, List, IfOk, OnOk};
ghost use Rattle.std.specs.List.{list_all, list_any};
ghost use Rattle.std.specs.BTreeSet.{insert_key};
ghost use Rattle.ps_world.specs.CondViews.{cond_tree};
ghost use Rattle.ps_world.specs.Facts.{fact_cmp};
ghost use Rattle.ps_world.specs.Knowledge.{same_fact};
ghost use Rattle.ps_world.specs.Names.{name_cmp, same_name};
ghost use Rattle.ps_world.specs.declared.domains.Domain.{Domain as DomainView};
ghost use Rattle.ps_world.specs.declared.facts.Fact.{Fact as FactView};
ghost use Rattle.ps_world.specs.declared.known.Knowledge.{Knowledge as KnowledgeView};
ghost use Rattle.ps_world.specs.declared.names.Name.{Name as NameView};
ghost use Rattle.ps_action.specs.Grounding.{grounded, put_cond};
ghost use Rattle.ps_action.specs.Truth.{all_true, is_true};
ghost use Rattle.ps_action.specs.declared.acts.Act.{Act as ActView};
ghost use Rattle.ps_ground.specs.Fixed.{AreFixed, all_heads_added, head_added, heads_added, heads_in, heads_in_part, is_from, possible_facts};
ghost use Rattle.ps_ground.specs.Atoms.{AreAtoms, IsOver, adds};
ghost use Rattle.ps_ground.specs.States.{State, at, stepped};
ghost use Rattle.ps_ground.specs.Thinned.{IsUselessFrom};

use super::atoms::{Atoms, ground_in};
use ps_domain::Expert;
use ps_problem::Problem;
use ps_world::{
    ActionDef, Cond, Conds, Effect, Fact, Guarded, Lifted, MOST_ARGUMENTS, Name, Spread, Term,
};
use std::alloc::{AllocError, Global};
use std::collections::BTreeSet;

/// The predicates that actions add, and the facts of the others that are known at first.
#[derive(Drop)]
pub struct Fixed {
    pub heads: BTreeSet<Name>,
    pub facts: Atoms,
}

/// Puts in the predicate of the fact that an effect adds, if it adds one.
fn add_head(heads: &mut BTreeSet<Name>, effect: &Effect) -> Result<(), AllocError>
    ensures { OnOk result (heads.new.keys
        ≡ fold (insert_key name_cmp) heads.old.keys (option_to_list (head_added effect.now))) }
{
    if let Effect::Add(lifted) = effect {
        heads.insert(lifted.head)?;
    }
    Ok(())
}

/// Puts in the predicates of the facts that these effects add. Where memory runs out some of the first may be there.
fn add_heads(heads: &mut BTreeSet<Name>, effects: &[Effect]) -> Result<(), AllocError>
    ensures { OnOk result (heads.new.keys
        ≡ fold (insert_key name_cmp) heads.old.keys (filter_map head_added effects.now)) }
{
    for effect in effects {
        add_head(heads, effect)?;
    }
    Ok(())
}

/// Puts in the predicates of the facts that a part may add. Where memory runs out some of the first may be there.
fn add_part_heads(heads: &mut BTreeSet<Name>, part: &Guarded) -> Result<(), AllocError>
    ensures { OnOk result (heads.new.keys
        ≡ fold (insert_key name_cmp) heads.old.keys (heads_in_part part.now)) }
{
    match part {
        Guarded::Plain(effect) => add_head(heads, effect),
        Guarded::When(_, effects) => add_heads(heads, effects.as_slice()),
    }
}

/// Puts in the predicates of the facts that these parts may add. Where memory runs out some of the first may be there.
fn add_parts_heads(heads: &mut BTreeSet<Name>, parts: &[Guarded]) -> Result<(), AllocError>
    ensures { OnOk result (heads.new.keys
        ≡ fold (insert_key name_cmp) heads.old.keys (flat_map heads_in_part parts.now)) }
{
    for part in parts {
        add_part_heads(heads, part)?;
    }
    Ok(())
}

/// Puts in those of the facts that what stands in a list of effects may add. Where memory runs out some of the first may be there.
fn add_spread_heads(heads: &mut BTreeSet<Name>, spread: &Spread) -> Result<(), AllocError>
    ensures { OnOk result (heads.new.keys
        ≡ fold (insert_key name_cmp) heads.old.keys (heads_in spread.now)) }
{
    match spread {
        Spread::Once(part) => add_part_heads(heads, part),
        Spread::ForAll(_, parts) => add_parts_heads(heads, parts.as_slice()),
    }
}

/// Puts in the predicates of the facts that a list of effects may add. Where memory runs out some of the first may be there.
fn add_list_heads(heads: &mut BTreeSet<Name>, effects: &[Spread]) -> Result<(), AllocError>
    ensures { OnOk result (heads.new.keys
        ≡ fold (insert_key name_cmp) heads.old.keys (flat_map heads_in effects.now)) }
{
    for spread in effects {
        add_spread_heads(heads, spread)?;
    }
    Ok(())
}

/// Puts in the predicates of the facts that these actions may add. Where memory runs out some of the first may be there.
fn add_all_heads(heads: &mut BTreeSet<Name>, actions: &[ActionDef]) -> Result<(), AllocError>
    ensures { OnOk result (heads.new.keys
        ≡ fold (insert_key name_cmp) heads.old.keys (flat_map heads_added actions.now)) }
{
    for action in actions {
        add_list_heads(heads, action.effects.at_start.as_slice())?;
        add_list_heads(heads, action.effects.at_end.as_slice())?;
    }
    Ok(())
}

/// The predicates of the facts that some action may add.
fn heads_of(alloc: Global, expert: &Expert) -> Result<BTreeSet<Name>, AllocError>
    ensures { IfOk result (λ heads. heads.keys
        ≡ fold (insert_key name_cmp) [] (all_heads_added expert.now)) }
{
    let mut heads = BTreeSet::new(alloc);
    add_all_heads(&mut heads, expert.domain().actions.as_slice())?;
    Ok(heads)
}

/// Those of these facts whose predicates are none of these.
fn others_of(alloc: Global, heads: &BTreeSet<Name>, facts: &[Fact]) -> Result<Vec<Fact>, AllocError>
    ensures { IfOk result (λ others. others.items
        ≡ filter (λ f. not (list_any (same_name f.head) heads.now.keys)) facts.now) }
{
    let mut others = Vec::new(alloc);
    for fact in facts {
        if !heads.contains(&fact.head) {
            others.push(*fact)?;
        }
    }
    Ok(others)
}

/// The atoms of these facts.
fn atoms_of(alloc: Global, facts: &[Fact]) -> Result<Atoms, AllocError>
    ensures { IfOk result (λ atoms. AreAtoms atoms facts.now) }
{
    let atoms = Atoms::of(alloc, facts, &[])?;
    Ok(atoms)
}

/// Whether a term is no variable before this one.
fn is_from(from: usize, term: &Term) -> bool
    ensures { result ≡ is_from from term.now }
{
    match term {
        Term::Var(i) => from <= *i as usize,
        Term::Const(_) => true,
    }
}

/// Whether a term is this variable.
fn is_variable(number: usize, term: &Term) -> bool {
    match term {
        Term::Var(i) => *i as usize == number,
        Term::Const(_) => false,
    }
}

/// Whether no term is a variable before this one.
fn are_from(from: usize, terms: &[Term]) -> bool
    ensures { result ≡ list_all (is_from from) terms.now }
{
    terms.iter().all(|term| is_from(from, term))
}

/// Whether this variable is the first of these terms. Where none is a variable, 0 counts as the first.
fn is_first(number: usize, terms: &[Term]) -> bool
    ensures { result ≡ true → list_all (is_from number) terms.now ≡ true }
{
    if !are_from(number, terms) {
        return false;
    }
    if terms.iter().any(|term| is_variable(number, term)) {
        return true;
    }
    number == 0 && are_from(MOST_ARGUMENTS, terms)
}

/// Whether a condition holds in no state, since it says that a fact is known which never is, whatever the arguments before. Only a
/// condition of which the argument after those is the first is looked at.
fn never_holds(fixed: &Fixed, before: &[Name], args: &[Name], cond: &Cond) -> bool
    ensures { result ≡ true → (tail : List NameView) → args.now ≡ before.now ++ tail
        → (first : List NameView) → length first ≡ length before.now
        → (d : DomainView) (k : KnowledgeView) (s : State)
        → AreFixed fixed.now.heads.keys fixed.now.facts s.facts
        → is_true d (at k s) (put_cond (first ++ tail) (cond_tree cond.now)) ≡ false }
{
    match cond {
        Cond::Holds(packed) => {
            let lifted = packed.get();
            if !is_first(before.len(), lifted.terms.as_slice()) {
                return false;
            }
            fixed.is_tied(lifted.head) && fixed.lacks(&ground_in(args, &lifted))
        }
        _ => false,
    }
}

/// Whether one of these conditions holds in no state, as `never_holds` says it of each.
fn has_never_holding(fixed: &Fixed, before: &[Name], args: &[Name], conds: &Conds) -> bool
    ensures { result ≡ true → (tail : List NameView) → args.now ≡ before.now ++ tail
        → (first : List NameView) → length first ≡ length before.now
        → (d : DomainView) (k : KnowledgeView) (s : State)
        → AreFixed fixed.now.heads.keys fixed.now.facts s.facts
        → all_true d (at k s) (map (put_cond (first ++ tail)) conds.now) ≡ false }
{
    for cond in conds.as_slice() {
        if never_holds(fixed, before, args, cond) {
            return true;
        }
    }
    false
}

impl Fixed {
    /// What is fixed in a domain and what is known at first.
    pub fn of(alloc: Global, expert: &Expert, problem: &Problem) -> Result<Fixed, AllocError>
        ensures { IfOk result (λ fixed. AreFixed fixed.heads.keys fixed.facts
            (possible_facts expert.now problem.now)) }
    {
        let heads = heads_of(alloc, expert)?;
        let facts = problem.facts()?;
        let others = others_of(alloc, &heads, &facts)?;
        let facts = atoms_of(alloc, &others)?;
        Ok(Fixed { heads, facts })
    }

    /// Whether no action adds facts of a predicate.
    fn is_tied(&self, head: Name) -> bool
        ensures { result ≡ true → list_any (same_name head) self.now.heads.keys ≡ false }
    {
        !self.heads.contains(&head)
    }

    /// Whether a fact isn't known at first. Where its predicate is tied, it never is.
    fn lacks(&self, fact: &Fact) -> bool
        ensures { result ≡ true → list_any (same_fact fact.now) self.now.facts ≡ false }
    {
        self.facts.place_of(fact).is_none()
    }

    /// Whether a condition of each act of this action with these arguments, whatever those before, holds in no state, since it says
    /// that a fact is known which never is. Only conditions of which the argument after those is the first are looked at.
    fn bars(&self, action: &ActionDef, before: &[Name], args: &[Name]) -> bool
        ensures { result ≡ true → (tail : List NameView) → args.now ≡ before.now ++ tail
            → (act : ActView) (first : List NameView) → length first ≡ length before.now
            → act.args ≡ first ++ tail
            → (d : DomainView) (k : KnowledgeView) (facts : List FactView)
            → AreFixed self.now.heads.keys self.now.facts facts
            → AreAtoms facts (adds d k (grounded action.now act)) → (s : State) → IsOver facts s
            → stepped d k s (grounded action.now act) ≡ None }
    {
        // What no action changes mostly has to hold over all.
        if has_never_holding(self, before, args, &action.conditions.over_all) {
            return true;
        }
        if has_never_holding(self, before, args, &action.conditions.at_start) {
            return true;
        }
        has_never_holding(self, before, args, &action.conditions.at_end)
    }

    /// Whether a condition says that a fact is known whose predicate is tied, and this variable is the first that it speaks of.
    fn asks(&self, number: usize, cond: &Cond) -> bool {
        match cond {
            Cond::Holds(packed) => {
                let lifted = packed.get();
                is_first(number, lifted.terms.as_slice()) && self.is_tied(lifted.head)
            }
            _ => false,
        }
    }

    /// Whether one of these conditions does so.
    fn asks_any(&self, number: usize, conds: &Conds) -> bool {
        conds.as_slice().iter().any(|cond| self.asks(number, cond))
    }

    /// Whether `is_useless` may find any act of the action with this name, where so many arguments are before.
    pub fn has_asked(&self, expert: &Expert, name: Name, before: usize) -> bool {
        match expert.action(name) {
            Some(action) => {
                let conditions = &action.conditions;
                self.asks_any(before, &conditions.over_all)
                    || self.asks_any(before, &conditions.at_start)
                    || self.asks_any(before, &conditions.at_end)
            }
            None => false,
        }
    }

    /// Whether each act of the action with this name leads nowhere from any state where its arguments end like these, whatever those
    /// before, since a condition of it says that a fact is known which never is, or since it has too many arguments. It may be false
    /// where they lead nowhere. Conditions are only looked at where they are asked.
    pub fn is_useless(
        &self,
        expert: &Expert,
        name: Name,
        is_asked: bool,
        before: &[Name],
        args: &[Name],
    ) -> bool
        ensures useless { result ≡ true → (tail : List NameView) → args.now ≡ before.now ++ tail
            → IsUselessFrom expert.now self.now.heads.keys self.now.facts name
            (length before.now) tail }
        ensures few { result ≡ false → length args.now ≤ MOST_ARGUMENTS }
    {
        match expert.action(name) {
            Some(action) => {
                args.len() > action.params.len() || (is_asked && self.bars(action, before, args))
            }
            None => true,
        }
    }
}
