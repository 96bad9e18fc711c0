//! What a domain's text means: the domain that its nested lists declare (PDDL 2.1, sections 2 to 5).
ghost use Rattle.ps_world.specs.Failures.{Gives};
ghost use Rattle.ps_pddl.specs.Meaning.{domain_of, with_actions, with_constants, with_functions, with_predicates, with_sections};
ghost use Rattle.ps_pddl.specs.Forms.{forms};

mod actions;
mod changes;
mod declarations;
mod effects;
mod flattening;
mod lists;
mod parts;
mod rooms;
mod scope;
mod terms;
mod types;
mod words;

use crate::refusals::{Cap, DomainRefusal};
use actions::actions;
use declarations::all_declared;
use lists::{Listing, listed};
use ps_domain::Declared;
use ps_grammar::Mark;
use ps_lists::{Tree, head, items_at, rest, section};
use ps_world::{Domain, Failure, Seq};
use std::alloc::Global;
use types::declare_types;

/// Declares the constants of a list.
fn declare_constants(
    alloc: Global,
    d: &mut Declared,
    trees: &[Tree],
) -> Result<(), Failure<DomainRefusal>>
    ensures { Gives (λ _. d.new) result (with_constants d.old (forms trees.now)) }
{
    let constants = listed(alloc, d, Listing::Constants, &[], trees)?;
    d.set_constants(alloc, Seq::of(constants))?;
    Ok(())
}

/// Declares the predicates of a section.
fn declare_predicates(
    alloc: Global,
    d: &mut Declared,
    trees: &[Tree],
) -> Result<(), Failure<DomainRefusal>>
    ensures { Gives (λ _. d.new) result (with_predicates d.old (forms trees.now)) }
{
    let predicates = all_declared(alloc, d, Cap::Predicates, trees)?;
    d.set_predicates(alloc, predicates)?;
    Ok(())
}

/// Declares the functions of a section.
fn declare_functions(
    alloc: Global,
    d: &mut Declared,
    trees: &[Tree],
) -> Result<(), Failure<DomainRefusal>>
    ensures { Gives (λ _. d.new) result (with_functions d.old (forms trees.now)) }
{
    let functions = all_declared(alloc, d, Cap::Functions, trees)?;
    d.set_functions(alloc, functions)?;
    Ok(())
}

/// Declares the actions among these sections.
fn declare_actions(
    alloc: Global,
    d: &mut Declared,
    trees: &[Tree],
) -> Result<(), Failure<DomainRefusal>>
    ensures { Gives (λ _. d.new) result (with_actions d.old (forms trees.now)) }
{
    let actions = actions(alloc, d, trees)?;
    d.set_actions(alloc, actions)?;
    Ok(())
}

/// Declares what sections declare. Types, constants, predicates, functions and actions are judged in this order.
fn declare_sections(
    alloc: Global,
    d: &mut Declared,
    trees: &[Tree],
) -> Result<(), Failure<DomainRefusal>>
    ensures { Gives (λ _. d.new) result (with_sections d.old (forms trees.now)) }
{
    declare_types(alloc, d, section(Mark::Types, trees))?;
    declare_constants(alloc, d, section(Mark::Constants, trees))?;
    declare_predicates(alloc, d, section(Mark::Predicates, trees))?;
    declare_functions(alloc, d, section(Mark::Functions, trees))?;
    declare_actions(alloc, d, trees)
}

/// The domain that a text of a domain's shape declares. The refusal is the first fault of its meaning.
#[tactic(auto, unfolding(crate::specs::Meaning::domain_of))]
pub fn domain_of(alloc: Global, trees: &[Tree]) -> Result<Domain, Failure<DomainRefusal>>
    ensures { Gives (λ d. d) result (domain_of (forms trees.now)) }
{
    let inside = items_at(trees);
    let name = head(rest(items_at(rest(inside)))).name;
    let mut declared = Declared::bare(alloc, name);
    declare_sections(alloc, &mut declared, rest(rest(inside)))?;
    Ok(declared.into_domain())
}
