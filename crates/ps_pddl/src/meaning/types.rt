//! What the list of types declares.
ghost use Rattle.std.specs.Prelude.{◌≡◌, [], find, length, IfOk};
ghost use Rattle.ps_world.specs.Failures.{Gives};
ghost use Rattle.ps_pddl.specs.Lists.{kept};
ghost use Rattle.ps_pddl.specs.Forms.{forms};
ghost use Rattle.ps_pddl.specs.Types.{acyclic, is_cyclic, leads_to, names_of, with_types};
ghost use Rattle.ps_pddl.specs.declared.meaning.lists.Listing.TheVariants.{Types};

use super::lists::{Listing, listed};
use crate::refusals::DomainRefusal;
use ps_domain::Declared;
use ps_grammar::Mark;
use ps_lists::{Tree, word_of};
use ps_world::{Failure, Name, Param, Seq};
use std::alloc::{AllocError, Global};

/// The names of a list, with the parent `object`: a parent may be declared after its child.
fn names_of(alloc: Global, trees: &[Tree]) -> Result<Vec<Param>, AllocError>
    ensures { IfOk result (λ v. v.items ≡ names_of (forms trees.now) []) }
{
    let mut all = Vec::new(alloc);
    let mut i = 0;
    while i < trees.len() {
        let word = word_of(&trees[i]);
        if word.mark == Mark::Minus {
            // The type is passed over.
            i += 2;
        } else {
            all.push(Param {
                name: word.name,
                kind: Name::OBJECT,
            })?;
            i += 1;
        }
    }
    Ok(all)
}

fn type_count(d: &Declared) -> usize
    ensures { result ≡ length d.now.types }
{
    d.domain().types.len()
}

/// Whether parents lead from one type to the other. Nothing leads through `object`, and no way is longer than there are types.
fn leads_to(d: &Declared, from: Name, goal: Name) -> bool
    ensures { result ≡ leads_to (length d.now.types) d.now from goal }
{
    let mut at = from;
    for _climbed in 0..type_count(d) {
        if at == goal {
            return true;
        }
        if at == Name::OBJECT {
            return false;
        }
        match d.parent_of(at) {
            Some(parent) => at = parent,
            None => return false,
        }
    }
    at == goal
}

/// Whether a type's parents lead back to it. `object` has no parent.
fn is_cyclic(d: &Declared, param: &Param) -> bool
    ensures { result ≡ is_cyclic d.now param.now }
{
    param.name == Name::OBJECT || leads_to(d, param.kind, param.name)
}

/// The names that count.
fn kept(alloc: Global, all: &[Param]) -> Result<Vec<Param>, AllocError>
    ensures { IfOk result (λ v. v.items ≡ kept Types all.now) }
{
    all.iter()
        .copied()
        .filter(|p| Listing::Types.counts(p))
        .collect(alloc)
}

/// The first type whose parents lead back to it.
fn first_cyclic(d: &Declared) -> Option<Param>
    ensures { result ≡ find (is_cyclic d.now) d.now.types }
{
    d.domain()
        .types
        .as_slice()
        .iter()
        .copied()
        .find(|param| is_cyclic(d, param))
}

/// Whether no type's parents lead back to it. The refusal names the first whose do.
fn check_parents(d: &Declared) -> Result<(), Failure<DomainRefusal>>
    ensures { Gives (λ _. d.now) result (acyclic d.now (find (is_cyclic d.now) d.now.types)) }
{
    match first_cyclic(d) {
        Some(param) => Err(Failure::Refused(DomainRefusal::Cycle { name: param.name })),
        None => Ok(()),
    }
}

/// Declares the types of a list. The refusal is the first fault: one of the list, or else the first type whose parents lead back to
/// it.
pub fn declare_types(
    alloc: Global,
    d: &mut Declared,
    trees: &[Tree],
) -> Result<(), Failure<DomainRefusal>>
    ensures { Gives (λ _. d.new) result (with_types d.old (forms trees.now)) }
{
    d.set_types(alloc, Seq::of(names_of(alloc, trees)?))?;
    let all = listed(alloc, d, Listing::Types, &[], trees)?;
    d.set_types(alloc, Seq::of(kept(alloc, &all)?))?;
    check_parents(d)
}
