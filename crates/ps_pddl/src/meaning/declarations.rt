//! What a domain's predicates and functions declare.
ghost use Rattle.std.specs.Prelude.{◌≡◌, []};
ghost use Rattle.std.specs.List.{list_any};
ghost use Rattle.ps_world.specs.Failures.{Gives};
ghost use Rattle.ps_world.specs.Names.{same_name};
ghost use Rattle.ps_pddl.specs.Meaning.{all_declared, declared};
ghost use Rattle.ps_pddl.specs.Forms.{forms};

use super::lists::{Listing, fault_of_new, listed};
use crate::refusals::{Cap, DomainRefusal};
use ps_domain::Declared;
use ps_lists::{Tree, head, rest};
use ps_world::{Decl, Failure, Name, Seq};
use std::alloc::Global;

/// How many predicates a domain has at most, and how many functions.
const MOST_DECLS: usize = 256;

/// Whether one of these has the name.
fn is_declared(decls: &[Decl], name: Name) -> bool
    ensures { result ≡ list_any (λ decl. same_name name decl.name) decls.now }
{
    decls.iter().any(|decl| name == decl.name)
}

/// Puts one declaration, `NAME VLIST`, at the end of its list.
fn add_declared(
    alloc: Global,
    d: &Declared,
    which: Cap,
    inside: &[Tree],
    before: &mut Seq<Decl>,
) -> Result<(), Failure<DomainRefusal>>
    ensures { Gives (λ _. before.new) result (declared d.now which (forms inside.now) before.old) }
{
    let word = head(inside);
    let taken = is_declared(before.as_slice(), word.name);
    match fault_of_new(which, MOST_DECLS, before.len(), taken, word) {
        Some(fault) => Err(Failure::Refused(fault)),
        None => {
            let params = Seq::of(listed(alloc, d, Listing::Params, &[], rest(inside))?);
            before.push(Decl {
                name: word.name,
                params,
            })?;
            Ok(())
        }
    }
}

/// The predicates or the functions that a section declares. What stands between them says only that functions are numbers.
/// The refusal is the first fault.
pub fn all_declared(
    alloc: Global,
    d: &Declared,
    which: Cap,
    trees: &[Tree],
) -> Result<Seq<Decl>, Failure<DomainRefusal>>
    ensures { Gives (λ v. v) result (all_declared d.now which (forms trees.now) []) }
{
    let mut all = Seq::new(alloc);
    let mut i = 0;
    while i < trees.len() {
        match &trees[i] {
            Tree::Word(_) => {}
            Tree::Group(inside) => add_declared(alloc, d, which, inside.as_slice(), &mut all)?,
        }
        i += 1;
    }
    Ok(all)
}
