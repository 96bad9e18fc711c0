//! The condition and the fact that nested lists of names are.
ghost use Rattle.std.specs.Prelude.{◌≡◌, IfOk, map};
ghost use Rattle.ps_lists.specs.Nested.{nesteds};
ghost use Rattle.ps_lists.specs.NestedViews.{nested};
ghost use Rattle.ps_script.specs.Goals.{condition, fact_of, first_condition};

use super::names::{LineNames, args_of};
use ps_conditions::condition as read_condition;
use ps_lists::{Tree, head, rest};
use ps_world::{Cond, Conds, Fact, Failure};
use std::alloc::{AllocError, Global};

/// `(NAME NAME*)`, by what stands between its parentheses, as a fact.
pub fn fact_of(trees: &[Tree]) -> Fact
    ensures { result ≡ fact_of (nesteds (map nested trees.now)) }
{
    Fact {
        head: head(trees).name,
        args: args_of(rest(trees)),
    }
}

/// The condition that a tree is.
#[tactic(auto, using(crate::proofs::Lists::names_mean))]
fn condition(alloc: Global, tree: &Tree) -> Result<Cond, AllocError>
    ensures { IfOk result (λ c. c ≡ condition (nested tree.now)) }
{
    match read_condition(alloc, &LineNames, &[], tree) {
        Ok(cond) => Ok(cond),
        Err(Failure::OutOfMemory) => Err(AllocError),
        Err(Failure::Refused(never)) => match never {},
    }
}

/// The first of these conditions.
pub fn first_condition(alloc: Global, trees: &[Tree]) -> Result<Cond, AllocError>
    ensures { IfOk result (λ c. c ≡ first_condition (nesteds (map nested trees.now))) }
{
    match trees {
        [] => Ok(Cond::And(Conds::new(alloc))),
        [tree, ..] => condition(alloc, tree),
    }
}
