//! Conditions. Contracts see a boxed condition as its tree, `CondTree` of specs/Trees.antt, and a list of conditions as the list of their trees.
ghost use Rattle.std.specs.Prelude.{◌≡◌, ◌==◌, [], ◌∷◌, ◌++◌, length, map, IfOk, OnOk, OnErr};
ghost use Rattle.ps_world.specs.Same.{is_same};
ghost use Rattle.ps_world.specs.Codes.{params_code};
ghost use Rattle.ps_world.specs.Trees.{cond_tree_code, conds_code};
ghost use Rattle.ps_world.specs.CondViews.{cond_tree};

use super::domains::{Param, Params};
use super::expressions::BoxedExpr;
use super::lists::Duplicate;
use super::names::Name;
use super::packed::PackedLifted;
use super::schemas::Term;
use std::alloc::{AllocError, Global};
use std::marker::Model;

/// How two numbers are compared.
#[derive(Clone, Copy, PartialEq, Eq)]
pub enum Rel {
    Lt,
    Le,
    Eq,
    Ge,
    Gt,
}

/// A condition.
#[cycle(cond)]
#[derive(Drop)]
pub enum Cond {
    /// All of these.
    And(Conds),
    /// Any of these.
    Or(Conds),
    Not(BoxedCond),
    /// The second, where the first holds.
    Imply(BoxedCond, BoxedCond),
    /// The fact is known.
    Holds(PackedLifted),
    /// Both are the same.
    Same(Term, Term),
    /// The numbers compare so.
    Cmp(Rel, BoxedExpr, BoxedExpr),
    /// The instance has this type or one below it.
    IsA(Term, Name),
    /// Some choice of instances that fit these variables makes it true. In it they are numbered after the variables outside.
    ForSome(Params, BoxedCond),
    /// Each choice of instances that fit these variables makes it true. In it they are numbered after the variables outside.
    ForAll(Params, BoxedCond),
}

/// A list of conditions, which contracts see as the list of their trees.
#[cycle(cond)]
#[derive(Drop)]
pub struct Conds {
    items: Vec<Cond>,
}

/// One condition, behind a box. Contracts see its tree.
#[cycle(cond)]
#[derive(Drop)]
pub struct BoxedCond {
    inner: Box<Cond>,
}

impl Model for Conds {
    ghost use Rattle.std.specs.Prelude.{List, map};
    ghost use Rattle.ps_world.specs.Trees.{CondTree, conds_code, conds_rank};

    ghost Value = { List CondTree };

    ghost coded = { conds_code };

    ghost use Rattle.ps_world.specs.CondViews.{cond_tree};

    ghost view = { λ a. map cond_tree a.items.items };

    ghost size = { conds_rank };

    ghost use Rattle.ps_world.specs.CondFalls.{conds_fall};

    ghost size_decreases = { λ a h. conds_fall a.items.items };
}

impl Model for BoxedCond {
    ghost use Rattle.ps_world.specs.Trees.{CondTree, cond_tree_code, cond_rank};

    ghost Value = { CondTree };

    ghost coded = { cond_tree_code };

    ghost use Rattle.ps_world.specs.CondViews.{cond_tree};

    ghost view = { λ a. cond_tree a.inner.value };

    ghost size = { cond_rank };

    ghost use Rattle.ps_world.specs.CondFalls.{cond_falls};

    ghost size_decreases = { λ a h. cond_falls a.inner.value };
}

impl Conds {
    /// A list of no conditions.
    pub fn new(alloc: Global) -> Self
        ensures { result ≡ [] }
    {
        Conds {
            items: Vec::new(alloc),
        }
    }

    /// The list of these conditions. It takes no memory.
    pub fn of(items: Vec<Cond>) -> Self
        ensures { result ≡ map cond_tree items.items }
    {
        Conds { items }
    }

    /// Puts a condition at the end. Where memory runs out nothing changes.
    pub fn push(&mut self, cond: Cond) -> Result<(), AllocError>
        ensures ok { OnOk result (self.new ≡ self.old ++ cond_tree cond ∷ []) }
        ensures err { OnErr result (self.new ≡ self.old) }
    {
        self.items.push(cond)?;
        Ok(())
    }

    /// How many conditions.
    pub fn len(&self) -> usize
        ensures { result ≡ length self.now }
    {
        self.items.len()
    }

    /// Whether there is no condition.
    pub fn is_empty(&self) -> bool
        ensures { result ≡ (length self.now == 0) }
    {
        self.items.is_empty()
    }

    /// The conditions in order.
    pub fn as_slice(&self) -> &[Cond]
        ensures { map cond_tree result.now ≡ self.now }
    {
        self.items.as_slice()
    }
}

impl BoxedCond {
    /// The condition, put into a box.
    pub fn new(alloc: Global, inner: Cond) -> Result<Self, AllocError>
        ensures { IfOk result (λ b. b ≡ cond_tree inner) }
    {
        Ok(BoxedCond {
            inner: Box::new(alloc, inner)?,
        })
    }

    /// The condition.
    pub fn get(&self) -> &Cond
        ensures { cond_tree result.now ≡ self.now }
    {
        &self.inner
    }
}

#[cycle(copy_cond)]
fn copy_cond(alloc: Global, cond: &Cond) -> Result<Cond, AllocError>
    ensures { IfOk result (λ c. c ≡ cond.now) }
{
    match cond {
        Cond::And(parts) => Ok(Cond::And(copy_conds(alloc, parts)?)),
        Cond::Or(parts) => Ok(Cond::Or(copy_conds(alloc, parts)?)),
        Cond::Not(inner) => Ok(Cond::Not(copy_boxed_cond(alloc, inner)?)),
        Cond::Imply(one, other) => {
            let one = copy_boxed_cond(alloc, one)?;
            let other = copy_boxed_cond(alloc, other)?;
            Ok(Cond::Imply(one, other))
        }
        Cond::Holds(lifted) => Ok(Cond::Holds(lifted.copy(alloc)?)),
        Cond::Same(one, other) => Ok(Cond::Same(*one, *other)),
        Cond::Cmp(rel, left, right) => {
            let left = left.copy(alloc)?;
            let right = right.copy(alloc)?;
            Ok(Cond::Cmp(*rel, left, right))
        }
        Cond::IsA(term, kind) => Ok(Cond::IsA(*term, *kind)),
        Cond::ForSome(params, inner) => {
            let params = params.copy(alloc)?;
            Ok(Cond::ForSome(params, copy_boxed_cond(alloc, inner)?))
        }
        Cond::ForAll(params, inner) => {
            let params = params.copy(alloc)?;
            Ok(Cond::ForAll(params, copy_boxed_cond(alloc, inner)?))
        }
    }
}

#[cycle(copy_cond)]
fn copy_boxed_cond(alloc: Global, boxed: &BoxedCond) -> Result<BoxedCond, AllocError>
    ensures { IfOk result (λ c. c ≡ boxed.now) }
{
    let inner = copy_cond(alloc, &boxed.inner)?;
    Ok(BoxedCond {
        inner: Box::new(alloc, inner)?,
    })
}

#[cycle(copy_cond)]
fn copy_conds(alloc: Global, conds: &Conds) -> Result<Conds, AllocError>
    ensures { IfOk result (λ c. c ≡ conds.now) }
{
    let mut items = Vec::with_capacity(alloc, conds.items.len())?;
    for cond in &conds.items {
        items.push(copy_cond(alloc, cond)?)?;
    }
    Ok(Conds { items })
}

impl Duplicate for Cond {
    fn copy(&self, alloc: Global) -> Result<Self, AllocError> {
        copy_cond(alloc, self)
    }
}

impl Duplicate for BoxedCond {
    fn copy(&self, alloc: Global) -> Result<Self, AllocError> {
        copy_boxed_cond(alloc, self)
    }
}

impl Duplicate for Conds {
    fn copy(&self, alloc: Global) -> Result<Self, AllocError> {
        copy_conds(alloc, self)
    }
}

/// Whether two lists of variables are the same.
fn is_same_params(a: &[Param], b: &[Param]) -> bool
    ensures { result ≡ is_same params_code a.now b.now }
{
    match (a.split_first(), b.split_first()) {
        (None, None) => true,
        (Some((one, rest)), Some((other, others))) => {
            one.name == other.name && one.kind == other.kind && is_same_params(rest, others)
        }
        _ => false,
    }
}

#[cycle(same_cond)]
fn is_same_cond(a: &Cond, b: &Cond) -> bool
    ensures { result ≡ is_same cond_tree_code (cond_tree a.now) (cond_tree b.now) }
{
    match (a, b) {
        (Cond::And(a), Cond::And(b)) => is_same_conds(a, b),
        (Cond::Or(a), Cond::Or(b)) => is_same_conds(a, b),
        (Cond::Not(a), Cond::Not(b)) => is_same_boxed_cond(a, b),
        (Cond::Imply(one, other), Cond::Imply(one_b, other_b)) => {
            is_same_boxed_cond(one, one_b) && is_same_boxed_cond(other, other_b)
        }
        (Cond::Holds(a), Cond::Holds(b)) => a.get() == b.get(),
        (Cond::Same(one, other), Cond::Same(one_b, other_b)) => one == one_b && other == other_b,
        (Cond::Cmp(rel, left, right), Cond::Cmp(rel_b, left_b, right_b)) => {
            rel == rel_b && left == left_b && right == right_b
        }
        (Cond::IsA(term, kind), Cond::IsA(term_b, kind_b)) => term == term_b && kind == kind_b,
        (Cond::ForSome(params, inner), Cond::ForSome(params_b, inner_b)) => {
            is_same_params(params.as_slice(), params_b.as_slice())
                && is_same_boxed_cond(inner, inner_b)
        }
        (Cond::ForAll(params, inner), Cond::ForAll(params_b, inner_b)) => {
            is_same_params(params.as_slice(), params_b.as_slice())
                && is_same_boxed_cond(inner, inner_b)
        }
        _ => false,
    }
}

#[cycle(same_cond)]
fn is_same_boxed_cond(a: &BoxedCond, b: &BoxedCond) -> bool
    ensures { result ≡ is_same cond_tree_code a.now b.now }
{
    is_same_cond(&a.inner, &b.inner)
}

#[cycle(same_cond)]
fn is_same_conds(a: &Conds, b: &Conds) -> bool
    ensures { result ≡ is_same conds_code a.now b.now }
{
    if a.items.len() != b.items.len() {
        return false;
    }
    for (i, cond) in a.items.iter().enumerate() {
        if !is_same_cond(cond, &b.items[i]) {
            return false;
        }
    }
    true
}

impl PartialEq for Cond {
    ghost use Rattle.std.specs.Cmp.{partial_equiv_from_equiv, on_equiv};
    ghost use Rattle.std.specs.Ordering.{on};
    ghost use Rattle.ps_world.specs.Same.{is_same, is_same_equiv};
    ghost use Rattle.ps_world.specs.Trees.{cond_tree_code};
    ghost use Rattle.ps_world.specs.CondViews.{cond_tree};

    ghost eq = { on cond_tree (is_same cond_tree_code) };

    ghost laws = { partial_equiv_from_equiv (on_equiv cond_tree (is_same_equiv cond_tree_code)) };

    fn eq(&self, other: &Self) -> bool {
        is_same_cond(self, other)
    }
}

impl Eq for Cond {
    ghost use Rattle.std.specs.Cmp.{on_equiv};
    ghost use Rattle.ps_world.specs.Same.{is_same_equiv};
    ghost use Rattle.ps_world.specs.Trees.{cond_tree_code};
    ghost use Rattle.ps_world.specs.CondViews.{cond_tree};

    ghost laws = { on_equiv cond_tree (is_same_equiv cond_tree_code) };
}

impl PartialEq for BoxedCond {
    ghost use Rattle.std.specs.Cmp.{partial_equiv_from_equiv};
    ghost use Rattle.ps_world.specs.Same.{is_same, is_same_equiv};
    ghost use Rattle.ps_world.specs.Trees.{cond_tree_code};

    ghost eq = { is_same cond_tree_code };

    ghost laws = { partial_equiv_from_equiv (is_same_equiv cond_tree_code) };

    fn eq(&self, other: &Self) -> bool {
        is_same_boxed_cond(self, other)
    }
}

impl Eq for BoxedCond {
    ghost use Rattle.ps_world.specs.Same.{is_same_equiv};
    ghost use Rattle.ps_world.specs.Trees.{cond_tree_code};

    ghost laws = { is_same_equiv cond_tree_code };
}

impl PartialEq for Conds {
    ghost use Rattle.std.specs.Cmp.{partial_equiv_from_equiv};
    ghost use Rattle.ps_world.specs.Same.{is_same, is_same_equiv};
    ghost use Rattle.ps_world.specs.Trees.{conds_code};

    ghost eq = { is_same conds_code };

    ghost laws = { partial_equiv_from_equiv (is_same_equiv conds_code) };

    fn eq(&self, other: &Self) -> bool {
        is_same_conds(self, other)
    }
}

impl Eq for Conds {
    ghost use Rattle.ps_world.specs.Same.{is_same_equiv};
    ghost use Rattle.ps_world.specs.Trees.{conds_code};

    ghost laws = { is_same_equiv conds_code };
}
