//! Which instances are named: as an argument or in a `(= a b)`. A head, a type and a variable name none.
ghost use Rattle.std.specs.Prelude.{◌≡◌};
ghost use Rattle.ps_world.specs.Trees.{cond_trees};
ghost use Rattle.ps_world.specs.ExprViews.{expr_tree};
ghost use Rattle.ps_world.specs.CondViews.{cond_tree};
ghost use Rattle.ps_world.specs.Knowledge.{is_among, term_names, terms_name, expr_names, cond_names, conds_name};

use super::conditions::{BoxedCond, Cond, Conds};
use super::expressions::{BoxedExpr, Expr};
use super::names::{Args, Name};
use super::schemas::{Term, Terms};

impl Args {
    /// Whether the name is one of these.
    pub fn contains(&self, name: Name) -> bool
        ensures { result ≡ is_among name self.now }
    {
        self.as_slice().iter().any(|there| name == *there)
    }
}

impl Term {
    /// Whether the term is this name, which a variable never is.
    pub fn names(&self, name: Name) -> bool
        ensures { result ≡ term_names name self.now }
    {
        match self {
            Term::Var(_) => false,
            Term::Const(there) => name == *there,
        }
    }
}

impl Terms {
    /// Whether one of the terms is this name.
    pub fn contains(&self, name: Name) -> bool
        ensures { result ≡ terms_name name self.now }
    {
        self.as_slice().iter().any(|term| term.names(name))
    }
}

impl Expr {
    /// Whether an argument in the expression is this name.
    pub fn names(&self, name: Name) -> bool
        ensures { result ≡ expr_names name (expr_tree self.now) }
    {
        is_in_expr(name, self)
    }
}

impl Cond {
    /// Whether an argument in the condition, or a side of a `(= a b)`, is this name.
    pub fn names(&self, name: Name) -> bool
        ensures { result ≡ cond_names name (cond_tree self.now) }
    {
        is_in_cond(name, self)
    }
}

#[cycle(is_in_expr)]
fn is_in_expr(name: Name, expr: &Expr) -> bool
    ensures { result ≡ expr_names name (expr_tree expr.now) }
{
    match expr {
        Expr::Num(_) => false,
        Expr::Fun(lifted) => lifted.terms.contains(name),
        Expr::Neg(inner) => is_in_boxed_expr(name, inner),
        Expr::Bin(_, left, right) => is_in_boxed_expr(name, left) || is_in_boxed_expr(name, right),
    }
}

#[cycle(is_in_expr)]
fn is_in_boxed_expr(name: Name, boxed: &BoxedExpr) -> bool
    ensures { result ≡ expr_names name boxed.now }
{
    is_in_expr(name, boxed.get())
}

#[cycle(is_in_cond)]
fn is_in_cond(name: Name, cond: &Cond) -> bool
    ensures { result ≡ cond_names name (cond_tree cond.now) }
{
    match cond {
        Cond::And(parts) | Cond::Or(parts) => is_in_conds(name, parts),
        Cond::Not(inner) => is_in_boxed_cond(name, inner),
        Cond::Imply(one, other) => is_in_boxed_cond(name, one) || is_in_boxed_cond(name, other),
        Cond::Holds(lifted) => lifted.get().terms.contains(name),
        Cond::Same(one, other) => one.names(name) || other.names(name),
        Cond::Cmp(_, left, right) => left.get().names(name) || right.get().names(name),
        Cond::IsA(term, _) => term.names(name),
        Cond::ForSome(_, inner) | Cond::ForAll(_, inner) => is_in_boxed_cond(name, inner),
    }
}

#[cycle(is_in_cond)]
fn is_in_boxed_cond(name: Name, boxed: &BoxedCond) -> bool
    ensures { result ≡ cond_names name boxed.now }
{
    is_in_cond(name, boxed.get())
}

#[cycle(is_in_cond)]
fn is_in_conds(name: Name, conds: &Conds) -> bool
    ensures { result ≡ conds_name name (cond_trees conds.now) }
{
    for cond in conds.as_slice() {
        if is_in_cond(name, cond) {
            return true;
        }
    }
    false
}
