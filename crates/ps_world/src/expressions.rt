//! Numeric expressions. Contracts see a boxed expression as its tree, `ExprTree` of specs/Trees.antt.
ghost use Rattle.std.specs.Prelude.{◌≡◌, IfOk};
ghost use Rattle.ps_world.specs.Same.{is_same};
ghost use Rattle.ps_world.specs.Trees.{expr_tree_code};
ghost use Rattle.ps_world.specs.ExprViews.{expr_tree};

use super::lists::Duplicate;
use super::numbers::Num;
use super::schemas::Lifted;
use std::alloc::{AllocError, Global};
use std::marker::Model;

/// An operation on two numbers.
#[derive(Clone, Copy, PartialEq, Eq)]
pub enum Op {
    Add,
    Sub,
    Mul,
    Div,
}

/// A numeric expression.
#[cycle(expr)]
#[derive(Drop)]
pub enum Expr {
    Num(Num),
    /// The value of a function at these terms.
    Fun(Lifted),
    Neg(BoxedExpr),
    Bin(Op, BoxedExpr, BoxedExpr),
}

/// One expression, behind a box.
#[cycle(expr)]
#[derive(Drop)]
pub struct BoxedExpr {
    inner: Box<Expr>,
}

impl Model for BoxedExpr {
    ghost use Rattle.ps_world.specs.Trees.{ExprTree, expr_tree_code, expr_rank};

    ghost Value = { ExprTree };

    ghost coded = { expr_tree_code };

    ghost use Rattle.ps_world.specs.ExprViews.{expr_tree};

    ghost view = { λ a. expr_tree a.inner.value };

    ghost size = { expr_rank };

    ghost use Rattle.ps_world.specs.ExprFalls.{expr_falls};

    ghost size_decreases = { λ a h. expr_falls a.inner.value };
}

impl BoxedExpr {
    /// The expression, put into a box.
    pub fn new(alloc: Global, inner: Expr) -> Result<Self, AllocError>
        ensures { IfOk result (λ b. b ≡ expr_tree inner) }
    {
        Ok(BoxedExpr {
            inner: Box::new(alloc, inner)?,
        })
    }

    /// The expression.
    pub fn get(&self) -> &Expr
        ensures { expr_tree result.now ≡ self.now }
    {
        &self.inner
    }
}

#[cycle(copy_expr)]
fn copy_expr(alloc: Global, expr: &Expr) -> Result<Expr, AllocError>
    ensures { IfOk result (λ c. c ≡ expr.now) }
{
    match expr {
        Expr::Num(number) => Ok(Expr::Num(*number)),
        Expr::Fun(lifted) => Ok(Expr::Fun(*lifted)),
        Expr::Neg(inner) => Ok(Expr::Neg(copy_boxed_expr(alloc, inner)?)),
        Expr::Bin(op, left, right) => {
            let left = copy_boxed_expr(alloc, left)?;
            let right = copy_boxed_expr(alloc, right)?;
            Ok(Expr::Bin(*op, left, right))
        }
    }
}

#[cycle(copy_expr)]
fn copy_boxed_expr(alloc: Global, boxed: &BoxedExpr) -> Result<BoxedExpr, AllocError>
    ensures { IfOk result (λ c. c ≡ boxed.now) }
{
    let inner = copy_expr(alloc, &boxed.inner)?;
    Ok(BoxedExpr {
        inner: Box::new(alloc, inner)?,
    })
}

impl Duplicate for Expr {
    fn copy(&self, alloc: Global) -> Result<Self, AllocError> {
        copy_expr(alloc, self)
    }
}

impl Duplicate for BoxedExpr {
    fn copy(&self, alloc: Global) -> Result<Self, AllocError> {
        copy_boxed_expr(alloc, self)
    }
}

#[cycle(same_expr)]
fn is_same_expr(a: &Expr, b: &Expr) -> bool
    ensures { result ≡ is_same expr_tree_code (expr_tree a.now) (expr_tree b.now) }
{
    match (a, b) {
        (Expr::Num(a), Expr::Num(b)) => a == b,
        (Expr::Fun(a), Expr::Fun(b)) => a == b,
        (Expr::Neg(a), Expr::Neg(b)) => is_same_boxed_expr(a, b),
        (Expr::Bin(op, left, right), Expr::Bin(op_b, left_b, right_b)) => {
            op == op_b && is_same_boxed_expr(left, left_b) && is_same_boxed_expr(right, right_b)
        }
        _ => false,
    }
}

#[cycle(same_expr)]
fn is_same_boxed_expr(a: &BoxedExpr, b: &BoxedExpr) -> bool
    ensures { result ≡ is_same expr_tree_code a.now b.now }
{
    is_same_expr(&a.inner, &b.inner)
}

impl PartialEq for Expr {
    ghost use Rattle.std.specs.Cmp.{partial_equiv_from_equiv, on_equiv};
    ghost use Rattle.std.specs.Ordering.{on};
    ghost use Rattle.ps_world.specs.Same.{is_same, is_same_equiv};
    ghost use Rattle.ps_world.specs.Trees.{expr_tree_code};
    ghost use Rattle.ps_world.specs.ExprViews.{expr_tree};

    ghost eq = { on expr_tree (is_same expr_tree_code) };

    ghost laws = { partial_equiv_from_equiv (on_equiv expr_tree (is_same_equiv expr_tree_code)) };

    fn eq(&self, other: &Self) -> bool {
        is_same_expr(self, other)
    }
}

impl Eq for Expr {
    ghost use Rattle.std.specs.Cmp.{on_equiv};
    ghost use Rattle.ps_world.specs.Same.{is_same_equiv};
    ghost use Rattle.ps_world.specs.Trees.{expr_tree_code};
    ghost use Rattle.ps_world.specs.ExprViews.{expr_tree};

    ghost laws = { on_equiv expr_tree (is_same_equiv expr_tree_code) };
}

impl PartialEq for BoxedExpr {
    ghost use Rattle.std.specs.Cmp.{partial_equiv_from_equiv};
    ghost use Rattle.ps_world.specs.Same.{is_same, is_same_equiv};
    ghost use Rattle.ps_world.specs.Trees.{expr_tree_code};

    ghost eq = { is_same expr_tree_code };

    ghost laws = { partial_equiv_from_equiv (is_same_equiv expr_tree_code) };

    fn eq(&self, other: &Self) -> bool {
        is_same_boxed_expr(self, other)
    }
}

impl Eq for BoxedExpr {
    ghost use Rattle.ps_world.specs.Same.{is_same_equiv};
    ghost use Rattle.ps_world.specs.Trees.{expr_tree_code};

    ghost laws = { is_same_equiv expr_tree_code };
}
