//! What conditions read and what edits change.
ghost use Rattle.std.specs.Prelude.{◌≡◌, [], ◌∷◌, ◌++◌, IfOk, OnOk};
ghost use Rattle.ps_world.specs.CondViews.{cond_tree};
ghost use Rattle.ps_world.specs.ExprViews.{expr_tree};
ghost use Rattle.ps_action.specs.Touching.{arguments, changed_by_edit, named_by, read_by, read_by_expr, read_by_list};

use ps_action::Touched;
use ps_world::{BoxedCond, BoxedExpr, Cond, Conds, Edit, Expr, Lifted, Term};
use std::alloc::{AllocError, Global};

fn push_name(term: &Term, all: &mut Vec<Touched>) -> Result<(), AllocError>
    ensures { OnOk result (all.new.items ≡ all.old.items ++ named_by term.now ∷ []) }
{
    all.push(Touched::named_by(term))?;
    Ok(())
}

fn push_arguments(lifted: &Lifted, all: &mut Vec<Touched>) -> Result<(), AllocError>
    ensures { OnOk result (all.new.items ≡ all.old.items ++ arguments lifted.now) }
{
    for term in lifted.terms.as_slice() {
        push_name(term, all)?;
    }
    Ok(())
}

#[cycle(expr)]
pub(crate) fn push_expr(expr: &Expr, all: &mut Vec<Touched>) -> Result<(), AllocError>
    ensures { OnOk result (all.new.items ≡ all.old.items ++ read_by_expr (expr_tree expr.now)) }
{
    match expr {
        Expr::Num(_) => Ok(()),
        Expr::Fun(lifted) => {
            all.push(Touched::value_at(lifted))?;
            push_arguments(lifted, all)
        }
        Expr::Neg(inner) => push_boxed_expr(inner, all),
        Expr::Bin(_, left, right) => {
            push_boxed_expr(left, all)?;
            push_boxed_expr(right, all)
        }
    }
}

#[cycle(expr)]
fn push_boxed_expr(expr: &BoxedExpr, all: &mut Vec<Touched>) -> Result<(), AllocError>
    ensures { OnOk result (all.new.items ≡ all.old.items ++ read_by_expr expr.now) }
{
    push_expr(expr.get(), all)
}

#[cycle(cond)]
pub(crate) fn push_cond(cond: &Cond, all: &mut Vec<Touched>) -> Result<(), AllocError>
    ensures { OnOk result (all.new.items ≡ all.old.items ++ read_by (cond_tree cond.now)) }
{
    match cond {
        Cond::And(parts) | Cond::Or(parts) => push_conds(parts, all),
        Cond::Not(inner) => push_boxed_cond(inner, all),
        Cond::Imply(left, right) => {
            push_boxed_cond(left, all)?;
            push_boxed_cond(right, all)
        }
        Cond::Holds(packed) => {
            let lifted = packed.get();
            all.push(Touched::fact_of(&lifted))?;
            push_arguments(&lifted, all)
        }
        Cond::Same(one, other) => {
            push_name(one, all)?;
            push_name(other, all)
        }
        Cond::Cmp(_, left, right) => {
            push_boxed_expr(left, all)?;
            push_boxed_expr(right, all)
        }
        Cond::IsA(term, _) => push_name(term, all),
        Cond::ForSome(_, part) | Cond::ForAll(_, part) => {
            all.push(Touched::Instances)?;
            push_boxed_cond(part, all)
        }
    }
}

#[cycle(cond)]
fn push_boxed_cond(cond: &BoxedCond, all: &mut Vec<Touched>) -> Result<(), AllocError>
    ensures { OnOk result (all.new.items ≡ all.old.items ++ read_by cond.now) }
{
    push_cond(cond.get(), all)
}

#[cycle(cond)]
fn push_conds(conds: &Conds, all: &mut Vec<Touched>) -> Result<(), AllocError>
    ensures { OnOk result (all.new.items ≡ all.old.items ++ read_by_list conds.now) }
{
    for cond in conds.as_slice() {
        push_cond(cond, all)?;
    }
    Ok(())
}

/// Room for what most lists of conditions read, so that it is made once.
const ROOM: usize = 8;

/// What a list of conditions reads: each fact and function term that stands in it, and each name that stands there as an
/// argument, in a `(= a b)` or where its type is asked for. Where a variable stands as an argument, it is the place that the fact or the
/// function term has, and for the name all instances; a quantifier reads all instances too. One thing may be named twice.
pub fn reads(alloc: Global, conds: &Conds) -> Result<Vec<Touched>, AllocError>
    ensures { IfOk result (λ v. v.items ≡ read_by_list conds.now) }
{
    let mut all = Vec::with_capacity(alloc, ROOM)?;
    push_conds(conds, &mut all)?;
    Ok(all)
}

/// What an edit changes. None exactly for the two edits of the goal. A removed instance takes what names it with it.
pub fn edited_by(edit: &Edit) -> Option<Touched>
    ensures { result ≡ changed_by_edit edit.now }
{
    match edit {
        Edit::AddInstance(name, _) | Edit::RemoveInstance(name) => Some(Touched::Instance(*name)),
        Edit::AddFact(fact) | Edit::RemoveFact(fact) => Some(Touched::Fact(*fact)),
        Edit::SetValue(term, _) | Edit::RemoveValue(term) => Some(Touched::Value(*term)),
        Edit::SetGoal(_) | Edit::RemoveGoal => None,
    }
}
