//! What a numeric expression means.
ghost use Rattle.std.specs.Prelude.{◌≡◌, ◌≤◌, IfOk, length, map};
ghost use Rattle.ps_world.specs.Failures.{Gives};
ghost use Rattle.ps_world.specs.ExprViews.{expr_tree};
ghost use Rattle.ps_world.specs.declared.expressions.Expr.TheVariants.{Bin, Neg};
ghost use Rattle.ps_lists.specs.Nested.{nesteds};
ghost use Rattle.ps_lists.specs.NestedViews.{nested};
ghost use Rattle.ps_conditions.specs.Steps.{refusable};
ghost use Rattle.ps_conditions.specs.declared.scopes.TheConstants.{MOST_IN_FORCE};
ghost use Rattle.ps_conditions.specs.Values.{function_value, operation, value};

use super::scopes::Scope;
use super::signs::{is_minus, operator_of};
use ps_lists::{Lexeme, Tree, head, rest};
use ps_world::{BoxedExpr, Expr, Failure, Num, Op, Param};
use std::alloc::{AllocError, Global};

/// The expression with the other sign.
fn negated(alloc: Global, inner: Expr) -> Result<Expr, AllocError>
    ensures { IfOk result (λ e. e ≡ Neg (expr_tree inner)) }
{
    Ok(Expr::Neg(BoxedExpr::new(alloc, inner)?))
}

/// The operation on two operands.
fn operated(alloc: Global, op: Op, left: Expr, right: Expr) -> Result<Expr, AllocError>
    ensures { IfOk result (λ e. e ≡ Bin op (expr_tree left) (expr_tree right)) }
{
    Ok(Expr::Bin(
        op,
        BoxedExpr::new(alloc, left)?,
        BoxedExpr::new(alloc, right)?,
    ))
}

/// The value of a function.
fn function_value<S: Scope>(
    scope: &S,
    params: &[Param],
    head: Lexeme,
    trees: &[Tree],
) -> Result<Expr, Failure<S::Refusal>>
    requires { length params.now ≤ MOST_IN_FORCE }
    ensures { Gives (λ e. e) result
        (function_value (refusable S.Refusal) ((S.scopes scope.now).words params.now) head (nesteds (map nested trees.now))) }
{
    match scope.function(params, head, trees) {
        Ok(function) => Ok(Expr::Fun(function)),
        Err(refusal) => Err(Failure::Refused(refusal)),
    }
}

/// What a head and its operands mean: an operation, whose first operand is judged first, or the value of a function.
#[cycle(value)]
fn operation<S: Scope>(
    alloc: Global,
    scope: &S,
    params: &[Param],
    trees: &[Tree],
) -> Result<Expr, Failure<S::Refusal>>
    requires { length params.now ≤ MOST_IN_FORCE }
    ensures { Gives (λ e. e) result
        (operation (refusable S.Refusal) ((S.scopes scope.now).words params.now) (nesteds (map nested trees.now))) }
{
    let word = head(trees);
    match trees {
        [] => Ok(Expr::Num(Num::ZERO)),
        [_] => function_value(scope, params, word, rest(trees)),
        [_, one] => {
            if is_minus(word.mark) {
                let inner = value(alloc, scope, params, one)?;
                Ok(negated(alloc, inner)?)
            } else {
                function_value(scope, params, word, rest(trees))
            }
        }
        [_, left, right, ..] => match operator_of(word.mark) {
            Some(op) => {
                let left = value(alloc, scope, params, left)?;
                let right = value(alloc, scope, params, right)?;
                Ok(operated(alloc, op, left, right)?)
            }
            None => function_value(scope, params, word, rest(trees)),
        },
    }
}

/// What a numeric expression means.
#[cycle(value)]
pub fn value<S: Scope>(
    alloc: Global,
    scope: &S,
    params: &[Param],
    tree: &Tree,
) -> Result<Expr, Failure<S::Refusal>>
    requires { length params.now ≤ MOST_IN_FORCE }
    ensures { Gives (λ e. e) result
        (value (refusable S.Refusal) ((S.scopes scope.now).words params.now) (nested tree.now)) }
{
    match tree {
        Tree::Word(word) => scope.worth(params, *word).map_err(Failure::Refused),
        Tree::Group(trees) => operation(alloc, scope, params, trees.as_slice()),
    }
}
