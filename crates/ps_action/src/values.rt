//! What expressions are worth.
ghost use Rattle.std.specs.Prelude.{◌≡◌, neg_ℤ};
ghost use Rattle.ps_world.specs.ExprViews.{expr_tree};
ghost use Rattle.ps_action.specs.Values.{computed, in_range, product, quotient, value, value_with};
ghost use Rattle.ps_action.specs.Plans.{duration_of};

use crate::known::Known;
use ps_world::{BoxedExpr, Env, Expr, Num, Op};

/// The number of a count of thousandths, or None exactly where it is out of range.
pub(crate) fn in_range(milli: i128) -> Option<Num>
    ensures { result ≡ in_range milli }
{
    match i64::try_from(milli) {
        Ok(count) => Num::new(count),
        Err(_) => None,
    }
}

/// The product of two counts of thousandths, rounded towards zero.
pub(crate) fn product(a: Num, b: Num) -> i128
    ensures { result ≡ product a b }
{
    a.milli() as i128 * b.milli() as i128 / 1000
}

/// Their quotient, rounded towards zero. None exactly where the second is zero.
pub(crate) fn quotient(a: Num, b: Num) -> Option<i128>
    ensures { result ≡ quotient a b }
{
    if b.milli() == 0 {
        return None;
    }
    Some(a.milli() as i128 * 1000 / b.milli() as i128)
}

/// What an operation gives. None exactly where it isn't defined or is out of range.
fn computed(op: Op, a: Num, b: Num) -> Option<Num>
    ensures { result ≡ computed op a b }
{
    match op {
        Op::Add => in_range(a.milli() as i128 + b.milli() as i128),
        Op::Sub => in_range(a.milli() as i128 - b.milli() as i128),
        Op::Mul => in_range(product(a, b)),
        Op::Div => match quotient(a, b) {
            Some(milli) => in_range(milli),
            None => None,
        },
    }
}

/// The number with the other sign.
fn negated(number: Num) -> Num
    ensures { result ≡ neg_ℤ number }
{
    match Num::new(-number.milli()) {
        Some(other) => other,
        None => unreachable!(),
    }
}

/// What an expression is worth (PDDL 2.1, section 4). None exactly where a part of it isn't defined: a function has no value,
/// a divisor is zero, or a result is out of range. It takes no memory.
pub fn value_of<K: Known>(known: &K, expr: &Expr) -> Option<Num>
    ensures { result ≡ value (K.known known.now) (expr_tree expr.now) }
{
    value_with(known, &Env::of(&[]), expr)
}

/// What an expression is worth, where variables stand for these names.
#[cycle(value)]
pub(crate) fn value_with<K: Known>(known: &K, env: &Env, expr: &Expr) -> Option<Num>
    ensures { result ≡ value_with (K.known known.now) env.now (expr_tree expr.now) }
{
    match expr {
        Expr::Num(number) => Some(*number),
        Expr::Fun(lifted) => known.value(&lifted.ground_in(env)),
        Expr::Neg(inner) => match boxed_value_with(known, env, inner) {
            Some(number) => Some(negated(number)),
            None => None,
        },
        Expr::Bin(op, left, right) => {
            match (
                boxed_value_with(known, env, left),
                boxed_value_with(known, env, right),
            ) {
                (Some(a), Some(b)) => computed(*op, a, b),
                _ => None,
            }
        }
    }
}

#[cycle(value)]
fn boxed_value_with<K: Known>(known: &K, env: &Env, expr: &BoxedExpr) -> Option<Num>
    ensures { result ≡ value_with (K.known known.now) env.now expr.now }
{
    value_with(known, env, expr.get())
}

/// How long an expression of a duration says: what it is worth, but zero where it isn't defined or negative. It takes no memory.
pub fn duration_of<K: Known>(known: &K, expr: &Expr) -> Num
    ensures { result ≡ duration_of (K.known known.now) (expr_tree expr.now) }
{
    match value_of(known, expr) {
        Some(number) if number.milli() > 0 => number,
        _ => Num::ZERO,
    }
}
