//! Names in place of the variables of expressions and effects.
ghost use Rattle.std.specs.Prelude.{◌≡◌, IfOk};
ghost use Rattle.ps_action.specs.Grounding.{put_effect, put_expr, put_lifted, put_term, put_tree};

use ps_world::{BoxedExpr, Effect, Env, Expr, Lifted, MOST_ARGUMENTS, Name, Term, Terms};
use std::alloc::{AllocError, Global};

/// A term with its name in place of a variable. A variable behind the names is numbered without them.
pub fn put_term(env: &Env, term: Term) -> Term
    ensures { result ≡ put_term env.now term }
{
    match term {
        Term::Var(i) => match env.find(usize::from(i)) {
            Ok(name) => Term::Const(name),
            Err(behind) => Term::Var(behind as u8),
        },
        Term::Const(name) => Term::Const(name),
    }
}

/// A fact with names in place of its variables. It takes no memory.
pub fn put_lifted(env: &Env, lifted: &Lifted) -> Lifted
    ensures { result ≡ put_lifted env.now lifted.now }
{
    let count = lifted.terms.len();
    let terms = lifted.terms.as_slice();
    let mut put = [Term::Const(Name::OBJECT); MOST_ARGUMENTS];
    for i in 0..count {
        put[i] = put_term(env, terms[i]);
    }
    match Terms::of(&put[..count]) {
        Some(terms) => Lifted {
            head: lifted.head,
            terms,
        },
        None => unreachable!(),
    }
}

/// An expression with names in place of its variables.
#[cycle(put_expr)]
pub fn put_expr(alloc: Global, env: &Env, expr: &Expr) -> Result<Expr, AllocError>
    ensures { IfOk result (λ put. put ≡ put_expr env.now expr.now) }
{
    match expr {
        Expr::Num(number) => Ok(Expr::Num(*number)),
        Expr::Fun(lifted) => Ok(Expr::Fun(put_lifted(&*env, lifted))),
        Expr::Neg(inner) => Ok(Expr::Neg(put_boxed_expr(alloc, &*env, inner)?)),
        Expr::Bin(op, left, right) => {
            let left = put_boxed_expr(alloc, &*env, left)?;
            let right = put_boxed_expr(alloc, &*env, right)?;
            Ok(Expr::Bin(*op, left, right))
        }
    }
}

/// The same of an expression in a box.
#[cycle(put_expr)]
pub fn put_boxed_expr(alloc: Global, env: &Env, boxed: &BoxedExpr) -> Result<BoxedExpr, AllocError>
    ensures { IfOk result (λ put. put ≡ put_tree env.now boxed.now) }
{
    let inner = put_expr(alloc, &*env, boxed.get())?;
    BoxedExpr::new(alloc, inner)
}

/// An effect with names in place of its variables.
pub fn put_effect(alloc: Global, env: &Env, effect: &Effect) -> Result<Effect, AllocError>
    ensures { IfOk result (λ put. put ≡ put_effect env.now effect.now) }
{
    match effect {
        Effect::Add(lifted) => Ok(Effect::Add(put_lifted(env, lifted))),
        Effect::Delete(lifted) => Ok(Effect::Delete(put_lifted(env, lifted))),
        Effect::Number(how, lifted, by) => {
            let term = put_lifted(env, lifted);
            let by = put_expr(alloc, env, by)?;
            Ok(Effect::Number(*how, term, by))
        }
    }
}
