//! Why a condition can't be a goal.
ghost use Rattle.std.specs.Prelude.{◌≡◌, ◌≤◌, ◌++◌, [], length};
ghost use Rattle.std.specs.Option.{option_copied};
ghost use Rattle.ps_world.specs.Trees.{cond_trees};
ghost use Rattle.ps_world.specs.ExprViews.{expr_tree};
ghost use Rattle.ps_world.specs.CondViews.{cond_tree};
ghost use Rattle.ps_world.specs.Knowledge.{fault_of_atom, fault_of_bound, fault_of_call, fault_of_cond, fault_of_conds, fault_of_expr, fault_of_side, first_fault, kinds_of, misfit_of_term, or_else, unsuited_by};

use super::known::{Declares, Known, Types};
use super::misfits::misfit_of;
use super::refusals::Misfit;
use ps_world::{
    BoxedCond, BoxedExpr, Cond, Conds, Decl, EditRefusal, Env, Expr, Lifted, MOST_ARGUMENTS, Name,
    Param, Term,
};

/// Why a term can't stand at a place where this type is wanted, if it can't, where these are the types of the variables in force.
fn term_misfit<K: Known, T: Types>(
    known: &K,
    types: &T,
    kinds: &Env,
    term: &Term,
    want: Name,
    at: usize,
) -> Option<EditRefusal>
    ensures { result ≡ misfit_of_term (T.types types.now) (K.known known.now) kinds.now term.now want at }
{
    match term {
        Term::Var(_) if types.is_subtype(term.name_in(kinds), want) => None,
        Term::Var(_) => Some(EditRefusal::WrongType { at }),
        Term::Const(name) => misfit_of(known, types, *name, want, at),
    }
}

/// The first term that doesn't suit its parameter.
fn first_term_misfit<K: Known, T: Types>(
    known: &K,
    types: &T,
    kinds: &Env,
    params: &[Param],
    terms: &[Term],
) -> Option<EditRefusal>
    requires { length params.now ≡ length terms.now }
    ensures { result
        ≡ first_fault (misfit_of_term (T.types types.now) (K.known known.now) kinds.now) params.now terms.now 0 }
{
    for at in 0..params.len() {
        let found = term_misfit(known, types, kinds, &terms[at], params[at].kind, at);
        if found.is_some() {
            return found;
        }
    }
    None
}

/// Why the terms don't suit the declaration, if they don't: `missing` where there is none.
fn unsuited_terms<K: Known, D: Declares>(
    missing: EditRefusal,
    known: &K,
    domain: &D,
    kinds: &Env,
    decl: Option<&Decl>,
    terms: &[Term],
) -> Option<EditRefusal>
    ensures { result
        ≡ unsuited_by (misfit_of_term (D.types domain.now) (K.known known.now) kinds.now) missing (option_copied decl.entry) terms.now }
{
    let Some(decl) = decl else {
        return Some(missing);
    };
    let want = decl.params.len();
    let got = terms.len();
    if want != got {
        return Some(EditRefusal::Arity { want, got });
    }
    first_term_misfit(known, domain, kinds, decl.params.as_slice(), terms)
}

/// Why a predicate can't be asked for at these terms, if it can't.
fn atom_fault<K: Known, D: Declares>(
    known: &K,
    domain: &D,
    kinds: &Env,
    atom: &Lifted,
) -> Option<EditRefusal>
    ensures { result ≡ fault_of_atom (D.types domain.now) (K.known known.now) kinds.now atom.now }
{
    let decl = domain.predicate(atom.head);
    unsuited_terms(
        EditRefusal::NoPredicate,
        known,
        domain,
        kinds,
        decl,
        atom.terms.as_slice(),
    )
}

/// Why a function's value can't be asked for at these terms, if it can't.
fn call_fault<K: Known, D: Declares>(
    known: &K,
    domain: &D,
    kinds: &Env,
    call: &Lifted,
) -> Option<EditRefusal>
    ensures { result ≡ fault_of_call (D.types domain.now) (K.known known.now) kinds.now call.now }
{
    let decl = domain.function(call.head);
    unsuited_terms(
        EditRefusal::NoFunction,
        known,
        domain,
        kinds,
        decl,
        call.terms.as_slice(),
    )
}

/// Why a side of a `(= a b)` is no instance, if it is none.
fn side_fault<K: Known>(known: &K, side: &Term) -> Option<EditRefusal>
    ensures { result ≡ fault_of_side (K.known known.now) side.now }
{
    match side {
        Term::Var(_) => None,
        Term::Const(name) => match known.kind_of(*name) {
            None => Some(EditRefusal::NoInstance(*name)),
            Some(_) => None,
        },
    }
}

#[cycle(expr_fault)]
fn expr_fault<K: Known, D: Declares>(
    known: &K,
    domain: &D,
    kinds: &Env,
    expr: &Expr,
) -> Option<EditRefusal>
    ensures { result ≡ fault_of_expr (D.types domain.now) (K.known known.now) kinds.now (expr_tree expr.now) }
{
    match expr {
        Expr::Num(_) => None,
        Expr::Fun(call) => call_fault(known, domain, kinds, call),
        Expr::Neg(inner) => boxed_expr_fault(known, domain, &*kinds, inner),
        Expr::Bin(_, left, right) => {
            let first = boxed_expr_fault(known, domain, &*kinds, left);
            if first.is_some() {
                return first;
            }
            boxed_expr_fault(known, domain, &*kinds, right)
        }
    }
}

#[cycle(expr_fault)]
fn boxed_expr_fault<K: Known, D: Declares>(
    known: &K,
    domain: &D,
    kinds: &Env,
    boxed: &BoxedExpr,
) -> Option<EditRefusal>
    ensures { result ≡ fault_of_expr (D.types domain.now) (K.known known.now) kinds.now boxed.now }
{
    expr_fault(known, domain, &*kinds, boxed.get())
}

/// Why the condition can't be a goal, if it can't: the first fault in the order of the text.
///
/// A variable that is bound has `NoType` where its type isn't declared. A fact has `NoPredicate`, `Arity`, and then for each term
/// `NoInstance` and `WrongType`, and a function term `NoFunction`, `Arity` and the same; a variable's type is that of the instances that
/// it stands for. A side of a `(= a b)` has `NoInstance`.
pub fn cond_fault<K: Known, D: Declares>(known: &K, domain: &D, cond: &Cond) -> Option<EditRefusal>
    ensures { result ≡ fault_of_cond (D.types domain.now) (K.known known.now) [] (cond_tree cond.now) }
{
    cond_fault_in(known, domain, &Env::of(&[]), cond)
}

/// The same where these are the types of the variables in force.
#[cycle(cond_fault)]
fn cond_fault_in<K: Known, D: Declares>(
    known: &K,
    domain: &D,
    kinds: &Env,
    cond: &Cond,
) -> Option<EditRefusal>
    ensures { result ≡ fault_of_cond (D.types domain.now) (K.known known.now) kinds.now (cond_tree cond.now) }
{
    match cond {
        Cond::And(parts) | Cond::Or(parts) => conds_fault(known, domain, &*kinds, parts),
        Cond::Not(inner) => boxed_cond_fault(known, domain, &*kinds, inner),
        Cond::Imply(one, other) => {
            let first = boxed_cond_fault(known, domain, &*kinds, one);
            if first.is_some() {
                return first;
            }
            boxed_cond_fault(known, domain, &*kinds, other)
        }
        Cond::Holds(atom) => atom_fault(known, domain, kinds, &atom.get()),
        Cond::Same(one, other) => {
            let first = side_fault(known, one);
            if first.is_some() {
                return first;
            }
            side_fault(known, other)
        }
        Cond::Cmp(_, left, right) => {
            let first = expr_fault(known, domain, kinds, left.get());
            if first.is_some() {
                return first;
            }
            expr_fault(known, domain, kinds, right.get())
        }
        Cond::IsA(..) => None,
        Cond::ForSome(params, inner) | Cond::ForAll(params, inner) => {
            let _few = params.len();
            bound_fault(known, domain, &*kinds, params.as_slice(), inner)
        }
    }
}

#[cycle(cond_fault)]
fn boxed_cond_fault<K: Known, D: Declares>(
    known: &K,
    domain: &D,
    kinds: &Env,
    boxed: &BoxedCond,
) -> Option<EditRefusal>
    ensures { result ≡ fault_of_cond (D.types domain.now) (K.known known.now) kinds.now boxed.now }
{
    cond_fault_in(known, domain, &*kinds, boxed.get())
}

#[cycle(cond_fault)]
fn conds_fault<K: Known, D: Declares>(
    known: &K,
    domain: &D,
    kinds: &Env,
    conds: &Conds,
) -> Option<EditRefusal>
    ensures { result ≡ fault_of_conds (D.types domain.now) (K.known known.now) kinds.now (cond_trees conds.now) }
{
    for cond in conds.as_slice() {
        let found = cond_fault_in(known, domain, &*kinds, cond);
        if found.is_some() {
            return found;
        }
    }
    None
}

/// Why these variables can't be bound, or why the condition below them can't stand there.
#[cycle(cond_fault)]
fn bound_fault<K: Known, D: Declares>(
    known: &K,
    domain: &D,
    kinds: &Env,
    params: &[Param],
    cond: &BoxedCond,
) -> Option<EditRefusal>
    requires { length params.now ≤ MOST_ARGUMENTS }
    ensures { result ≡ or_else (fault_of_bound (D.types domain.now) params.now)
        (fault_of_cond (D.types domain.now) (K.known known.now) (kinds.now ++ kinds_of params.now) cond.now) }
{
    let Some((first, rest)) = params.split_first() else {
        return boxed_cond_fault(known, domain, &*kinds, cond);
    };
    if !domain.is_type(first.kind) {
        return Some(EditRefusal::NoType);
    }
    bound_fault(known, domain, &Env::with(&*kinds, first.kind), rest, cond)
}
