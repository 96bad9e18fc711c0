//! Printing conditions.
ghost use Rattle.std.specs.Prelude.{◌≡◌, ◌++◌, codes, IfOk, OnOk};
ghost use Rattle.ps_world.specs.Trees.{compares, same, cond_trees};
ghost use Rattle.ps_world.specs.CondViews.{cond_tree};
ghost use Rattle.ps_world.specs.ExprViews.{expr_tree};
ghost use Rattle.ps_world.specs.DomainTexts.{rel_text, bound_text, cond_text, conds_text};

use super::declared::write_params;
use super::expressions::write_expression;
use super::terms::{write_lifted, write_term};
use super::writer::Writer;
use ps_text::Names;
use ps_world::{BoxedCond, Cond, Conds, Expr, Param, Params, Rel, Term};
use std::alloc::{AllocError, Global};

/// Adds the sign of a comparison.
fn write_rel(text: &mut Writer, rel: Rel) -> Result<(), AllocError>
    ensures { OnOk result (text.new ≡ text.old ++ rel_text rel) }
{
    let sign = match rel {
        Rel::Lt => b"<".as_slice(),
        Rel::Le => b"<=".as_slice(),
        Rel::Eq => b"=".as_slice(),
        Rel::Ge => b">=".as_slice(),
        Rel::Gt => b">".as_slice(),
    };
    text.extend_from_slice(sign)?;
    Ok(())
}

/// Adds a comparison of two numbers.
fn write_comparison(
    text: &mut Writer,
    names: &Names,
    params: &[Param],
    rel: Rel,
    left: &Expr,
    right: &Expr,
) -> Result<(), AllocError>
    ensures { OnOk result (text.new ≡ text.old
        ++ cond_text names.now params.now
        (compares rel (expr_tree left.now) (expr_tree right.now))) }
{
    text.push(b'(')?;
    write_rel(text, rel)?;
    text.push(b' ')?;
    write_expression(text, names, params, left)?;
    text.push(b' ')?;
    write_expression(text, names, params, right)?;
    text.push(b')')?;
    Ok(())
}

/// Adds that two terms are the same.
fn write_same(
    text: &mut Writer,
    names: &Names,
    params: &[Param],
    one: &Term,
    other: &Term,
) -> Result<(), AllocError>
    ensures { OnOk result (text.new ≡ text.old
        ++ cond_text names.now params.now (same one.now other.now)) }
{
    text.extend_from_slice(b"(= ")?;
    write_term(text, names, params, one)?;
    text.push(b' ')?;
    write_term(text, names, params, other)?;
    text.push(b')')?;
    Ok(())
}

/// Adds the variables of a quantifier, each with its type.
pub(crate) fn write_bound(
    text: &mut Writer,
    names: &Names,
    bound: &[Param],
) -> Result<(), AllocError>
    ensures { OnOk result (text.new ≡ text.old ++ bound_text names.now bound.now) }
{
    text.push(b'(')?;
    write_params(text, names, bound)?;
    text.push(b')')?;
    Ok(())
}

/// The variables in force below a quantifier: these, and then its own.
pub(crate) fn in_force(
    alloc: Global,
    params: &[Param],
    bound: &[Param],
) -> Result<Vec<Param>, AllocError>
    ensures { IfOk result (λ all. all.items ≡ params.now ++ bound.now) }
{
    let mut all = Vec::new(alloc);
    all.extend_from_slice(params)?;
    all.extend_from_slice(bound)?;
    Ok(all)
}

/// Writes a condition, where these variables are in force. That an instance has a type adds nothing.
#[cycle(write_condition)]
pub fn write_condition(
    text: &mut Writer,
    names: &Names,
    params: &[Param],
    cond: &Cond,
) -> Result<(), AllocError>
    ensures { OnOk result (text.new ≡ text.old
        ++ cond_text names.now params.now (cond_tree cond.now)) }
{
    match cond {
        Cond::And(parts) => {
            text.extend_from_slice(b"(and")?;
            write_conditions(text, names, params, parts)?;
            text.push(b')')?;
            Ok(())
        }
        Cond::Or(parts) => {
            text.extend_from_slice(b"(or")?;
            write_conditions(text, names, params, parts)?;
            text.push(b')')?;
            Ok(())
        }
        Cond::Not(inner) => {
            text.extend_from_slice(b"(not ")?;
            write_boxed_condition(text, names, params, inner)?;
            text.push(b')')?;
            Ok(())
        }
        Cond::Imply(one, other) => {
            text.extend_from_slice(b"(imply ")?;
            write_boxed_condition(text, names, params, one)?;
            text.push(b' ')?;
            write_boxed_condition(text, names, params, other)?;
            text.push(b')')?;
            Ok(())
        }
        Cond::Holds(lifted) => {
            write_lifted(text, names, params, &lifted.get())?;
            Ok(())
        }
        Cond::Same(one, other) => {
            write_same(text, names, params, one, other)?;
            Ok(())
        }
        Cond::Cmp(rel, left, right) => {
            write_comparison(text, names, params, *rel, left.get(), right.get())?;
            Ok(())
        }
        Cond::IsA(..) => Ok(()),
        Cond::ForSome(bound, inner) => {
            text.extend_from_slice(b"(exists ")?;
            write_quantified(text, names, params, bound, inner)?;
            text.push(b')')?;
            Ok(())
        }
        Cond::ForAll(bound, inner) => {
            text.extend_from_slice(b"(forall ")?;
            write_quantified(text, names, params, bound, inner)?;
            text.push(b')')?;
            Ok(())
        }
    }
}

/// Adds the variables of a quantifier and its condition, where these variables are in force outside.
#[cycle(write_condition)]
fn write_quantified(
    text: &mut Writer,
    names: &Names,
    params: &[Param],
    bound: &Params,
    inner: &BoxedCond,
) -> Result<(), AllocError>
    ensures { OnOk result (text.new ≡ text.old ++ (bound_text names.now bound.now
        ++ (codes " " ++ cond_text names.now (params.now ++ bound.now) inner.now))) }
{
    let all = in_force(text.allocator(), params, bound.as_slice())?;
    write_bound(text, names, bound.as_slice())?;
    text.push(b' ')?;
    write_boxed_condition(text, names, &all, inner)?;
    Ok(())
}

#[cycle(write_condition)]
fn write_boxed_condition(
    text: &mut Writer,
    names: &Names,
    params: &[Param],
    boxed: &BoxedCond,
) -> Result<(), AllocError>
    ensures { OnOk result (text.new ≡ text.old
        ++ cond_text names.now params.now boxed.now) }
{
    write_condition(text, names, params, boxed.get())?;
    Ok(())
}

/// Adds conditions, each after a space.
#[cycle(write_condition)]
fn write_conditions(
    text: &mut Writer,
    names: &Names,
    params: &[Param],
    conds: &Conds,
) -> Result<(), AllocError>
    ensures { OnOk result (text.new ≡ text.old
        ++ conds_text names.now params.now (cond_trees conds.now)) }
{
    for cond in conds.as_slice() {
        text.push(b' ')?;
        write_condition(text, names, params, cond)?;
    }
    Ok(())
}

/// Adds a condition, where these variables are in force. That an instance has a type adds nothing.
pub fn push_condition(
    text: &mut Vec<u8>,
    names: &Names,
    params: &[Param],
    cond: &Cond,
) -> Result<(), AllocError>
    ensures { OnOk result (text.new.items ≡ text.old.items
        ++ cond_text names.now params.now (cond_tree cond.now)) }
{
    let mut writer = Writer::over(text);
    let written = write_condition(&mut writer, names, params, cond);
    writer.give_back(text, written)
}
