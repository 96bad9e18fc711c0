//! Printing numeric expressions.
ghost use Rattle.std.specs.Prelude.{◌≡◌, ◌++◌, OnOk};
ghost use Rattle.ps_world.specs.Numbers.{number_text};
ghost use Rattle.ps_world.specs.ExprViews.{expr_tree};
ghost use Rattle.ps_world.specs.DomainTexts.{op_text, expr_text};

use super::terms::write_lifted;
use super::writer::Writer;
use ps_text::{NUMBER_BYTES, Names, print_number};
use ps_world::{BoxedExpr, Expr, Num, Op, Param};
use std::alloc::AllocError;

fn write_number(text: &mut Writer, number: Num) -> Result<(), AllocError>
    ensures { OnOk result (text.new ≡ text.old ++ number_text number) }
{
    let mut bytes = [0; NUMBER_BYTES];
    let count = print_number(number, &mut bytes);
    text.extend_from_slice(&bytes[..count])?;
    Ok(())
}

/// Adds the sign of an operation.
fn write_op(text: &mut Writer, op: Op) -> Result<(), AllocError>
    ensures { OnOk result (text.new ≡ text.old ++ op_text op) }
{
    let sign = match op {
        Op::Add => b'+',
        Op::Sub => b'-',
        Op::Mul => b'*',
        Op::Div => b'/',
    };
    text.push(sign)?;
    Ok(())
}

/// Adds an expression.
#[cycle(write_expression)]
pub fn write_expression(
    text: &mut Writer,
    names: &Names,
    params: &[Param],
    expression: &Expr,
) -> Result<(), AllocError>
    ensures { OnOk result (text.new ≡ text.old
        ++ expr_text names.now params.now (expr_tree expression.now)) }
{
    match expression {
        Expr::Num(number) => {
            write_number(text, *number)?;
            Ok(())
        }
        Expr::Fun(lifted) => {
            write_lifted(text, names, params, lifted)?;
            Ok(())
        }
        Expr::Neg(inner) => {
            text.extend_from_slice(b"(- ")?;
            write_boxed_expression(text, names, params, inner)?;
            text.push(b')')?;
            Ok(())
        }
        Expr::Bin(op, left, right) => {
            text.push(b'(')?;
            write_op(text, *op)?;
            text.push(b' ')?;
            write_boxed_expression(text, names, params, left)?;
            text.push(b' ')?;
            write_boxed_expression(text, names, params, right)?;
            text.push(b')')?;
            Ok(())
        }
    }
}

#[cycle(write_expression)]
fn write_boxed_expression(
    text: &mut Writer,
    names: &Names,
    params: &[Param],
    boxed: &BoxedExpr,
) -> Result<(), AllocError>
    ensures { OnOk result (text.new ≡ text.old
        ++ expr_text names.now params.now boxed.now) }
{
    write_expression(text, names, params, boxed.get())?;
    Ok(())
}
