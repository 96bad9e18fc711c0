//! Parts of conditions that are false, with the values of both sides.
use ps_action::{Known, value_of};
use ps_domain::Expert;
use ps_places::{first_false, first_false_of};
use ps_print::push_condition;
use ps_problem::Problem;
use ps_remarks::Page;
use ps_text::Names;
use ps_world::{Cond, Conds, Expr, Name, Term};
use std::alloc::AllocError;

/// Says what an expression is worth.
fn say_value(problem: &Problem, expr: &Expr, page: &mut Page) -> Result<(), AllocError> {
    match value_of(problem, expr) {
        Some(number) => page.decimal(number),
        None => page.say("undefined"),
    }
}

/// Says that an instance isn't of a type.
fn say_no_type(
    names: &Names,
    problem: &Problem,
    term: Term,
    want: Name,
    page: &mut Page,
) -> Result<(), AllocError> {
    let Term::Const(name) = term else {
        return page.say("a variable is of another type");
    };
    page.name(names, name)?;
    match problem.kind_of(name) {
        None => page.say(" is no instance any more"),
        Some(kind) => {
            page.say(" is of type ")?;
            page.name(names, kind)?;
            page.say(" and not of ")?;
            page.name(names, want)
        }
    }
}

/// Says a part of a condition that is false.
fn say_part(
    names: &Names,
    problem: &Problem,
    part: &Cond,
    page: &mut Page,
) -> Result<(), AllocError> {
    if let Cond::IsA(term, want) = part {
        return say_no_type(names, problem, *term, *want, page);
    }
    push_condition(page.bytes(), names, &[], part)?;
    match part {
        Cond::Holds(_) => page.say(" isn't known"),
        Cond::Cmp(_, left, right) => {
            page.say(" is false: the left side is ")?;
            say_value(problem, left.get(), page)?;
            page.say(", the right side ")?;
            say_value(problem, right.get(), page)
        }
        _ => page.say(" is false"),
    }
}

/// Says the first part of a condition that is false. Answers whether there is one.
pub fn say_false(
    names: &Names,
    expert: &Expert,
    problem: &Problem,
    cond: &Cond,
    page: &mut Page,
) -> Result<bool, AllocError> {
    match first_false(problem, expert, cond) {
        Some(part) => {
            say_part(names, problem, part, page)?;
            Ok(true)
        }
        None => Ok(false),
    }
}

/// Says the first part of some conditions that is false. Answers whether there is one.
pub fn say_false_of(
    names: &Names,
    expert: &Expert,
    problem: &Problem,
    conds: &Conds,
    page: &mut Page,
) -> Result<bool, AllocError> {
    match first_false_of(problem, expert, conds) {
        Some(part) => {
            say_part(names, problem, part, page)?;
            Ok(true)
        }
        None => Ok(false),
    }
}
