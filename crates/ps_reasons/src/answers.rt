//! Why no plan is told: which parts of the goal are out of reach, or how far the search went.
use super::causes::say_head;
use super::conditions::say_false;
use ps_domain::Expert;
use ps_machine::Refusal;
use ps_marks::out_of_reach;
use ps_problem::Problem;
use ps_remarks::Page;
use ps_text::Names;
use ps_world::{Fact, Failure};
use std::alloc::AllocError;

/// Says facts, one a line.
fn say_facts(names: &Names, facts: &[Fact], page: &mut Page) -> Result<(), AllocError> {
    for fact in facts {
        page.say("    ")?;
        say_head(names, fact.head, fact.args.as_slice(), page)?;
        page.end()?;
    }
    Ok(())
}

/// Says which parts of the goal no acts could make true, whatever they delete, or that there is none such.
fn say_reach(
    names: &Names,
    expert: &Expert,
    problem: &Problem,
    page: &mut Page,
) -> Result<(), AllocError> {
    let facts = match out_of_reach(expert, problem) {
        Ok(facts) => facts,
        Err(Failure::Refused(_)) => return Ok(()),
        Err(Failure::OutOfMemory) => return Err(AllocError),
    };
    if facts.is_empty() {
        page.note("No fact of the goal is out of reach of all acts, were nothing ever deleted.")?;
        return page.note(
            "So its parts exclude each other, or a number, a 'not' or what acts delete stands in the way.",
        );
    }
    page.note(
        "Of the goal, no acts can ever make these facts true, even if nothing were deleted:",
    )?;
    say_facts(names, facts.as_slice(), page)
}

/// Says what of the goal isn't so yet.
fn say_open(
    names: &Names,
    expert: &Expert,
    problem: &Problem,
    page: &mut Page,
) -> Result<(), AllocError> {
    let Some(goal) = problem.goal() else {
        return Ok(());
    };
    page.say("  Of the goal, ")?;
    if !say_false(names, expert, problem, goal, page)? {
        page.say("nothing is open")?;
    }
    page.say(".\n")
}

/// Adds a number of things, with the word for one or that for another number.
fn say_number(
    number: u32,
    one: &'static str,
    more: &'static str,
    page: &mut Page,
) -> Result<(), AllocError> {
    page.number(u64::from(number))?;
    page.say(if number == 1 { one } else { more })
}

/// Says how far the search went.
fn say_spent(budget: u32, depth: u32, page: &mut Page) -> Result<(), AllocError> {
    page.say("  No plan of at most ")?;
    say_number(depth, " act", " acts", page)?;
    page.say(" is good. The search ended there: its budget is ")?;
    say_number(budget, " state", " different states", page)?;
    page.say(", and a plan has at most 256 acts.\n")?;
    page.note(
        "'--budget N' with up to 200000 lets it go deeper, and 'plan' searches in two other ways too.",
    )
}

/// Says more about why there is no plan.
pub fn say_no_answer(
    names: &Names,
    expert: &Expert,
    problem: &Problem,
    budget: u32,
    why: Refusal,
    page: &mut Page,
) -> Result<(), AllocError> {
    match why {
        Refusal::NoGoal => page.note("A line 'set goal CONDITION' sets one."),
        Refusal::NoPlan => {
            say_open(names, expert, problem, page)?;
            say_reach(names, expert, problem, page)
        }
        Refusal::Spent(depth) => {
            say_open(names, expert, problem, page)?;
            say_spent(budget, depth, page)
        }
        Refusal::TooMany => {
            page.note("Types of parameters that are narrower, or fewer instances, make fewer.")
        }
        _ => Ok(()),
    }
}
