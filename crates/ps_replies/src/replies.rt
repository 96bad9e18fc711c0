//! What replies tell, and the text of an entry with its reply.
ghost use Rattle.std.specs.Prelude.{◌≡◌, List, [], ◌++◌, IfOk, OnOk};
ghost use Rattle.std.specs.Option.{option_copied};
ghost use Rattle.ps_action.specs.Plans.{timed};
ghost use Rattle.ps_action.specs.Trees.{tree_text};
ghost use Rattle.ps_machine.specs.declared.inputs.Input.{Input as InputView};
ghost use Rattle.ps_machine.specs.declared.journal.Entry.{Entry as EntryView};
ghost use Rattle.ps_rules.specs.Journal.{entry_text};
ghost use Rattle.ps_replies.specs.Plans.{RepliesTo, told_of};

use ps_action::Act;
use ps_domain::Expert;
use ps_journal::{Printed, Told, entry_text};
use ps_machine::{Entry, Event, Query};
use ps_plan::timed;
use ps_problem::Problem;
use ps_text::Names;
use ps_tree::Tree;
use ps_world::Seq;
use std::alloc::{AllocError, Global};

/// The steps of a plan that is told.
fn told_plan(
    alloc: Global,
    expert: &Expert,
    problem: &Problem,
    plan: &[Act],
) -> Result<Told, AllocError>
    ensures { IfOk result (λ told. told
        ≡ record { steps = timed expert.now problem.now plan.now; tree = [] }) }
{
    let steps = timed(alloc, expert, problem, plan)?;
    Ok(Told {
        steps: Seq::of(steps),
        tree: Seq::new(alloc),
    })
}

/// The text of a tree that is told.
fn told_tree(alloc: Global, tree: &Tree) -> Result<Told, AllocError>
    ensures { IfOk result (λ told. told ≡ record { steps = []; tree = tree_text tree.now }) }
{
    let text = tree.text()?;
    Ok(Told {
        steps: Seq::new(alloc),
        tree: Seq::of(text),
    })
}

/// What the reply to a query tells, where this is the plan that it may ask for, and this the tree.
fn told(
    alloc: Global,
    expert: &Expert,
    problem: &Problem,
    plan: &[Act],
    tree: Option<&Tree>,
    query: Query,
) -> Result<Told, AllocError>
    ensures { IfOk result (λ told. told
        ≡ told_of expert.now problem.now plan.now (option_copied tree.entry) query) }
{
    match query {
        Query::Plan => told_plan(alloc, expert, problem, plan),
        Query::Tree => match tree {
            Some(tree) => told_tree(alloc, tree),
            None => Ok(Told::nothing(alloc)),
        },
        _ => Ok(Told::nothing(alloc)),
    }
}

/// Adds the text of an entry: its line, and where it asks something the lines that answer it, of what is known then. A query for a plan
/// is answered by the steps of this plan, one for the tree by this tree.
pub fn push_entry(
    alloc: Global,
    names: &Names,
    expert: &Expert,
    problem: &Problem,
    plan: &[Act],
    tree: Option<&Tree>,
    entry: &Entry,
    out: &mut Vec<u8>,
) -> Result<(), AllocError>
    ensures { (i : InputView) (es : List EntryView)
        → RepliesTo i es entry.now.what expert.now problem.now plan.now (option_copied tree.entry)
        → OnOk result (out.new.items ≡ out.old.items ++ entry_text names.now i es entry.now) }
{
    match &entry.what {
        Event::Ask(query) => {
            let told = told(alloc, expert, problem, plan, tree, *query)?;
            let text = entry_text(alloc, names, expert, problem, entry, &told)?;
            out.extend_from_slice(&text)
        }
        _ => {
            entry.print(names, out)?;
            out.push(b'\n')?;
            Ok(())
        }
    }
}
