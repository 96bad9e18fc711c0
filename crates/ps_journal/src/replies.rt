//! The lines that answer queries.
ghost use Rattle.std.specs.Prelude.{◌≡◌, List, [], ◌∷◌, ◌++◌, map, IfOk, OnOk};
ghost use Rattle.std.specs.Option.{option_copied, option_map_or};
ghost use Rattle.ps_world.specs.Lines.{line_end, lines_of};
ghost use Rattle.ps_world.specs.Names.{name_text};
ghost use Rattle.ps_world.specs.DomainTexts.{action_lines, decl_text, domain_lines};
ghost use Rattle.ps_machine.specs.declared.inputs.Input.{Input as InputView};
ghost use Rattle.ps_machine.specs.declared.journal.Entry.{Entry as EntryView};
ghost use Rattle.ps_machine.specs.declared.journal.Event.TheVariants as event;
ghost use Rattle.ps_rules.specs.Known.{know};
ghost use Rattle.ps_rules.specs.Journal.{answer_lines, entry_text, reply_mark, reply_text};
ghost use Rattle.ps_journal.specs.Told.{IsTold, known_lines};

use super::known::{push_goal, push_in_order};
use super::printed::{Printed, push_after};
use ps_action::PlanStep;
use ps_domain::Expert;
use ps_machine::{Entry, Event, Query};
use ps_print::{print_domain, push_action, push_decl};
use ps_problem::Problem;
use ps_text::{Names, lines};
use ps_world::{ActionDef, Decl, Domain, Param, Seq};
use std::alloc::{AllocError, Global};

/// What the reply to an entry tells beside what is declared and known: the steps of a plan, or the text of a tree.
#[derive(Drop)]
pub struct Told {
    pub steps: Seq<PlanStep>,
    pub tree: Seq<u8>,
}

impl Told {
    /// What most entries tell.
    pub fn nothing(alloc: Global) -> Told
        ensures steps { result.steps ≡ [] }
        ensures tree { result.tree ≡ [] }
    {
        Told {
            steps: Seq::new(alloc),
            tree: Seq::new(alloc),
        }
    }
}

/// The text of an entry: its line, and the lines that answer a query. A name that the table hasn't is printed as nothing.
pub fn entry_text(
    alloc: Global,
    names: &Names,
    expert: &Expert,
    problem: &Problem,
    entry: &Entry,
    told: &Told,
) -> Result<Vec<u8>, AllocError>
    ensures { IfOk result (λ text. (i : InputView) (es : List EntryView)
        → expert.now ≡ i.domain → problem.now ≡ know i es → IsTold i es entry.now.what told.now
        → text.items ≡ entry_text names.now i es entry.now) }
{
    let mut text = Vec::new(alloc);
    entry.print(names, &mut text)?;
    text.push(b'\n')?;
    if let Event::Ask(query) = &entry.what {
        push_answer(alloc, names, expert, problem, query, told, &mut text)?;
    }
    Ok(text)
}

/// Adds the lines that answer a query, with what is told of the plan or the tree that it asks for, if it asks for one.
fn push_answer(
    alloc: Global,
    names: &Names,
    expert: &Expert,
    problem: &Problem,
    query: &Query,
    told: &Told,
    out: &mut Vec<u8>,
) -> Result<(), AllocError>
    ensures { (i : InputView) (es : List EntryView)
        → expert.now ≡ i.domain → problem.now ≡ know i es
        → IsTold i es (event.Ask query.now) told.now
        → OnOk result (out.new.items ≡ out.old.items
        ++ reply_text (answer_lines names.now i es query.now)) }
{
    match query {
        Query::Plan => push_replies(told.steps.as_slice(), names, out),
        Query::Tree => push_indented(alloc, told.tree.as_slice(), out),
        known => push_known(alloc, names, expert, problem, known, out),
    }
}

/// Adds the lines that answer a query of what is declared or known; none of a plan or a tree. A name that the table hasn't is printed as
/// nothing.
pub fn push_known(
    alloc: Global,
    names: &Names,
    expert: &Expert,
    problem: &Problem,
    query: &Query,
    out: &mut Vec<u8>,
) -> Result<(), AllocError>
    ensures { OnOk result (out.new.items ≡ out.old.items
        ++ reply_text (known_lines names.now expert.now problem.now query.now)) }
{
    let domain = expert.domain();
    match query {
        Query::ModelTypes => push_types(domain.types.as_slice(), names, out),
        Query::ModelPredicates => push_replies(domain.predicates.as_slice(), names, out),
        Query::ModelFunctions => push_replies(domain.functions.as_slice(), names, out),
        Query::ModelActions => push_action_names(domain.actions.as_slice(), names, out),
        Query::ModelPredicate(name) => push_found_decl(expert.predicate(*name), names, out),
        Query::ModelAction(name) => push_found_action(alloc, expert.action(*name), names, out),
        Query::Domain => push_domain(alloc, domain, names, out),
        Query::ProblemInstances => {
            push_in_order(alloc, problem.instances()?.as_slice(), names, out)
        }
        Query::ProblemPredicates => push_in_order(alloc, problem.facts()?.as_slice(), names, out),
        Query::ProblemFunctions => push_in_order(alloc, problem.values()?.as_slice(), names, out),
        Query::ProblemGoal => push_goal(alloc, problem.goal(), names, out),
        Query::Plan | Query::Tree => Ok(()),
    }
}

/// Adds a reply line: two spaces, the line and its end.
pub fn push_reply(line: &[u8], out: &mut Vec<u8>) -> Result<(), AllocError>
    ensures { OnOk result (out.new.items ≡ out.old.items
        ++ (reply_mark ++ (line.now ++ line_end))) }
{
    out.extend_from_slice(b"  ")?;
    out.extend_from_slice(line)?;
    out.push(b'\n')?;
    Ok(())
}

/// Adds a value's text as a reply.
fn push_reply_of<T: Printed>(value: &T, names: &Names, out: &mut Vec<u8>) -> Result<(), AllocError>
    ensures { OnOk result (out.new.items ≡ out.old.items
        ++ (reply_mark ++ (T.text names.now value.now ++ line_end))) }
{
    push_after(b"  ", value, names, out)?;
    out.push(b'\n')?;
    Ok(())
}

/// Adds the texts of values, each as a reply.
pub fn push_replies<T: Printed>(
    values: &[T],
    names: &Names,
    out: &mut Vec<u8>,
) -> Result<(), AllocError>
    ensures { OnOk result (out.new.items ≡ out.old.items
        ++ reply_text (map (T.text names.now) values.now)) }
{
    for value in values {
        push_reply_of(value, names, out)?;
    }
    Ok(())
}

/// Adds the names of types, each as a reply.
fn push_types(types: &[Param], names: &Names, out: &mut Vec<u8>) -> Result<(), AllocError>
    ensures { OnOk result (out.new.items ≡ out.old.items
        ++ reply_text (map (λ p. name_text names.now p.name) types.now)) }
{
    for param in types {
        push_reply_of(&param.name, names, out)?;
    }
    Ok(())
}

/// Adds the names of actions, each as a reply.
fn push_action_names(
    actions: &[ActionDef],
    names: &Names,
    out: &mut Vec<u8>,
) -> Result<(), AllocError>
    ensures { OnOk result (out.new.items ≡ out.old.items
        ++ reply_text (map (λ a. name_text names.now a.name) actions.now)) }
{
    for action in actions {
        push_reply_of(&action.name, names, out)?;
    }
    Ok(())
}

/// The text of a declaration.
impl Printed for Decl {
    ghost text = { decl_text };

    fn print(&self, names: &Names, out: &mut Vec<u8>) -> Result<(), AllocError> {
        push_decl(out, names, self)
    }
}

/// Adds a declaration that was asked for as a reply. Where it isn't declared there is none.
fn push_found_decl(decl: Option<&Decl>, names: &Names, out: &mut Vec<u8>) -> Result<(), AllocError>
    ensures { OnOk result (out.new.items ≡ out.old.items ++ reply_text
        (option_map_or (λ decl. decl_text names.now decl ∷ []) (option_copied decl.entry) [])) }
{
    match decl {
        None => Ok(()),
        Some(decl) => push_reply_of(decl, names, out),
    }
}

/// Adds the lines of a text, each as a reply.
fn push_indented(alloc: Global, block: &[u8], out: &mut Vec<u8>) -> Result<(), AllocError>
    ensures { OnOk result (out.new.items ≡ out.old.items ++ reply_text (lines_of block.now)) }
{
    let spans = lines(alloc, block)?;
    for span in &spans {
        push_reply(&block[span.from..span.to], out)?;
    }
    Ok(())
}

/// Adds the lines of an action that was asked for, each as a reply. Where it isn't declared there are none.
fn push_found_action(
    alloc: Global,
    action: Option<&ActionDef>,
    names: &Names,
    out: &mut Vec<u8>,
) -> Result<(), AllocError>
    ensures { OnOk result (out.new.items ≡ out.old.items
        ++ reply_text (option_map_or (action_lines names.now) (option_copied action.entry) [])) }
{
    match action {
        None => Ok(()),
        Some(action) => push_action_replies(alloc, action, names, out),
    }
}

/// Adds the lines of an action, each as a reply.
fn push_action_replies(
    alloc: Global,
    action: &ActionDef,
    names: &Names,
    out: &mut Vec<u8>,
) -> Result<(), AllocError>
    ensures { OnOk result (out.new.items ≡ out.old.items
        ++ reply_text (action_lines names.now action.now)) }
{
    // A table says of its length that its texts are names, which are lines.
    let _count = names.len();
    let mut block = Vec::new(alloc);
    push_action(&mut block, names, action)?;
    push_indented(alloc, block.as_slice(), out)?;
    Ok(())
}

/// Adds the lines of a domain's canonical text, each as a reply.
fn push_domain(
    alloc: Global,
    domain: &Domain,
    names: &Names,
    out: &mut Vec<u8>,
) -> Result<(), AllocError>
    ensures { OnOk result (out.new.items ≡ out.old.items
        ++ reply_text (domain_lines names.now domain.now)) }
{
    // A table says of its length that its texts are names, which are lines.
    let _count = names.len();
    let block = print_domain(alloc, names, domain)?;
    push_indented(alloc, block.as_slice(), out)?;
    Ok(())
}
