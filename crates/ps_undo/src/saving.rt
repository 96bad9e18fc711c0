//! The edits that save what is known.
ghost use Rattle.std.specs.Prelude.{◌≡◌, [], ◌++◌, filter, map, IfOk, OnOk};
ghost use Rattle.ps_world.specs.Texts.{edit_text};
ghost use Rattle.ps_world.specs.declared.edits.Edit.TheVariants.{AddFact};
ghost use Rattle.ps_undo.specs.Saved.{ArePut, AreSaved, IsInLineOrder, is_new, set_goal, set_instance, set_value};

use crate::lines::Part;
use ps_action::Known;
use ps_domain::Expert;
use ps_problem::Problem;
use ps_text::Names;
use ps_world::{Duplicate, Edit, Name, Seq};
use std::alloc::{AllocError, Global};

/// Room for most lines, so that their texts need not grow.
const LINE_BYTES: usize = 64;

/// Parts of what is known, each after the line of its edit.
fn lines_of<T: Part>(
    alloc: Global,
    names: &Names,
    parts: &[T],
) -> Result<Vec<(Seq<u8>, T)>, AllocError>
    ensures { IfOk result (λ lines. lines.items
        ≡ map (λ part. (edit_text names.now (T.set part), part)) parts.now) }
{
    let mut lines = Vec::with_capacity(alloc, parts.len())?;
    for part in parts {
        let mut line = Vec::with_capacity(alloc, LINE_BYTES)?;
        part.push_line(names, &mut line)?;
        lines.push((Seq::of(line), *part))?;
    }
    Ok(lines)
}

/// Parts without their lines.
fn parts_of<T: Part>(alloc: Global, lines: &[(Seq<u8>, T)]) -> Result<Vec<T>, AllocError>
    ensures { IfOk result (λ parts. parts.items ≡ map (λ line. line.1) lines.now) }
{
    let mut parts = Vec::with_capacity(alloc, lines.len())?;
    for (_, part) in lines {
        parts.push(*part)?;
    }
    Ok(parts)
}

/// Parts in the order of the lines of their edits.
fn in_line_order<T: Part>(alloc: Global, names: &Names, parts: &[T]) -> Result<Vec<T>, AllocError>
    ensures { IfOk result (λ ordered. IsInLineOrder names.now T.set parts.now ordered.items) }
{
    let mut lines = lines_of(alloc, names, parts)?;
    lines.sort_unstable();
    parts_of(alloc, &lines)
}

/// Adds the edits of parts, in the order of their lines.
fn push_parts<T: Part>(
    alloc: Global,
    names: &Names,
    parts: &[T],
    edits: &mut Vec<Edit>,
) -> Result<(), AllocError>
    ensures { OnOk result (ArePut names.now T.set parts.now edits.old.items edits.new.items) }
{
    let ordered = in_line_order(alloc, names, parts)?;
    push_edits(&ordered, edits)
}

/// Adds the edits of parts.
fn push_edits<T: Part>(parts: &[T], edits: &mut Vec<Edit>) -> Result<(), AllocError>
    ensures { OnOk result (edits.new.items ≡ edits.old.items ++ map T.set parts.now) }
{
    for part in parts {
        edits.push(part.edit())?;
    }
    Ok(())
}

/// The instances that are no constants of the domain.
fn new_instances(
    alloc: Global,
    expert: &Expert,
    instances: &[(Name, Name)],
) -> Result<Vec<(Name, Name)>, AllocError>
    ensures { IfOk result (λ v. v.items ≡ filter (is_new expert.now) instances.now) }
{
    let mut new = Vec::new(alloc);
    for instance in instances {
        if expert.domain().constant(instance.0).is_none() {
            new.push(*instance)?;
        }
    }
    Ok(new)
}

/// Adds the edit of the goal, where there is one.
fn push_goal(problem: &Problem, edits: &mut Vec<Edit>) -> Result<(), AllocError>
    ensures { OnOk result (edits.new.items ≡ edits.old.items ++ set_goal problem.now.goal) }
{
    if let Some(goal) = problem.copied_goal()? {
        edits.push(Edit::SetGoal(goal))?;
    }
    Ok(())
}

/// Adds the edits of the instances that are no constants of the domain.
fn push_instances(
    names: &Names,
    problem: &Problem,
    expert: &Expert,
    edits: &mut Vec<Edit>,
) -> Result<(), AllocError>
    ensures { OnOk result (ArePut names.now set_instance
        (filter (is_new expert.now) problem.now.instances) edits.old.items edits.new.items) }
{
    let alloc = problem.allocator();
    let new = new_instances(alloc, expert, Known::instances(problem))?;
    push_parts(alloc, names, &new, edits)
}

/// Adds the edits of the facts.
fn push_facts(names: &Names, problem: &Problem, edits: &mut Vec<Edit>) -> Result<(), AllocError>
    ensures { OnOk result (ArePut names.now AddFact problem.now.facts edits.old.items edits.new.items) }
{
    push_parts(problem.allocator(), names, &problem.facts()?, edits)
}

/// Adds the edits of the values.
fn push_values(names: &Names, problem: &Problem, edits: &mut Vec<Edit>) -> Result<(), AllocError>
    ensures { OnOk result (ArePut names.now set_value problem.now.values edits.old.items edits.new.items) }
{
    push_parts(problem.allocator(), names, &problem.values()?, edits)
}

/// Adds all edits, kind by kind.
fn push_saved(
    names: &Names,
    problem: &Problem,
    expert: &Expert,
    edits: &mut Vec<Edit>,
) -> Result<(), AllocError>
    requires { edits.old.items ≡ [] }
    ensures { OnOk result (AreSaved names.now expert.now problem.now edits.new.items) }
{
    push_instances(names, problem, expert, edits)?;
    push_facts(names, problem, edits)?;
    push_values(names, problem, edits)?;
    push_goal(problem, edits)
}

/// The edits that save what is known: made where a session opens, they are all accepted and give the same knowledge. The instances that
/// are no constants come first, then the facts, the values and the goal, each kind in the order of its lines' bytes.
pub fn save(
    alloc: Global,
    names: &Names,
    problem: &Problem,
    expert: &Expert,
) -> Result<Vec<Edit>, AllocError>
    ensures { IfOk result (λ edits. AreSaved names.now expert.now problem.now edits.items) }
{
    let mut edits = Vec::new(alloc);
    push_saved(names, problem, expert, &mut edits)?;
    Ok(edits)
}
