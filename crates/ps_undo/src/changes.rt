//! The changes that edits make, and those that lead back.
ghost use Rattle.std.specs.Prelude.{◌≡◌, [], ◌∷◌, ◌++◌, filter, IfOk, OnOk};
ghost use Rattle.std.specs.Map.{keys_of};
ghost use Rattle.ps_world.specs.Knowledge.{is_among};
ghost use Rattle.ps_undo.specs.Changes.{change_of, goal_left, kinds_at, known_at, leading_back, no_change, values_at, was_goal};

use ps_problem::{Change, Problem};
use ps_world::{Duplicate, Edit, Fact, Goal, Name, Num, Seq};
use std::alloc::{AllocError, Global};

/// The change that changes nothing but perhaps the goal.
fn with_goal(alloc: Global, goal: Option<Option<Goal>>) -> Change
    ensures { result ≡ record no_change { goal = goal } }
{
    Change {
        instances_in: Seq::new(alloc),
        instances_out: Seq::new(alloc),
        adds: Seq::new(alloc),
        deletes: Seq::new(alloc),
        values: Seq::new(alloc),
        gone: Seq::new(alloc),
        goal,
    }
}

// ---- the change of an edit

/// Adds the facts that name an instance.
fn push_facts(problem: &Problem, name: Name, out: &mut Seq<Fact>) -> Result<(), AllocError>
    ensures { OnOk result (out.new
        ≡ out.old ++ filter (λ f. is_among name f.args) problem.now.facts) }
{
    push_all(&problem.facts_naming(name)?, out)
}

/// Adds the terms that have values and name an instance.
fn push_terms(problem: &Problem, name: Name, out: &mut Seq<Fact>) -> Result<(), AllocError>
    ensures { OnOk result (out.new
        ≡ out.old ++ filter (λ f. is_among name f.args) (keys_of problem.now.values)) }
{
    push_all(&problem.terms_naming(name)?, out)
}

/// What becomes of the goal where an instance goes: it is removed if it names the instance.
fn goal_left(problem: &Problem, name: Name) -> Option<Option<Goal>>
    ensures { result ≡ goal_left name problem.now.goal }
{
    match problem.goal() {
        Some(goal) if goal.names(name) => Some(None),
        _ => None,
    }
}

/// What becomes of the goal by an edit.
fn goal_after(problem: &Problem, edit: &Edit) -> Result<Option<Option<Goal>>, AllocError>
    ensures { IfOk result (λ goal. goal ≡ (change_of problem.now edit.now).goal) }
{
    match edit {
        Edit::RemoveInstance(name) => Ok(goal_left(problem, *name)),
        Edit::SetGoal(goal) => Ok(Some(Some(goal.copy(problem.allocator())?))),
        Edit::RemoveGoal => Ok(Some(None)),
        _ => Ok(None),
    }
}

/// Adds what goes with an instance.
fn push_removal(problem: &Problem, name: Name, change: &mut Change) -> Result<(), AllocError>
    ensures { OnOk result (change.new ≡ record change.old {
      instances_out = change.old.instances_out ++ name ∷ [];
      deletes = change.old.deletes ++ filter (λ f. is_among name f.args) problem.now.facts;
      gone = change.old.gone ++ filter (λ f. is_among name f.args) (keys_of problem.now.values);
    }) }
{
    change.instances_out.push(name)?;
    push_facts(problem, name, &mut change.deletes)?;
    push_terms(problem, name, &mut change.gone)
}

/// Adds what an edit changes but the goal.
fn push_change(problem: &Problem, edit: &Edit, change: &mut Change) -> Result<(), AllocError>
    requires { change.old ≡ record no_change { goal = (change_of problem.now edit.now).goal } }
    ensures { OnOk result (change.new ≡ change_of problem.now edit.now) }
{
    match edit {
        Edit::AddInstance(name, kind) => change.instances_in.push((*name, *kind)),
        Edit::RemoveInstance(name) => push_removal(problem, *name, change),
        Edit::AddFact(fact) => change.adds.push(*fact),
        Edit::RemoveFact(fact) => change.deletes.push(*fact),
        Edit::SetValue(fact, number) => change.values.push((*fact, *number)),
        Edit::RemoveValue(fact) => change.gone.push(*fact),
        Edit::SetGoal(_) | Edit::RemoveGoal => Ok(()),
    }
}

/// The change that an edit makes of what is known, where it is accepted.
pub fn change_of(problem: &Problem, edit: &Edit) -> Result<Change, AllocError>
    ensures { IfOk result (λ change. change ≡ change_of problem.now edit.now) }
{
    let goal = goal_after(problem, edit)?;
    let mut change = with_goal(problem.allocator(), goal);
    push_change(problem, edit, &mut change)?;
    Ok(change)
}

// ---- the change that leads back

/// Adds the names of instances.
fn push_names(instances: &[(Name, Name)], out: &mut Seq<Name>) -> Result<(), AllocError>
    ensures { OnOk result (out.new ≡ out.old ++ keys_of instances.now) }
{
    for (name, _) in instances {
        out.push(*name)?;
    }
    Ok(())
}

/// Adds the terms of values.
fn push_keys(values: &[(Fact, Num)], out: &mut Seq<Fact>) -> Result<(), AllocError>
    ensures { OnOk result (out.new ≡ out.old ++ keys_of values.now) }
{
    for (term, _) in values {
        out.push(*term)?;
    }
    Ok(())
}

/// Adds facts.
fn push_all(facts: &[Fact], out: &mut Seq<Fact>) -> Result<(), AllocError>
    ensures { OnOk result (out.new ≡ out.old ++ facts.now) }
{
    for fact in facts {
        out.push(*fact)?;
    }
    Ok(())
}

/// Adds those of these names that are instances, with their types.
fn push_kinds(
    problem: &Problem,
    names: &[Name],
    out: &mut Seq<(Name, Name)>,
) -> Result<(), AllocError>
    ensures { OnOk result (out.new ≡ out.old ++ kinds_at problem.now.instances names.now) }
{
    for name in names {
        if let Some(kind) = problem.kind_of(*name) {
            out.push((*name, kind))?;
        }
    }
    Ok(())
}

/// Adds those of these facts that are known.
fn push_known(problem: &Problem, facts: &[Fact], out: &mut Seq<Fact>) -> Result<(), AllocError>
    ensures { OnOk result (out.new ≡ out.old ++ known_at problem.now.facts facts.now) }
{
    for fact in facts {
        if problem.has(fact) {
            out.push(*fact)?;
        }
    }
    Ok(())
}

/// Adds those of these terms that have values, with them.
fn push_values(
    problem: &Problem,
    terms: &[Fact],
    out: &mut Seq<(Fact, Num)>,
) -> Result<(), AllocError>
    ensures { OnOk result (out.new ≡ out.old ++ values_at problem.now.values terms.now) }
{
    for term in terms {
        if let Some(value) = problem.value(term) {
            out.push((*term, value))?;
        }
    }
    Ok(())
}

/// The goal, where a change sets or removes it.
fn was_goal(problem: &Problem, change: &Change) -> Result<Option<Option<Goal>>, AllocError>
    ensures { IfOk result (λ goal. goal ≡ was_goal change.now.goal problem.now.goal) }
{
    if change.goal.is_none() {
        return Ok(None);
    }
    let goal = problem.copied_goal()?;
    Ok(Some(goal))
}

/// Writes which instances go on the way back, and which come.
fn push_instances_back(
    problem: &Problem,
    goes: &[Name],
    comes: &[(Name, Name)],
    out: &mut Seq<Name>,
    into: &mut Seq<(Name, Name)>,
) -> Result<(), AllocError>
    requires gone { out.old ≡ [] }
    requires come { into.old ≡ [] }
    ensures gone { OnOk result (out.new ≡ keys_of comes.now) }
    ensures come { OnOk result (into.new ≡ kinds_at problem.now.instances (goes.now ++ keys_of comes.now)) }
{
    push_names(comes, out)?;
    push_kinds(problem, goes, into)?;
    push_kinds(problem, out.as_slice(), into)?;
    Ok(())
}

/// Writes which facts go on the way back, and which come.
fn push_facts_back(
    problem: &Problem,
    deletes: &[Fact],
    adds: &[Fact],
    out: &mut Seq<Fact>,
    into: &mut Seq<Fact>,
) -> Result<(), AllocError>
    requires gone { out.old ≡ [] }
    requires come { into.old ≡ [] }
    ensures gone { OnOk result (out.new ≡ adds.now) }
    ensures come { OnOk result (into.new ≡ known_at problem.now.facts (deletes.now ++ adds.now)) }
{
    push_all(adds, out)?;
    push_known(problem, deletes, into)?;
    push_known(problem, adds, into)?;
    Ok(())
}

/// Writes which values go on the way back, and which come.
fn push_values_back(
    problem: &Problem,
    gone: &[Fact],
    values: &[(Fact, Num)],
    out: &mut Seq<Fact>,
    into: &mut Seq<(Fact, Num)>,
) -> Result<(), AllocError>
    requires gone { out.old ≡ [] }
    requires come { into.old ≡ [] }
    ensures gone { OnOk result (out.new ≡ keys_of values.now) }
    ensures come { OnOk result (into.new ≡ values_at problem.now.values (gone.now ++ keys_of values.now)) }
{
    push_keys(values, out)?;
    push_values(problem, gone, into)?;
    push_values(problem, out.as_slice(), into)?;
    Ok(())
}

/// Adds what leads back, but the goal: what came by the change goes, and what was there comes again.
fn push_back(problem: &Problem, change: &Change, back: &mut Change) -> Result<(), AllocError>
    requires { back.old ≡ record no_change { goal = was_goal change.now.goal problem.now.goal } }
    ensures { OnOk result (back.new ≡ leading_back problem.now change.now) }
{
    push_instances_back(
        problem,
        change.instances_out.as_slice(),
        change.instances_in.as_slice(),
        &mut back.instances_out,
        &mut back.instances_in,
    )?;
    push_facts_back(
        problem,
        change.deletes.as_slice(),
        change.adds.as_slice(),
        &mut back.deletes,
        &mut back.adds,
    )?;
    push_values_back(
        problem,
        change.gone.as_slice(),
        change.values.as_slice(),
        &mut back.gone,
        &mut back.values,
    )?;
    Ok(())
}

/// The change that leads back from what is known after a change to what is known now.
pub fn leading_back(problem: &Problem, change: &Change) -> Result<Change, AllocError>
    ensures { IfOk result (λ back. back ≡ leading_back problem.now change.now) }
{
    let goal = was_goal(problem, change)?;
    let mut back = with_goal(problem.allocator(), goal);
    push_back(problem, change, &mut back)?;
    Ok(back)
}
